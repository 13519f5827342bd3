ghost use Rattle.std.specs.Prelude.{◌≡◌, ◌<◌, ◌&&◌, length, slice_set, IfOk};
ghost use Rattle.dm_list.specs.Answer.{first_refusal};
ghost use Rattle.dm_lockstate.specs.Lock.{refusals_of};
ghost use Rattle.dm_lockstate.specs.Points.{offer_of, is_asked, refuses, stop_at, refusals_at};

use crate::Stop;
use crate::dropping::{is_dropped, is_paired};
use crate::points::{all_have, have_same_fill, narrows};
use crate::state::{Dropped, LockState};
use dm_schema::{Column, Copied, Name, Schema, has_column, in_name_order};
use std::alloc::{AllocError, Global};

/// What speaks of an offer: the lock, the shard and its new schema, and the schemas, their join and the dropped
/// columns behind it.
#[derive(Clone, Copy)]
pub struct Offered<'a> {
    pub lock: &'a LockState,
    pub member: u32,
    pub schema: &'a Schema,
    pub schemas: &'a [Schema],
    pub joined: &'a Schema,
    pub dropped: &'a [Dropped],
}

/// What an offer is judged by, in this order, and in each by columns in byte order of names.
#[derive(Clone, Copy, Debug, PartialEq, Eq)]
pub enum Point {
    /// A column that the shard dropped comes again while it is downstream.
    ComesAgain,
    /// A joined column becomes narrower while rows of a shard that dropped it hold what they held.
    NarrowsDropped,
    /// The shard's rows downstream have another fill than its own.
    GainsOtherFill,
    /// The fill changes of a column that some shard lacks.
    ChangesFill,
}

/// Why an offer is refused, if it is.
pub fn refusal(alloc: Global, offered: &Offered<'_>) -> Result<Option<Stop>, AllocError>
    requires member { offered.now.member < length offered.now.lock.now.schemas }
    requires schemas { offered.now.schemas.now ≡ slice_set offered.now.lock.now.schemas offered.now.member offered.now.schema.now }
    ensures { IfOk result (λ stop. stop ≡ first_refusal (refusals_of (offer_of offered.now))) }
{
    let gained = in_name_order(alloc, offered.schema.columns())?;
    let kept = in_name_order(alloc, offered.lock.joined().columns())?;
    if let Some(stop) = first_refused(alloc, offered, Point::ComesAgain, &gained)? {
        return Ok(Some(stop));
    }
    if let Some(stop) = first_refused(alloc, offered, Point::NarrowsDropped, &kept)? {
        return Ok(Some(stop));
    }
    if let Some(stop) = first_refused(alloc, offered, Point::GainsOtherFill, &gained)? {
        return Ok(Some(stop));
    }
    first_refused(alloc, offered, Point::ChangesFill, &kept)
}

/// The first refusal of a point at the names of columns.
fn first_refused(
    alloc: Global,
    offered: &Offered<'_>,
    point: Point,
    columns: &[Column],
) -> Result<Option<Stop>, AllocError>
    requires member { offered.now.member < length offered.now.lock.now.schemas }
    requires schemas { offered.now.schemas.now ≡ slice_set offered.now.lock.now.schemas offered.now.member offered.now.schema.now }
    ensures { IfOk result (λ stop. stop ≡ first_refusal (refusals_at (offer_of offered.now) point columns.now)) }
{
    for column in columns {
        if speaks_against(alloc, offered, point, &column.name)? {
            return Ok(Some(stop_at(point, column.name.copy(alloc)?)));
        }
    }
    Ok(None)
}

/// Whether a point is judged at a name, and speaks against the offer there.
fn speaks_against(
    alloc: Global,
    offered: &Offered<'_>,
    point: Point,
    name: &Name,
) -> Result<bool, AllocError>
    requires member { offered.now.member < length offered.now.lock.now.schemas }
    requires schemas { offered.now.schemas.now ≡ slice_set offered.now.lock.now.schemas offered.now.member offered.now.schema.now }
    ensures { IfOk result (λ answer. answer
        ≡ (is_asked (offer_of offered.now) point name.now && refuses (offer_of offered.now) point name.now)) }
{
    if !is_asked(offered, point, name) {
        return Ok(false);
    }
    refuses(alloc, offered, point, name)
}

/// Whether a point is judged at a name.
fn is_asked(offered: &Offered<'_>, point: Point, name: &Name) -> bool
    requires { offered.now.member < length offered.now.lock.now.schemas }
    ensures { result ≡ is_asked (offer_of offered.now) point name.now }
{
    match point {
        Point::ComesAgain | Point::GainsOtherFill => {
            !has_column(offered.lock.schema_of(offered.member).columns(), name)
        }
        Point::NarrowsDropped | Point::ChangesFill => has_column(offered.joined.columns(), name),
    }
}

/// Whether a point speaks against the offer at a name.
fn refuses(
    alloc: Global,
    offered: &Offered<'_>,
    point: Point,
    name: &Name,
) -> Result<bool, AllocError>
    requires { offered.now.schemas.now ≡ slice_set offered.now.lock.now.schemas offered.now.member offered.now.schema.now }
    ensures { IfOk result (λ answer. answer ≡ refuses (offer_of offered.now) point name.now) }
{
    let before = offered.lock.joined().column(name);
    let after = offered.joined.column(name);
    match point {
        Point::ComesAgain => Ok(is_dropped(offered.lock.dropped(), offered.member, name)),
        Point::NarrowsDropped => Ok(narrows(before, after) && is_paired(offered.dropped, name)),
        Point::GainsOtherFill => {
            let own = offered.schema.column(name);
            Ok(!have_same_fill(alloc, own, before.or(after))?)
        }
        Point::ChangesFill => {
            if all_have(offered.schemas, name) {
                return Ok(false);
            }
            Ok(!have_same_fill(alloc, before, after)?)
        }
    }
}

fn stop_at(point: Point, column: Name) -> Stop
    ensures { result ≡ stop_at point column }
{
    match point {
        Point::ComesAgain | Point::NarrowsDropped => Stop::NotFullyDropped { column },
        Point::GainsOtherFill | Point::ChangesFill => Stop::FillDiffers { column },
    }
}
