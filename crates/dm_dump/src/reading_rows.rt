ghost use Rattle.std.specs.Prelude.{◌≡◌, ◌<◌, ◌^◌, length, IfOk, IsTrue};
ghost use Rattle.std.specs.List.{list_all};
ghost use Rattle.dm_schema.specs.Kinds.{is_column};
ghost use Rattle.dm_dump.specs.Units.{units};
ghost use Rattle.dm_dump.specs.Outlines.{least, second_place, second_create};
ghost use Rattle.dm_dump.specs.Rows.{refused, gathered, unless_inserts, HasRows, are_readable};
ghost use Rattle.dm_dump.specs.Gatherings.{gathered_in};
ghost use Rattle.dm_dump.specs.Streams.{all_contents};
ghost use Rattle.dm_dump.specs.Dumps.{OrMemory};

use crate::fault::{DumpFault, Fault};
use crate::gathering::Gathering;
use crate::inserts::Inserts;
use crate::outline::{least, place_or, second_create};
use crate::unit::{Units, is_create};
use dm_schema::{Column, Schema};
use dm_value::Name;
use std::alloc::{AllocError, Global};

/// What was gathered of a whole dump, and why its reading ends, if it is for a fault: that or a second CREATE TABLE.
#[derive(Drop)]
struct WholeRead {
    rows: Gathering,
    ending: Option<Fault>,
}

/// The same as why a dump can't be read.
pub fn refused(fault: Fault) -> DumpFault
    ensures { result ≡ refused fault }
{
    DumpFault::At {
        at: fault.at,
        cause: fault.cause,
    }
}

fn gather(
    alloc: Global,
    text: &[u8],
    table: &Name,
    columns: &[Column],
) -> Result<WholeRead, AllocError>
    requires few { length text.now < 2 ^ 32 }
    requires columns { IsTrue (list_all is_column columns.now) }
    ensures rows { IfOk result (λ read.
        gathered_in read.rows ≡ gathered text.now table.now columns.now (units (all_contents text.now).pieces)) }
    ensures ending { IfOk result (λ read.
        read.ending ≡ least (second_create (second_place (units (all_contents text.now).pieces))) (all_contents text.now).ending) }
{
    let mut units = Units::new(alloc, text)?;
    let mut unit = Vec::new(alloc);
    let mut rows = Gathering::new(alloc);
    let mut created = false;
    let mut second = None;
    while units.next_unit(&mut unit)? {
        rows.add_unit(alloc, text, table, columns, &unit)?;
        let creates = is_create(&unit);
        second = place_or(second, creates && created, &unit);
        created = created || creates;
    }
    Ok(WholeRead {
        rows,
        ending: least(second_create(second), units.ending()),
    })
}

/// The rows of a dump's INSERTs into a table of this schema. The first CREATE TABLE is passed over. A fault is the one
/// of the least place: any but [`crate::DumpCause::NoCreate`] and [`crate::DumpCause::Create`].
pub fn read_rows(
    alloc: Global,
    text: &[u8],
    table: &Name,
    schema: &Schema,
) -> Result<Inserts, DumpFault>
    requires { length text.now < 2 ^ 32 }
    ensures says { OrMemory (HasRows text.now table.now schema.now) result }
    ensures readable { IfOk result (λ inserts. IsTrue (are_readable text.now schema.now inserts)) }
{
    let read = gather(alloc, text, table, schema.columns())?;
    let WholeRead { rows, ending } = read;
    unless_inserts(rows, ending)
}

/// The rows, unless there is a fault among them, or at the end.
fn unless_inserts(rows: Gathering, ending: Option<Fault>) -> Result<Inserts, DumpFault>
    ensures { result ≡ unless_inserts (gathered_in rows) ending }
{
    match least(rows.fault, ending) {
        Some(fault) => Err(refused(fault)),
        None => Ok(rows.into_inserts()),
    }
}
