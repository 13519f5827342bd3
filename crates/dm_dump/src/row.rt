ghost use Rattle.std.specs.Prelude.{◌≡◌, ◌<◌, ◌^◌, length, IfOk, IsTrue};
ghost use Rattle.std.specs.List.{list_all};
ghost use Rattle.dm_schema.specs.Kinds.{is_column};
ghost use Rattle.dm_dump.specs.Rows.{unfit, row_fault, orders_with};

use crate::fault::{DumpCause, Fault};
use crate::inserts::InsertOrder;
use crate::literal::{first_unfit, literals_at};
use crate::order::column_names;
use dm_schema::Column;
use dm_value::Names;
use std::alloc::{AllocError, Global};

fn unfit(place: Option<u32>) -> Option<Fault>
    ensures { result ≡ unfit place }
{
    Some(Fault {
        at: place?,
        cause: DumpCause::Unfit,
    })
}

/// The fault of the row whose bracket stands at a place: of a whole row that its literals are too few or too many, or
/// else that one has no value that its column can have.
pub fn row_fault(
    alloc: Global,
    text: &[u8],
    at: u32,
    closed: bool,
    columns: &[Column],
) -> Result<Option<Fault>, AllocError>
    requires few { length text.now < 2 ^ 32 }
    requires columns { IsTrue (list_all is_column columns.now) }
    ensures { IfOk result (λ fault. fault ≡ row_fault text.now at closed columns.now) }
{
    let literals = literals_at(alloc, text, at)?;
    if closed && literals.len() != columns.len() {
        let cause = DumpCause::Count;
        return Ok(Some(Fault { at, cause }));
    }
    let place = first_unfit(alloc, text, columns, &literals)?;
    Ok(unfit(place))
}

/// Puts the order of columns behind others, if no row has it so far.
pub fn push_order(
    alloc: Global,
    orders: &mut Vec<InsertOrder>,
    is_new: bool,
    first: u32,
    columns: &[Column],
) -> Result<(), AllocError>
    ensures { IfOk result (λ _. orders.new.items ≡ orders_with orders.old.items is_new first columns.now) }
{
    if !is_new {
        return Ok(());
    }
    let order = Names::new(column_names(alloc, columns)?);
    orders.push(InsertOrder { first, order })?;
    Ok(())
}
