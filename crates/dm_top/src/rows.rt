ghost use Rattle.std.specs.Prelude.{◌≡◌, ◌++◌, map, IfOk, OnOk};
ghost use Rattle.dm_top.specs.Rows.{Orders, orders_at, row_under};
ghost use Rattle.dm_top.specs.Sources.{said_in};
ghost use Rattle.dm_top.specs.Places.{values_from};
ghost use Rattle.dm_top.specs.Merge.{orders_seen, wide_rows};

use crate::places::{Origin, column_origins};
use crate::sources::Source;
use dm_dump::{InsertOrder, row_at};
use dm_list::Copied;
use dm_schema::Schema;
use dm_value::{Names, Row, Value};
use std::alloc::{AllocError, Global};

/// Orders of columns: the one in force, and those still to come, each from its first row on.
#[derive(Clone, Copy)]
pub struct Orders<'a> {
    pub now: Option<&'a Names>,
    pub coming: &'a [InsertOrder],
}

impl<'a> Orders<'a> {
    /// The orders at a place.
    fn at(self, at: u32) -> Orders<'a>
        ensures { orders_seen result ≡ orders_at at (orders_seen self.entry) }
    {
        match self.coming {
            [next, coming @ ..] if next.first == at => Orders {
                now: Some(&next.order),
                coming,
            },
            _ => self,
        }
    }
}

/// A row with the values of the join's columns.
fn widened(alloc: Global, origins: &[Origin], row: &[Value]) -> Result<Row, AllocError>
    ensures { IfOk result (λ wide. wide ≡ values_from origins.now row.now) }
{
    let mut values = Vec::with_capacity(alloc, origins.len())?;
    for origin in origins {
        values.push(origin.value(row).copy(alloc)?)?;
    }
    Ok(Row::new(values))
}

/// Adds the row that stands at a place, as the join has it; none where the dump says none there.
fn push_row_at(
    alloc: Global,
    origins: &[Origin],
    rows: &mut Vec<Row>,
    source: &Source,
    orders: Orders,
    at: u32,
) -> Result<(), AllocError>
    ensures { OnOk result (rows.new.items ≡ rows.old.items ++ map (values_from origins.now) (row_under source.now.file.bytes.items source.now.dump.schema (orders_seen orders.entry) at)) }
{
    let Some(order) = orders.now else {
        return Ok(());
    };
    let row = row_at(alloc, &source.file.bytes, at, order, &source.dump.schema)?;
    if let Some(row) = row {
        rows.push(widened(alloc, origins, row.as_slice())?)?;
    }
    Ok(())
}

/// Adds the rows of a dump, as the join has them.
pub fn push_rows(
    alloc: Global,
    joined: &Schema,
    rows: &mut Vec<Row>,
    source: &Source,
) -> Result<(), AllocError>
    ensures { OnOk result (rows.new.items ≡ rows.old.items ++ wide_rows joined.now (said_in source.now)) }
{
    let origins = column_origins(alloc, joined.columns(), source.dump.schema.columns())?;
    let mut orders = Orders {
        now: None,
        coming: source.dump.inserts.orders.as_slice(),
    };
    for at in source.dump.inserts.places.as_slice() {
        orders = orders.at(*at);
        push_row_at(alloc, &origins, rows, source, orders, *at)?;
    }
    Ok(())
}
