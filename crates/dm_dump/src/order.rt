ghost use Rattle.std.specs.Prelude.{◌≡◌, IfOk, IsTrue};
ghost use Rattle.std.specs.Option.{option_map, option_copied};
ghost use Rattle.std.specs.List.{list_any, list_all};
ghost use Rattle.dm_schema.specs.Kinds.{is_column};
ghost use Rattle.dm_schema.specs.Names.{same_name, column_at, column_names};
ghost use Rattle.dm_schema.specs.Schemas.{names_repeat};
ghost use Rattle.dm_dump.specs.Orders.{is_order, columns_by, stand_so, in_schema_order, values_in, row_of};

use crate::literal::{has_bracket, literals_at, push_values};
use dm_list::Copied;
use dm_schema::{Column, Schema, all_columns, values_at};
use dm_value::{Name, Names, Row, Value};
use std::alloc::{AllocError, Global};

fn has_name(names: &[Name], name: &Name) -> bool
    ensures { result ≡ list_any (λ n. same_name name.now n) names.now }
{
    names.iter().any(|other| *name == *other)
}

fn names_repeat(names: &[Name]) -> bool
    ensures { result ≡ names_repeat names.now }
{
    match names {
        [] => false,
        [first, rest @ ..] => has_name(rest, first) || names_repeat(rest),
    }
}

/// Whether each column stands in the order once.
pub fn is_order(columns: &[Column], order: &[Name]) -> bool
    ensures { result ≡ is_order columns.now order.now }
{
    order.len() == columns.len() && all_columns(columns, order) && !names_repeat(order)
}

/// The names of columns.
pub fn column_names(alloc: Global, columns: &[Column]) -> Result<Vec<Name>, AllocError>
    ensures { IfOk result (λ names. names.items ≡ column_names columns.now) }
{
    let mut names = Vec::with_capacity(alloc, columns.len())?;
    for column in columns {
        names.push(column.name.copy(alloc)?)?;
    }
    Ok(names)
}

fn column_at<'a>(columns: &'a [Column], name: &Name) -> Option<&'a Column>
    ensures { option_copied result ≡ column_at columns.now name.now }
{
    columns.iter().find(|column| column.name == *name)
}

/// The columns of these names.
pub fn columns_by(
    alloc: Global,
    columns: &[Column],
    order: &[Name],
) -> Result<Vec<Column>, AllocError>
    requires { IsTrue (list_all is_column columns.now) }
    ensures columns { IfOk result (λ made. made.items ≡ columns_by columns.now order.now) }
    ensures formed { IfOk result (λ made. IsTrue (list_all is_column made.items)) }
{
    let mut made = Vec::with_capacity(alloc, order.len())?;
    for name in order {
        if let Some(column) = column_at(columns, name) {
            made.push(column.copy(alloc)?)?;
        }
    }
    Ok(made)
}

/// Whether columns stand in this order.
pub fn stand_so(columns: &[Column], order: &[Name]) -> bool
    ensures { result ≡ stand_so columns.now order.now }
{
    match columns {
        [] => order.is_empty(),
        [column, columns @ ..] => match order {
            [] => false,
            [name, order @ ..] => column.name == *name && stand_so(columns, order),
        },
    }
}

/// Values that stand in this order, in the order of the schema's columns.
fn in_schema_order(
    alloc: Global,
    columns: &[Column],
    order: &[Name],
    values: Vec<Value>,
) -> Result<Vec<Value>, AllocError>
    requires { IsTrue (list_all is_column columns.now) }
    ensures { IfOk result (λ all. all.items ≡ in_schema_order columns.now order.now values.items) }
{
    if stand_so(columns, order) {
        return Ok(values);
    }
    let ordered = columns_by(alloc, columns, order)?;
    let names = column_names(alloc, columns)?;
    values_at(alloc, &ordered, &values, &names)
}

/// The row whose bracket stands at a place, its literals in this order and its values in the order of the schema's
/// columns. `None` where the order hasn't each column once, where no bracket stands there, or where what stands behind
/// it isn't a literal for each column, with a value that the column can have. The closing bracket isn't looked for.
pub fn row_at(
    alloc: Global,
    text: &[u8],
    at: u32,
    order: &Names,
    schema: &Schema,
) -> Result<Option<Row>, AllocError>
    ensures { IfOk result (λ row. row ≡ row_of text.now at order.now schema.now) }
{
    match values_in(alloc, text, at, order.as_slice(), schema.columns())? {
        Some(values) => Ok(Some(Row::new(values))),
        None => Ok(None),
    }
}

/// The values of a row in the order of these columns.
fn values_in(
    alloc: Global,
    text: &[u8],
    at: u32,
    order: &[Name],
    columns: &[Column],
) -> Result<Option<Vec<Value>>, AllocError>
    requires { IsTrue (list_all is_column columns.now) }
    ensures { IfOk result (λ row. option_map (λ values. values.items) row ≡ values_in text.now at order.now columns.now) }
{
    if !(has_bracket(text, at) && is_order(columns, order)) {
        return Ok(None);
    }
    let literals = literals_at(alloc, text, at)?;
    let ordered = columns_by(alloc, columns, order)?;
    let mut values = Vec::with_capacity(alloc, ordered.len())?;
    if push_values(alloc, text, &ordered, &literals, &mut values)? {
        Ok(Some(in_schema_order(alloc, columns, order, values)?))
    } else {
        Ok(None)
    }
}
