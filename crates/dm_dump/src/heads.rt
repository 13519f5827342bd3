ghost use Rattle.std.specs.Prelude.{◌≡◌, IfOk};
ghost use Rattle.dm_dump.specs.Rows.{last_name, is_table, place_of_piece, has_whole_name, names_other, lacks_column, head_fault, order_in};

use crate::fault::{DumpCause, Fault};
use crate::order::{column_names, is_order};
use crate::role;
use dm_schema::Column;
use dm_syntax::names::{all_folded_with, name_of};
use dm_syntax::{Piece, first_with, has_role};
use dm_value::Name;
use std::alloc::{AllocError, Global};

/// The last part of the table's name.
fn last_name(unit: &[Piece]) -> Option<Piece>
    ensures { result ≡ last_name unit.now }
{
    let mut last = None;
    for piece in unit {
        if piece.role == role::NAME {
            last = Some(*piece);
        }
    }
    last
}

fn is_table(
    alloc: Global,
    text: &[u8],
    table: &Name,
    last: Option<Piece>,
) -> Result<bool, AllocError>
    ensures { IfOk result (λ same. same ≡ is_table text.now table.now last) }
{
    let Some(piece) = last else {
        return Ok(false);
    };
    let name = Name::new(name_of(alloc, text, &piece.token)?);
    Ok(name == *table)
}

fn place_of_piece(piece: Option<Piece>) -> u32
    ensures { result ≡ place_of_piece piece }
{
    match piece {
        Some(piece) => piece.token.from,
        None => 0,
    }
}

/// Whether the table's name is whole: something stands behind it.
fn has_whole_name(unit: &[Piece]) -> bool
    ensures { result ≡ has_whole_name unit.now }
{
    has_role(unit, role::NAMES_OPEN) || has_role(unit, role::VALUES)
}

fn names_other(alloc: Global, text: &[u8], table: &Name, unit: &[Piece]) -> Result<bool, AllocError>
    ensures { IfOk result (λ other. other ≡ names_other text.now table.now unit.now) }
{
    if has_whole_name(unit) {
        let same = is_table(alloc, text, table, last_name(unit))?;
        Ok(!same)
    } else {
        Ok(false)
    }
}

/// Whether a whole list of names hasn't every column once.
fn lacks_column(
    alloc: Global,
    text: &[u8],
    columns: &[Column],
    unit: &[Piece],
) -> Result<bool, AllocError>
    ensures { IfOk result (λ lacks. lacks ≡ lacks_column text.now columns.now unit.now) }
{
    if has_role(unit, role::NAMES_CLOSE) {
        let names = all_folded_with(alloc, text, unit, role::COLUMN)?;
        Ok(!is_order(columns, &names))
    } else {
        Ok(false)
    }
}

/// The fault of an INSERT's head.
pub fn head_fault(
    alloc: Global,
    text: &[u8],
    table: &Name,
    columns: &[Column],
    unit: &[Piece],
) -> Result<Option<Fault>, AllocError>
    ensures { IfOk result (λ fault. fault ≡ head_fault text.now table.now columns.now unit.now) }
{
    if names_other(alloc, text, table, unit)? {
        let at = place_of_piece(last_name(unit));
        let cause = DumpCause::Table;
        return Ok(Some(Fault { at, cause }));
    }
    if lacks_column(alloc, text, columns, unit)? {
        let at = place_of_piece(first_with(unit, role::NAMES_OPEN));
        let cause = DumpCause::Columns;
        return Ok(Some(Fault { at, cause }));
    }
    Ok(None)
}

/// The order of an INSERT's literals: the names of its whole list, or of the schema's columns.
pub fn order_in(
    alloc: Global,
    text: &[u8],
    columns: &[Column],
    unit: &[Piece],
) -> Result<Vec<Name>, AllocError>
    ensures { IfOk result (λ order. order.items ≡ order_in text.now columns.now unit.now) }
{
    if has_role(unit, role::NAMES_CLOSE) {
        all_folded_with(alloc, text, unit, role::COLUMN)
    } else {
        column_names(alloc, columns)
    }
}
