ghost use Rattle.std.specs.Prelude.{◌≡◌, ◌<◌, ◌^◌, ◌∷◌, [], None, length, IfOk, IfSome, IsTrue, Option};
ghost use Rattle.std.specs.Option.{option_map};
ghost use Rattle.dm_lex.specs.Literals.{literal_of};
ghost use Rattle.dm_schema.specs.Kinds.{is_kind, is_column};
ghost use Rattle.dm_schema.specs.Effect.{is_among, rule_by};
ghost use Rattle.dm_ddl.specs.Bounds.{excess_in};
ghost use Rattle.dm_ddl.specs.Columns.{literal_in, last_default, rule_in, nullable_in, column_name, default_in, is_unfit, column_in, is_primary_column};

use crate::types::kind_in;
use dm_lex::{Token, literal};
use dm_schema::{Column, DefaultRule, Kind};
use dm_syntax::names::folded_with;
use dm_syntax::{Piece, bytes_of, first_with, has_role, next_part, role};
use dm_value::{Name, Value};
use std::alloc::{AllocError, Global};

/// The value that a token has for a kind, with a minus before it or without.
pub fn literal_of(
    alloc: Global,
    bytes: &[u8],
    token: &Token,
    minus: bool,
    kind: Kind,
) -> Result<Option<Value>, AllocError>
    requires few { length bytes.now < 2 ^ 32 }
    requires kind { IsTrue (is_kind kind) }
    ensures { IfOk result (λ value. value ≡ literal_of kind minus token.now.kind bytes.now) }
{
    let whole = Token {
        kind: token.kind,
        from: 0,
        to: bytes.len() as u32,
    };
    literal(alloc, bytes, &whole, minus, &kind)
}

/// The value that a literal has for a kind.
fn literal_in(
    alloc: Global,
    text: &[u8],
    kind: Kind,
    pieces: &[Piece],
) -> Result<Option<Value>, AllocError>
    requires few { length text.now < 2 ^ 32 }
    requires kind { IsTrue (is_kind kind) }
    ensures { IfOk result (λ value. value ≡ literal_in text.now kind pieces.now) }
{
    let Some(piece) = first_with(pieces, role::LITERAL) else {
        return Ok(None);
    };
    let bytes = bytes_of(text, &piece.token);
    literal_of(
        alloc,
        bytes,
        &piece.token,
        has_role(pieces, role::MINUS),
        kind,
    )
}

/// The last default of a column and what stands behind it.
fn last_default(item: &[Piece]) -> Option<&[Piece]>
    ensures { option_map (λ part. part.now) result ≡ last_default item.now }
{
    let mut last = None;
    let mut rest = item;
    while let Some((part, behind)) = next_part(rest, &[role::DEFAULT]) {
        last = Some(part);
        rest = behind;
    }
    last
}

/// The rule that a value gives a column that is nullable or not.
fn rule_by(nullable: bool, value: Option<Value>) -> Option<DefaultRule>
    ensures { result ≡ rule_by nullable value }
{
    match value? {
        Value::Null if nullable => Some(DefaultRule::Nothing),
        Value::Null => None,
        value => Some(DefaultRule::Const(value)),
    }
}

/// The rule of a default, if there is one; `None` where its literal is none of the column's values.
fn rule_in(
    alloc: Global,
    text: &[u8],
    kind: Kind,
    nullable: bool,
    item: &[Piece],
) -> Result<Option<DefaultRule>, AllocError>
    requires few { length text.now < 2 ^ 32 }
    requires kind { IsTrue (is_kind kind) }
    ensures { IfOk result (λ rule. rule ≡ rule_in text.now kind nullable (last_default item.now)) }
{
    match last_default(item) {
        None => Ok(Some(DefaultRule::Nothing)),
        Some(pieces) if has_role(pieces, role::NOW) => Ok(Some(DefaultRule::Now)),
        Some(pieces) => Ok(rule_by(nullable, literal_in(alloc, text, kind, pieces)?)),
    }
}

fn is_among(names: &[Name], name: &Name) -> bool
    ensures { result ≡ is_among names.now name.now }
{
    names.iter().any(|other| *other == *name)
}

/// Whether a column of this name is nullable, where these are the primary key's columns.
fn nullable_in(primary: &[Name], name: &Name, item: &[Piece]) -> bool
    ensures { result ≡ nullable_in primary.now name.now item.now }
{
    !has_role(item, role::AUTO_INCREMENT)
        && !has_role(item, role::NOT_NULL)
        && (has_role(item, role::NULL_WRITTEN) || !is_among(primary, name))
}

/// The name of the column that an item defines.
pub fn column_name(alloc: Global, text: &[u8], item: &[Piece]) -> Result<Name, AllocError>
    ensures { IfOk result (λ name. name ≡ column_name text.now item.now) }
{
    folded_with(alloc, text, item, role::COLUMN_NAME)
}

/// The rule of the column that an item defines; `None` where its default is none of its values.
fn default_in(
    alloc: Global,
    text: &[u8],
    primary: &[Name],
    item: &[Piece],
) -> Result<Option<DefaultRule>, AllocError>
    requires few { length text.now < 2 ^ 32 }
    requires bounds { excess_in text.now item.now ≡ None }
    ensures { IfOk result (λ rule. rule ≡ default_in text.now primary.now item.now) }
{
    let name = column_name(alloc, text, item)?;
    let nullable = nullable_in(primary, &name, item);
    rule_in(alloc, text, kind_in(text, item), nullable, item)
}

/// Whether an item defines a column whose default is none of its values.
pub fn is_unfit(
    alloc: Global,
    text: &[u8],
    primary: &[Name],
    item: &[Piece],
) -> Result<bool, AllocError>
    requires few { length text.now < 2 ^ 32 }
    requires bounds { excess_in text.now item.now ≡ None }
    ensures { IfOk result (λ unfit. unfit ≡ is_unfit text.now primary.now item.now) }
{
    if !has_role(item, role::COLUMN_NAME) {
        return Ok(false);
    }
    Ok(default_in(alloc, text, primary, item)?.is_none())
}

/// The column that an item defines, where these are the primary key's columns.
pub fn column_in(
    alloc: Global,
    text: &[u8],
    primary: &[Name],
    item: &[Piece],
) -> Result<Column, AllocError>
    requires few { length text.now < 2 ^ 32 }
    requires bounds { excess_in text.now item.now ≡ None }
    ensures value { IfOk result (λ column. column ≡ column_in text.now primary.now item.now) }
    ensures formed { IfOk result (λ column. IsTrue (is_column column)) }
{
    let name = column_name(alloc, text, item)?;
    let nullable = nullable_in(primary, &name, item);
    let rule = default_in(alloc, text, primary, item)?;
    Ok(Column {
        name,
        kind: kind_in(text, item),
        nullable,
        default_rule: rule.unwrap_or(DefaultRule::Nothing),
    })
}

/// Whether KEY makes the column that an item defines the primary key. Right behind UNIQUE it belongs to that.
pub fn is_primary_column(item: &[Piece]) -> bool
    ensures { result ≡ is_primary_column item.now }
{
    let mut behind_unique = false;
    for piece in item {
        if piece.role == role::KEY_COLUMN && !behind_unique {
            return true;
        }
        behind_unique = piece.role == role::UNIQUE_COLUMN;
    }
    false
}
