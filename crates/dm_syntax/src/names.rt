ghost use Rattle.std.specs.Prelude.{◌≡◌, ◌==◌, IfOk, map};
ghost use Rattle.std.specs.List.{filter};
ghost use Rattle.dm_syntax.specs.Names.{unquoted, name_of, folded_name, folded_with, all_folded_with, name_with};

use crate::kinds::bytes_of;
use crate::piece::{Piece, first_with};
use crate::words::in_lower_case;
use dm_grammar::Role;
use dm_lex::{Token, TokenKind};
use dm_value::Name;
use std::alloc::{AllocError, Global};

/// What stands behind an opening backquote, up to the closing one: two backquotes stand for one.
pub fn unquoted(alloc: Global, bytes: &[u8]) -> Result<Vec<u8>, AllocError>
    ensures { IfOk result (λ name. name.items ≡ unquoted bytes.now) }
{
    let mut name = Vec::new(alloc);
    let mut rest = bytes;
    while let [first, _, ..] = rest {
        name.push(*first)?;
        rest = if *first == b'`' {
            &rest[2..]
        } else {
            &rest[1..]
        };
    }
    Ok(name)
}

/// The name that a token is.
pub fn name_of(alloc: Global, text: &[u8], token: &Token) -> Result<Vec<u8>, AllocError>
    ensures { IfOk result (λ name. name.items ≡ name_of text.now token.now) }
{
    let bytes = bytes_of(text, token);
    match (token.kind, bytes) {
        (TokenKind::Quoted, [_, behind @ ..]) => unquoted(alloc, behind),
        _ => bytes.to_vec(alloc),
    }
}

/// The name of a column or key that a piece is. Such names don't differ by case.
pub fn folded_name(alloc: Global, text: &[u8], piece: &Piece) -> Result<Name, AllocError>
    ensures { IfOk result (λ name. name ≡ folded_name text.now piece.now) }
{
    let name = name_of(alloc, text, &piece.token)?;
    Ok(Name::new(in_lower_case(alloc, &name)?))
}

/// The name of a column or key that the first piece of a role is; empty where there is none.
pub fn folded_with(
    alloc: Global,
    text: &[u8],
    pieces: &[Piece],
    role: Role,
) -> Result<Name, AllocError>
    ensures { IfOk result (λ name. name ≡ folded_with text.now role pieces.now) }
{
    match first_with(pieces, role) {
        Some(piece) => folded_name(alloc, text, &piece),
        None => Ok(Name::new(Vec::new(alloc))),
    }
}

/// The names that the pieces of a role are.
pub fn all_folded_with(
    alloc: Global,
    text: &[u8],
    pieces: &[Piece],
    role: Role,
) -> Result<Vec<Name>, AllocError>
    ensures { IfOk result (λ names. names.items ≡ all_folded_with text.now role pieces.now) }
{
    let mut names = Vec::new(alloc);
    for piece in pieces {
        if piece.role == role {
            names.push(folded_name(alloc, text, piece)?)?;
        }
    }
    Ok(names)
}

/// The name that the first piece of a role is, as it is written; empty where there is none.
pub fn name_with(
    alloc: Global,
    text: &[u8],
    pieces: &[Piece],
    role: Role,
) -> Result<Name, AllocError>
    ensures { IfOk result (λ name. name ≡ name_with text.now role pieces.now) }
{
    match first_with(pieces, role) {
        Some(piece) => Ok(Name::new(name_of(alloc, text, &piece.token)?)),
        None => Ok(Name::new(Vec::new(alloc))),
    }
}
