ghost use Rattle.std.specs.Prelude.{◌≡◌, ◌<◌, ◌≤◌, ◌∷◌, ◌==◌, [], length, map, IfOk, IfSome, IfNone};
ghost use Rattle.std.specs.Option.{option_copied};
ghost use Rattle.std.specs.List.{list_any, position, position_or_len};
ghost use Rattle.dm_syntax.specs.Pieces.{pieces_of, first_with, has_role, begins, parts};

use dm_grammar::{Kind, Role};
use dm_lex::Token;
use std::alloc::{AllocError, Global};

/// A token of a statement, what the grammar sees of it, and what it is for.
#[derive(Clone, Copy, Debug, PartialEq, Eq)]
pub struct Piece {
    pub token: Token,
    pub kind: Kind,
    pub role: Role,
}

/// Each token with its terminal and its role.
pub fn pieces_of(
    alloc: Global,
    tokens: &[Token],
    kinds: &[Kind],
    roles: &[Role],
) -> Result<Vec<Piece>, AllocError>
    ensures { IfOk result (λ pieces. pieces.items ≡ pieces_of tokens.now kinds.now roles.now) }
{
    tokens
        .iter()
        .zip(kinds.iter().zip(roles))
        .map(|(token, (kind, role))| Piece {
            token: *token,
            kind: *kind,
            role: *role,
        })
        .collect(alloc)
}

fn find_with(pieces: &[Piece], role: Role) -> Option<&Piece>
    ensures { option_copied result ≡ first_with role pieces.now }
{
    pieces.iter().find(|piece| piece.role == role)
}

/// The first piece of a role.
pub fn first_with(pieces: &[Piece], role: Role) -> Option<Piece>
    ensures { result ≡ first_with role pieces.now }
{
    find_with(pieces, role).copied()
}

pub fn has_role(pieces: &[Piece], role: Role) -> bool
    ensures { result ≡ has_role role pieces.now }
{
    pieces.iter().any(|piece| piece.role == role)
}

/// Whether a part begins at the piece.
fn begins(piece: &Piece, roles: &[Role]) -> bool
    ensures { result ≡ begins roles.now piece.now }
{
    roles.contains(&piece.role)
}

/// Where the first part begins.
fn place_of_part(pieces: &[Piece], roles: &[Role]) -> Option<usize>
    ensures { result ≡ position (begins roles.now) pieces.now }
{
    pieces.iter().position(|piece| begins(piece, roles))
}

/// How many pieces stand before the first part.
fn count_before_part(pieces: &[Piece], roles: &[Role]) -> usize
    ensures count { result ≡ position_or_len (begins roles.now) pieces.now }
    ensures within { result ≤ length pieces.now }
{
    place_of_part(pieces, roles).unwrap_or(pieces.len())
}

/// The first part that begins at a piece of these roles, and what stands behind it.
pub fn next_part<'a>(pieces: &'a [Piece], roles: &[Role]) -> Option<(&'a [Piece], &'a [Piece])>
    ensures none { IfNone result (parts (begins roles.now) pieces.now ≡ []) }
    ensures some { IfSome result (λ split.
        parts (begins roles.now) pieces.now ≡ split.0.now ∷ parts (begins roles.now) split.1.now) }
    ensures shorter { IfSome result (λ split. length split.1.now < length pieces.now) }
{
    let from = count_before_part(pieces, roles);
    let (_, front) = pieces.split_at(from);
    let [_, behind @ ..] = front else {
        return None;
    };
    let len = 1 + count_before_part(behind, roles);
    Some(front.split_at(len))
}
