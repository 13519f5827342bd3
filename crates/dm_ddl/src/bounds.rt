ghost use Rattle.std.specs.Prelude.{◌≡◌, ◌^◌, nat_lt, Some, None, if◌then◌else◌};
ghost use Rattle.std.specs.Option.{option_copied};
ghost use Rattle.std.specs.List.{find};
ghost use Rattle.dm_time.specs.Texts.{with_digit, number_of};
ghost use Rattle.dm_ddl.specs.Bounds.{number_in, number_or, is_in_range, is_out_of_range, excess_in, items_of, first_excess};

use dm_grammar::Role;
use dm_syntax::{Piece, bytes_of, first_with, next_part, role};

/// What a definition of a CREATE TABLE, a change of an ALTER TABLE or an index begins with.
pub const ITEM_ROLES: [Role; 12] = [
    role::DEFINITION,
    role::ADD,
    role::ADD_MORE,
    role::MODIFY,
    role::CHANGE,
    role::DROP,
    role::ALTER,
    role::RENAME,
    role::NO_EFFECT,
    role::UNIQUE_INDEX,
    role::PLAIN_INDEX,
    role::DROP_INDEX,
];

/// The number that ASCII digits write in base ten, if it has at most 64 bits.
fn number_of(digits: &[u8]) -> Option<u64>
    ensures { result ≡ (if nat_lt (number_of digits.now) (2 ^ 64) then Some (number_of digits.now) else None) }
{
    let mut number: u64 = 0;
    for digit in digits {
        number = with_digit(number, *digit)?;
    }
    Some(number)
}

/// A number with a further digit, if it has at most 64 bits.
fn with_digit(number: u64, digit: u8) -> Option<u64>
    ensures { result ≡ (if nat_lt (with_digit number digit) (2 ^ 64) then Some (with_digit number digit) else None) }
{
    let ones = u64::from(digit.saturating_sub(b'0'));
    number.checked_mul(10)?.checked_add(ones)
}

/// The number that a piece writes; the greatest of 64 bits for one that has more.
pub fn number_in(text: &[u8], piece: &Piece) -> u64
    ensures { result ≡ number_in text.now piece.now }
{
    match number_of(bytes_of(text, &piece.token)) {
        Some(number) => number,
        None => u64::MAX,
    }
}

/// The number of a role, or another where none is written.
pub fn number_or(text: &[u8], role: Role, other: u64, item: &[Piece]) -> u64
    ensures { result ≡ number_or text.now role other item.now }
{
    match first_with(item, role) {
        Some(piece) => number_in(text, &piece),
        None => other,
    }
}

/// Whether a number is in the range of its role, in an item of this precision.
fn is_in_range(precision: u64, role: Role, number: u64) -> bool
    ensures { result ≡ is_in_range precision role number }
{
    match role {
        role::CHAR_LENGTH => number <= 255,
        role::STRING_LENGTH => number <= 65_535,
        role::PRECISION => 1 <= number && number <= 38,
        role::SCALE => number <= precision,
        role::YEAR_WIDTH => number == 4,
        role::FRACTION | role::NOW_FRACTION => number <= 6,
        _ => true,
    }
}

/// Whether a piece's number is out of the range of its role.
fn is_out_of_range(text: &[u8], precision: u64, piece: &Piece) -> bool
    ensures { result ≡ is_out_of_range text.now precision piece.now }
{
    !is_in_range(precision, piece.role, number_in(text, piece))
}

/// The first piece of a definition or change whose number is out of range.
fn excess_in(text: &[u8], item: &[Piece]) -> Option<Piece>
    ensures { result ≡ excess_in text.now item.now }
{
    let precision = number_or(text, role::PRECISION, 10, item);
    find_excess(text, precision, item).copied()
}

fn find_excess<'a>(text: &[u8], precision: u64, item: &'a [Piece]) -> Option<&'a Piece>
    ensures { option_copied result ≡ find (is_out_of_range text.now precision) item.now }
{
    item.iter()
        .find(|piece| is_out_of_range(text, precision, piece))
}

/// The first piece of all definitions and changes whose number is out of range.
pub fn first_excess(text: &[u8], pieces: &[Piece]) -> Option<Piece>
    ensures { result ≡ first_excess text.now (items_of pieces.now) }
{
    let mut rest = pieces;
    while let Some((item, behind)) = next_part(rest, &ITEM_ROLES) {
        let excess = excess_in(text, item);
        if excess.is_some() {
            return excess;
        }
        rest = behind;
    }
    None
}
