ghost use Rattle.std.specs.Prelude.{◌≡◌, Some, IsTrue, IfOk};
ghost use Rattle.dm_schema.specs.Kinds.{is_kind, is_integer_size};
ghost use Rattle.dm_stmt_read.specs.Readers.{Reads};
ghost use Rattle.dm_stmt_read.specs.Columns.{in_brackets, fraction, integer_size, integer_kind, text_kind, blob_kind, decimal_kind, sized_kind, other_kind, any_kind, read_kind};

use crate::RecordFault;
use crate::left::Left;
use dm_schema::Kind;
use std::alloc::Global;

/// A number in brackets.
#[tactic(auto, unfolding(crate::specs::Columns::in_brackets))]
fn in_brackets(alloc: Global, left: &mut Left<'_>) -> Result<u16, RecordFault>
    ensures { Reads in_brackets left.old result left.new }
{
    left.expect(b"(")?;
    let number = left.number(alloc)?;
    left.expect(b")")?;
    Ok(number)
}

/// The digits of a fraction of seconds; 0 where none are written.
#[tactic(auto, unfolding(crate::specs::Columns::fraction))]
pub fn fraction(alloc: Global, left: &mut Left<'_>) -> Result<u8, RecordFault>
    ensures { Reads fraction left.old result left.new }
{
    if !left.accept(b"(") {
        return Ok(0);
    }
    let digits = left.small(alloc)?;
    left.expect(b")")?;
    Ok(digits)
}

/// The bytes of an integer type, if one stands there.
#[tactic(auto, unfolding(crate::specs::Columns::integer_size))]
fn integer_size(left: &mut Left<'_>) -> Option<u8>
    ensures { integer_size left.old ≡ Some (result, left.new) }
{
    if left.accept(b"TINYINT") {
        Some(1)
    } else if left.accept(b"SMALLINT") {
        Some(2)
    } else if left.accept(b"MEDIUMINT") {
        Some(3)
    } else if left.accept(b"INT") {
        Some(4)
    } else if left.accept(b"BIGINT") {
        Some(8)
    } else {
        None
    }
}

/// An integer type of so many bytes, behind its name.
#[tactic(auto, unfolding(crate::specs::Columns::integer_kind))]
fn integer_kind(left: &mut Left<'_>, size: u8) -> Kind
    ensures { integer_kind size left.old ≡ Some (result, left.new) }
{
    if left.accept(b" UNSIGNED") {
        Kind::Unsigned(size)
    } else {
        Kind::Signed(size)
    }
}

/// A text, by the bytes of its length prefix, if one stands there.
#[tactic(auto, unfolding(crate::specs::Columns::text_kind))]
fn text_kind(left: &mut Left<'_>) -> Option<Kind>
    ensures { text_kind left.old ≡ Some (result, left.new) }
{
    if left.accept(b"TINYTEXT") {
        Some(Kind::Text(1))
    } else if left.accept(b"TEXT") {
        Some(Kind::Text(2))
    } else if left.accept(b"MEDIUMTEXT") {
        Some(Kind::Text(3))
    } else if left.accept(b"LONGTEXT") {
        Some(Kind::Text(4))
    } else {
        None
    }
}

/// A blob, by the bytes of its length prefix, if one stands there.
#[tactic(auto, unfolding(crate::specs::Columns::blob_kind))]
fn blob_kind(left: &mut Left<'_>) -> Option<Kind>
    ensures { blob_kind left.old ≡ Some (result, left.new) }
{
    if left.accept(b"TINYBLOB") {
        Some(Kind::Blob(1))
    } else if left.accept(b"BLOB") {
        Some(Kind::Blob(2))
    } else if left.accept(b"MEDIUMBLOB") {
        Some(Kind::Blob(3))
    } else if left.accept(b"LONGBLOB") {
        Some(Kind::Blob(4))
    } else {
        None
    }
}

/// Precision and scale, behind the opening bracket.
#[tactic(auto, unfolding(crate::specs::Columns::decimal_kind))]
fn decimal_kind(alloc: Global, left: &mut Left<'_>) -> Result<Kind, RecordFault>
    ensures { Reads decimal_kind left.old result left.new }
{
    let precision = left.small(alloc)?;
    left.expect(b",")?;
    let scale = left.small(alloc)?;
    left.expect(b")")?;
    Ok(Kind::Decimal(precision, scale))
}

/// A kind with a length, if one stands there.
#[tactic(auto, unfolding(crate::specs::Columns::sized_kind))]
fn sized_kind(alloc: Global, left: &mut Left<'_>) -> Result<Option<Kind>, RecordFault>
    ensures { Reads sized_kind left.old result left.new }
{
    Ok(if left.accept(b"VARCHAR") {
        Some(Kind::Varchar(in_brackets(alloc, left)?))
    } else if left.accept(b"CHAR") {
        Some(Kind::Char(in_brackets(alloc, left)?))
    } else if left.accept(b"VARBINARY") {
        Some(Kind::Varbinary(in_brackets(alloc, left)?))
    } else if left.accept(b"BINARY") {
        Some(Kind::Binary(in_brackets(alloc, left)?))
    } else {
        None
    })
}

/// Any other kind.
#[tactic(auto, unfolding(crate::specs::Columns::other_kind))]
fn other_kind(alloc: Global, left: &mut Left<'_>) -> Result<Kind, RecordFault>
    ensures { Reads other_kind left.old result left.new }
{
    if left.accept(b"DECIMAL(") {
        return decimal_kind(alloc, left);
    }
    if left.accept(b"DATETIME") {
        return Ok(Kind::Datetime(fraction(alloc, left)?));
    }
    if left.accept(b"TIMESTAMP") {
        return Ok(Kind::Timestamp(fraction(alloc, left)?));
    }
    if left.accept(b"DATE") {
        return Ok(Kind::Date);
    }
    left.expect(b"YEAR")?;
    Ok(Kind::Year)
}

#[tactic(auto, unfolding(crate::specs::Columns::any_kind))]
fn any_kind(alloc: Global, left: &mut Left<'_>) -> Result<Kind, RecordFault>
    ensures { Reads any_kind left.old result left.new }
{
    if let Some(size) = integer_size(left) {
        return Ok(integer_kind(left, size));
    }
    if let Some(kind) = text_kind(left) {
        return Ok(kind);
    }
    if let Some(kind) = blob_kind(left) {
        return Ok(kind);
    }
    if let Some(kind) = sized_kind(alloc, left)? {
        return Ok(kind);
    }
    other_kind(alloc, left)
}

/// A kind whose numbers are in range.
#[tactic(auto, unfolding(crate::specs::Columns::read_kind))]
pub fn read_kind(alloc: Global, left: &mut Left<'_>) -> Result<Kind, RecordFault>
    ensures kind { Reads read_kind left.old result left.new }
    ensures in_range { IfOk result (λ k. IsTrue (is_kind k)) }
{
    let kind = any_kind(alloc, left)?;
    if is_kind(kind) {
        Ok(kind)
    } else {
        Err(RecordFault::NotRecord)
    }
}

fn is_integer_size(size: u8) -> bool
    ensures { result ≡ is_integer_size size }
{
    matches!(size, 1 | 2 | 3 | 4 | 8)
}

/// Whether a kind's numbers are in range.
pub fn is_kind(kind: Kind) -> bool
    ensures { result ≡ is_kind kind }
{
    match kind {
        Kind::Signed(size) | Kind::Unsigned(size) => is_integer_size(size),
        Kind::Decimal(precision, scale) => 1 <= precision && precision <= 38 && scale <= precision,
        Kind::Char(length) | Kind::Binary(length) => length <= 255,
        Kind::Text(prefix) | Kind::Blob(prefix) => 1 <= prefix && prefix <= 4,
        Kind::Datetime(digits) | Kind::Timestamp(digits) => digits <= 6,
        Kind::Varchar(_) | Kind::Varbinary(_) | Kind::Date | Kind::Year => true,
    }
}
