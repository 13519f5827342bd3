ghost use Rattle.std.specs.Prelude.{◌≡◌};
ghost use Rattle.dm_schema.specs.KindOrder.{family_of, size_of, size_at_most, same_family, kind_at_most, comparable};

use crate::Kind;

/// Kinds that differ in size alone, or not at all.
#[derive(Clone, Copy, Debug, PartialEq, Eq)]
pub enum Family {
    Signed,
    Unsigned,
    Decimal,
    Char,
    Varchar,
    Text,
    Binary,
    Varbinary,
    Blob,
    Date,
    Year,
    Datetime,
    Timestamp,
}

/// Whether each value of the one kind is one of the other: the kinds are equal, or of one family that is ordered by
/// size. DECIMAL, BINARY, DATETIME and TIMESTAMP aren't ordered.
pub fn kind_at_most(low: Kind, high: Kind) -> bool
    ensures { result ≡ kind_at_most low high }
{
    low == high || same_family(low, high) && size_at_most(size_of(low), size_of(high))
}

/// Whether one kind is at most the other.
pub fn comparable(one: Kind, other: Kind) -> bool
    ensures { result ≡ comparable one other }
{
    kind_at_most(one, other) || kind_at_most(other, one)
}

pub fn same_family(one: Kind, other: Kind) -> bool
    ensures { result ≡ same_family one other }
{
    family_of(one) == family_of(other)
}

fn family_of(kind: Kind) -> Family
    ensures { result ≡ family_of kind }
{
    match kind {
        Kind::Signed(_) => Family::Signed,
        Kind::Unsigned(_) => Family::Unsigned,
        Kind::Decimal(..) => Family::Decimal,
        Kind::Char(_) => Family::Char,
        Kind::Varchar(_) => Family::Varchar,
        Kind::Text(_) => Family::Text,
        Kind::Binary(_) => Family::Binary,
        Kind::Varbinary(_) => Family::Varbinary,
        Kind::Blob(_) => Family::Blob,
        Kind::Date => Family::Date,
        Kind::Year => Family::Year,
        Kind::Datetime(_) => Family::Datetime,
        Kind::Timestamp(_) => Family::Timestamp,
    }
}

/// The size of a kind in a family that is ordered by size.
fn size_of(kind: Kind) -> Option<u16>
    ensures { result ≡ size_of kind }
{
    match kind {
        Kind::Signed(size) | Kind::Unsigned(size) => Some(u16::from(size)),
        Kind::Text(prefix) | Kind::Blob(prefix) => Some(u16::from(prefix)),
        Kind::Char(most) | Kind::Varchar(most) | Kind::Varbinary(most) => Some(most),
        Kind::Decimal(..)
        | Kind::Binary(_)
        | Kind::Date
        | Kind::Year
        | Kind::Datetime(_)
        | Kind::Timestamp(_) => None,
    }
}

fn size_at_most(low: Option<u16>, high: Option<u16>) -> bool
    ensures { result ≡ size_at_most low high }
{
    match (low, high) {
        (Some(low), Some(high)) => low <= high,
        _ => false,
    }
}
