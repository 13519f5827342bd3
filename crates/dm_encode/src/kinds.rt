ghost use Rattle.std.specs.Prelude.{◌≡◌, ◌≤◌, ◌<◌, ◌^◌, ◌++◌, IsTrue, OnOk};
ghost use Rattle.dm_schema.specs.Kinds.{is_kind};
ghost use Rattle.dm_decode.specs.Types.{integer_code, prefix_width, string_length};
ghost use Rattle.dm_binlog.specs.Bodies.{meta_width};
ghost use Rattle.dm_encode.specs.Kinds.{column_map, has_map, is_mapped, metadata_bytes, string_meta};

use crate::numbers::push_le;
use dm_binlog::{ColumnMap, type_code};
use dm_schema::Kind;
use std::alloc::AllocError;

/// MYSQL_TYPE_TINY, SHORT, INT24, LONG or LONGLONG, for an integer of so many bytes.
fn integer_code(size: u8) -> u8
    ensures { result ≡ integer_code size }
{
    match size {
        1 => 1,
        2 => 2,
        3 => 9,
        4 => 3,
        _ => 8,
    }
}

/// The metadata of MYSQL_TYPE_STRING, for at most so many bytes.
fn string_meta(most: u16) -> u16
    requires { most ≤ 1023 }
    ensures { result ≡ string_meta most }
{
    (254 - 16 * (most / 256)) + 256 * (most % 256)
}

/// What a table map has for a column of the kind.
pub fn column_map(kind: Kind) -> ColumnMap
    requires kind { IsTrue (is_kind kind) }
    requires most { IsTrue (has_map kind) }
    ensures value { result ≡ column_map kind }
    ensures small { result.meta < 2 ^ 16 }
{
    let (code, meta) = match kind {
        Kind::Signed(size) | Kind::Unsigned(size) => (integer_code(size), 0),
        Kind::Decimal(precision, scale) => (
            type_code::NEWDECIMAL,
            u16::from(precision) + 256 * u16::from(scale),
        ),
        Kind::Char(most) => (type_code::STRING, string_meta(4 * most)),
        Kind::Varchar(most) => (type_code::VARCHAR, 4 * most),
        Kind::Binary(size) => (type_code::STRING, string_meta(size)),
        Kind::Varbinary(most) => (type_code::VARCHAR, most),
        Kind::Text(prefix) | Kind::Blob(prefix) => (type_code::BLOB, u16::from(prefix)),
        Kind::Date => (10, 0),
        Kind::Year => (13, 0),
        Kind::Datetime(digits) => (type_code::DATETIME2, u16::from(digits)),
        Kind::Timestamp(digits) => (type_code::TIMESTAMP2, u16::from(digits)),
    };
    ColumnMap { code, meta }
}

/// How many bytes of metadata the code of a kind has.
fn meta_width(kind: Kind) -> u8
    ensures { result ≡ meta_width (column_map kind).code }
{
    match kind {
        Kind::Signed(_) | Kind::Unsigned(_) | Kind::Date | Kind::Year => 0,
        Kind::Text(_) | Kind::Blob(_) | Kind::Datetime(_) | Kind::Timestamp(_) => 1,
        _ => 2,
    }
}

/// Adds the metadata of a kind.
pub fn push_metadata(bytes: &mut Vec<u8>, kind: Kind) -> Result<(), AllocError>
    requires kind { IsTrue (is_kind kind) }
    requires most { IsTrue (has_map kind) }
    ensures value { OnOk result (bytes.new.items ≡ bytes.old.items ++ metadata_bytes (column_map kind)) }
    ensures mapped { IsTrue (is_mapped kind) }
{
    push_le(bytes, meta_width(kind), u64::from(column_map(kind).meta))
}
