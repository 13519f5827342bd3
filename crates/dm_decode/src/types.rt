ghost use Rattle.std.specs.Prelude.{◌≡◌, ◌≤◌};
ghost use Rattle.dm_decode.specs.Types.{integer_code, first_byte, length_bits, real_type, string_length, is_string, goes_with, prefix_width};

use dm_binlog::ColumnMap;
use dm_schema::Kind;

/// MYSQL_TYPE_TINY, SHORT, INT24, LONG or LONGLONG, for an integer of so many bytes.
fn integer_code(size: u8) -> u8
    ensures { result ≡ integer_code size }
{
    match size {
        1 => 1,
        2 => 2,
        3 => 9,
        4 => 3,
        _ => 8,
    }
}

fn first_byte(meta: u16) -> u16
    ensures { result ≡ first_byte meta }
{
    meta % 256
}

fn length_bits(byte: u16) -> u16
    ensures bits { result ≡ length_bits byte }
    ensures few { result ≤ 3 }
{
    byte / 16 % 4
}

/// The type that MYSQL_TYPE_STRING's metadata give.
fn real_type(meta: u16) -> u16
    ensures { result ≡ real_type meta }
{
    let byte = first_byte(meta);
    byte + 16 * (3 - length_bits(byte))
}

/// The greatest length in bytes that MYSQL_TYPE_STRING's metadata give.
fn string_length(meta: u16) -> u16
    ensures { result ≡ string_length meta }
{
    meta / 256 + 256 * (3 - length_bits(first_byte(meta)))
}

fn is_string(map: ColumnMap) -> bool
    ensures { result ≡ is_string map }
{
    map.code == 254 && real_type(map.meta) == 254
}

/// Whether the type code and metadata of a table map are those of a kind.
pub fn goes_with(kind: Kind, map: ColumnMap) -> bool
    ensures { result ≡ goes_with kind map }
{
    match kind {
        Kind::Signed(size) | Kind::Unsigned(size) => map.code == integer_code(size),
        Kind::Decimal(precision, scale) => {
            map.code == 246 && map.meta == u16::from(precision) + 256 * u16::from(scale)
        }
        Kind::Char(_) | Kind::Binary(_) => is_string(map),
        Kind::Varchar(_) | Kind::Varbinary(_) => map.code == 15,
        Kind::Text(prefix) | Kind::Blob(prefix) => {
            map.code == 252 && map.meta == u16::from(prefix)
        }
        Kind::Date => map.code == 10,
        Kind::Year => map.code == 13,
        Kind::Datetime(digits) => map.code == 18 && map.meta == u16::from(digits),
        Kind::Timestamp(digits) => map.code == 17 && map.meta == u16::from(digits),
    }
}

/// The bytes of a length prefix before values of at most so many bytes.
fn prefix_width(most: u16) -> u8
    ensures { result ≡ prefix_width most }
{
    if most < 256 { 1 } else { 2 }
}

/// The bytes of the length prefix of CHAR and BINARY.
pub fn string_prefix(map: ColumnMap) -> u8
    ensures { result ≡ prefix_width (string_length map.meta) }
{
    prefix_width(string_length(map.meta))
}

/// The bytes of the length prefix of VARCHAR and VARBINARY.
pub fn varying_prefix(map: ColumnMap) -> u8
    ensures { result ≡ prefix_width map.meta }
{
    prefix_width(map.meta)
}
