ghost use Rattle.std.specs.Prelude.{◌≡◌, ◌≤◌, None, IsTrue};
ghost use Rattle.dm_schema.specs.Kinds.{is_kind};
ghost use Rattle.dm_syntax.specs.declared.role.TheConstants as role;
ghost use Rattle.dm_ddl.specs.Bounds.{number_or, excess_in};
ghost use Rattle.dm_ddl.specs.Types.{type_word, integer_kind, kind_of_word, kind_in};

use crate::bounds::number_or;
use dm_grammar::Kind as Terminal;
use dm_schema::Kind;
use dm_syntax::{Piece, first_with, has_role, role, terminal};

/// The kind of the column that an item defines, whose numbers are in range.
pub fn kind_in(text: &[u8], item: &[Piece]) -> Kind
    requires { excess_in text.now item.now ≡ None }
    ensures value { result ≡ kind_in text.now item.now }
    ensures kind { IsTrue (is_kind result) }
{
    kind_of_word(text, item, type_word(item))
}

/// The word of the type.
fn type_word(item: &[Piece]) -> Terminal
    ensures { result ≡ type_word item.now }
{
    match first_with(item, role::TYPE) {
        Some(piece) => piece.kind,
        None => terminal::TIMESTAMP,
    }
}

fn kind_of_word(text: &[u8], item: &[Piece], word: Terminal) -> Kind
    requires { excess_in text.now item.now ≡ None }
    ensures { result ≡ kind_of_word text.now item.now word }
{
    match word {
        terminal::TINYINT => integer_kind(1, item),
        terminal::SMALLINT => integer_kind(2, item),
        terminal::MEDIUMINT => integer_kind(3, item),
        terminal::INT => integer_kind(4, item),
        terminal::BIGINT => integer_kind(8, item),
        terminal::BOOL => Kind::Signed(1),
        terminal::DECIMAL => Kind::Decimal(precision_in(text, item), scale_in(text, item)),
        terminal::CHAR => Kind::Char(char_length(text, item)),
        terminal::BINARY => Kind::Binary(char_length(text, item)),
        terminal::VARCHAR => Kind::Varchar(string_length(text, item)),
        terminal::VARBINARY => Kind::Varbinary(string_length(text, item)),
        terminal::TINYTEXT => Kind::Text(1),
        terminal::TEXT => Kind::Text(2),
        terminal::MEDIUMTEXT => Kind::Text(3),
        terminal::LONGTEXT => Kind::Text(4),
        terminal::TINYBLOB => Kind::Blob(1),
        terminal::BLOB => Kind::Blob(2),
        terminal::MEDIUMBLOB => Kind::Blob(3),
        terminal::LONGBLOB => Kind::Blob(4),
        terminal::DATE => Kind::Date,
        terminal::YEAR => Kind::Year,
        terminal::DATETIME => Kind::Datetime(fraction_in(text, item)),
        _ => Kind::Timestamp(fraction_in(text, item)),
    }
}

/// An integer of so many bytes.
fn integer_kind(size: u8, item: &[Piece]) -> Kind
    ensures { result ≡ integer_kind size item.now }
{
    if has_role(item, role::UNSIGNED) {
        Kind::Unsigned(size)
    } else {
        Kind::Signed(size)
    }
}

fn precision_in(text: &[u8], item: &[Piece]) -> u8
    requires { excess_in text.now item.now ≡ None }
    ensures { result ≡ number_or text.now role.PRECISION 10 item.now }
{
    number_or(text, role::PRECISION, 10, item) as u8
}

fn scale_in(text: &[u8], item: &[Piece]) -> u8
    requires { excess_in text.now item.now ≡ None }
    ensures { result ≡ number_or text.now role.SCALE 0 item.now }
{
    number_or(text, role::SCALE, 0, item) as u8
}

fn char_length(text: &[u8], item: &[Piece]) -> u16
    requires { excess_in text.now item.now ≡ None }
    ensures { result ≡ number_or text.now role.CHAR_LENGTH 1 item.now }
{
    number_or(text, role::CHAR_LENGTH, 1, item) as u16
}

fn string_length(text: &[u8], item: &[Piece]) -> u16
    requires { excess_in text.now item.now ≡ None }
    ensures { result ≡ number_or text.now role.STRING_LENGTH 0 item.now }
{
    number_or(text, role::STRING_LENGTH, 0, item) as u16
}

fn fraction_in(text: &[u8], item: &[Piece]) -> u8
    requires { excess_in text.now item.now ≡ None }
    ensures { result ≡ number_or text.now role.FRACTION 0 item.now }
{
    number_or(text, role::FRACTION, 0, item) as u8
}
