ghost use Rattle.std.specs.Prelude.{◌≡◌, ◌≤◌, IsTrue, length};
ghost use Rattle.std.specs.List.{list_all};
ghost use Rattle.dm_schema.specs.Kinds.{is_between};
ghost use Rattle.dm_time.specs.Texts.{number_of};
ghost use Rattle.dm_journal.specs.Framing.{Begins};
ghost use Rattle.dm_journal.specs.Headers.{header_shape, stands_for, begins_as};

/// The bytes of a header.
pub(crate) const HEADER_SIZE: usize = 17;

/// A header, in which each `0` stands for a digit.
const HEADER_SHAPE: &[u8] = b"-- dm 0000000000\n";

/// What bytes of a journal begin with.
#[derive(Clone, Copy, Debug, PartialEq, Eq)]
pub enum Front {
    /// There are no bytes.
    End,
    /// A part of a record, as a write that broke off leaves it.
    Torn,
    /// A whole record, whose text has so many bytes. It stands behind the header's 17.
    Whole { size: usize },
    /// No record, and no part of one.
    Other,
}

/// What stands at the front of a journal's bytes.
pub fn front_of(bytes: &[u8]) -> Front
    ensures { Begins bytes.now result }
{
    if bytes.is_empty() {
        return Front::End;
    }
    if !begins_as_header(bytes) {
        return Front::Other;
    }
    if bytes.len() < HEADER_SIZE {
        return Front::Torn;
    }
    let size = number_of(&bytes[6..16]);
    if bytes.len() - HEADER_SIZE < size {
        Front::Torn
    } else {
        Front::Whole { size }
    }
}

/// Whether bytes are a header's, as far as they go, or have a header in front.
fn begins_as_header(bytes: &[u8]) -> bool
    ensures { result ≡ begins_as header_shape bytes.now }
{
    HEADER_SHAPE
        .iter()
        .zip(bytes)
        .all(|(sign, byte)| stands_for(*sign, *byte))
}

fn stands_for(sign: u8, byte: u8) -> bool
    ensures { result ≡ stands_for sign byte }
{
    match sign {
        b'0' => byte.is_ascii_digit(),
        _ => byte == sign,
    }
}

/// The number that up to ten digits write in base ten.
fn number_of(digits: &[u8]) -> usize
    requires all { IsTrue (list_all (is_between 48 57) digits.now) }
    requires few { length digits.now ≤ 10 }
    ensures value { result ≡ number_of digits.now }
{
    let mut number = 0;
    for digit in digits {
        number = 10 * number + usize::from(*digit - b'0');
    }
    number
}
