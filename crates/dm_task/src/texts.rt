ghost use Rattle.std.specs.Prelude.{◌≡◌, nat_le, count_by};
ghost use Rattle.std.specs.List.{list_all};
ghost use Rattle.std.specs.Fmt.{is_char_start, char_count};
ghost use Rattle.dm_schema.specs.Names.{same_name};
ghost use Rattle.dm_task.specs.Reading.{is_within};
ghost use Rattle.dm_task.specs.Texts.{is_plain, is_source_name, is_name, is_file_name, is_reserved, is_marked};

/// Whether a text has the form of a source's name.
pub(crate) fn is_source_name(text: &str) -> bool
    ensures { result ≡ is_source_name text.now }
{
    is_within(text.len(), 1, 32) && are_plain(text.as_bytes())
}

fn are_plain(bytes: &[u8]) -> bool
    ensures { result ≡ list_all is_plain bytes.now }
{
    bytes.iter().all(|byte| is_plain(*byte))
}

fn is_plain(byte: u8) -> bool
    ensures { result ≡ is_plain byte }
{
    b'a' <= byte && byte <= b'z' || b'0' <= byte && byte <= b'9' || byte == b'_' || byte == b'-'
}

/// Whether a text has the form of a name of a database or a table.
pub(crate) fn is_name(text: &str) -> bool
    ensures { result ≡ is_name text.now }
{
    is_within(characters(text.as_bytes()), 1, 64) && are_printed(text.as_bytes())
}

/// Whether no byte is a control character of ASCII below the blank.
fn are_printed(bytes: &[u8]) -> bool
    ensures { result ≡ list_all (nat_le 32) bytes.now }
{
    bytes.iter().all(|byte| 32 <= *byte)
}

pub(crate) fn is_within(number: usize, least: usize, greatest: usize) -> bool
    ensures { result ≡ is_within least greatest number }
{
    least <= number && number <= greatest
}

/// How many characters a text in UTF-8 has: its bytes that aren't continuation bytes.
fn characters(bytes: &[u8]) -> usize
    ensures { result ≡ char_count bytes.now }
{
    starts(bytes)
}

fn starts(bytes: &[u8]) -> usize
    ensures { result ≡ count_by is_char_start bytes.now }
{
    bytes
        .iter()
        .filter(|byte| **byte < 0x80 || 0xC0 <= **byte)
        .count()
}

pub(crate) fn is_file_name(text: &str) -> bool
    ensures { result ≡ is_file_name text.now }
{
    is_within(text.len(), 1, 255)
}

/// Whether the table of this name is the program's own, which holds what it has done.
pub(crate) fn is_reserved(db: &[u8], table: &[u8]) -> bool
    ensures { result ≡ is_reserved db.now table.now }
{
    same_text(db, b"dm_meta") && same_text(table, b"state")
}

pub(crate) fn same_text(text: &[u8], other: &[u8]) -> bool
    ensures { result ≡ same_name text.now other.now }
{
    text == other
}

/// Whether a text begins with the byte order mark of UTF-8.
pub(crate) fn is_marked(text: &[u8]) -> bool
    ensures { result ≡ is_marked text.now }
{
    text.starts_with(b"\xEF\xBB\xBF")
}
