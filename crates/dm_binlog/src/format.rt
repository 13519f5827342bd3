ghost use Rattle.std.specs.Prelude.{◌≡◌, ◌≤◌, ◌<◌, ◌+◌, ◌∷◌, ◌==◌, ◌||◌, [], length};
ghost use Rattle.std.specs.List.{list_all};
ghost use Rattle.dm_binlog.specs.Framing.{is_format, post_header_length, format_fault};

use crate::event::{
    DELETE_ROWS, DELETE_ROWS_V1, Event, FORMAT_DESCRIPTION, QUERY, SourceCause, TABLE_MAP,
    UPDATE_ROWS, UPDATE_ROWS_V1, WRITE_ROWS, WRITE_ROWS_V1,
};
use crate::front::HEADER_LENGTH;
use byteorder::{ByteOrder, LittleEndian};

/// How many bytes stand before the parts of varied length in bodies of a type.
fn post_header_length(body: &[u8], kind: u8) -> u8
    requires { 56 + kind < length body.now }
    ensures { result ≡ post_header_length body.now kind }
{
    body[56 + usize::from(kind)]
}

/// Whether rows events of version 1 are of the lengths that are read; 0 is a type that isn't written.
fn has_rows_v1(body: &[u8]) -> bool
    requires { 89 ≤ length body.now }
    ensures { result ≡ list_all (λ kind. post_header_length body.now kind == 8 || post_header_length body.now kind == 0) (23 ∷ 24 ∷ 25 ∷ []) }
{
    [WRITE_ROWS_V1, UPDATE_ROWS_V1, DELETE_ROWS_V1]
        .iter()
        .all(|kind| matches!(post_header_length(body, *kind), 8 | 0))
}

fn has_rows_v2(body: &[u8]) -> bool
    requires { 89 ≤ length body.now }
    ensures { result ≡ list_all (λ kind. post_header_length body.now kind == 10) (30 ∷ 31 ∷ 32 ∷ []) }
{
    post_header_length(body, WRITE_ROWS) == 10
        && post_header_length(body, UPDATE_ROWS) == 10
        && post_header_length(body, DELETE_ROWS) == 10
}

/// Whether a FORMAT_DESCRIPTION's body is of version 4, with the lengths that are read.
fn is_format(body: &[u8]) -> bool
    ensures { result ≡ is_format body.now }
{
    body.len() >= 94
        && LittleEndian::read_u16(&body[..2]) == 4
        && usize::from(body[56]) == HEADER_LENGTH
        && post_header_length(body, QUERY) == 13
        && post_header_length(body, TABLE_MAP) == 8
        && has_rows_v1(body)
        && has_rows_v2(body)
}

/// What is wrong with a file's first event.
pub fn format_fault(file: &[u8], event: Event) -> Option<SourceCause>
    requires whole { event.body ≤ event.end }
    requires within { event.end ≤ length file.now }
    ensures { result ≡ format_fault file.now event }
{
    let body = &file[event.body as usize..event.end as usize];
    if event.kind != FORMAT_DESCRIPTION {
        return Some(SourceCause::NoFormat);
    }
    if !is_format(body) {
        return Some(SourceCause::Format);
    }
    if body[body.len() - 5] != 0 {
        return Some(SourceCause::Checksum);
    }
    None
}
