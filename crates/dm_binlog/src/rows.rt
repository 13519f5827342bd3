ghost use Rattle.std.specs.Prelude.{◌≡◌, ◌≤◌, ◌<◌, ◌^◌, ◌*◌, ◌/◌, ◌&&◌, length};
ghost use Rattle.std.specs.Option.{option_map};
ghost use Rattle.dm_base.specs.Reading.{Gives, piece};
ghost use Rattle.dm_binlog.specs.Bodies.{all_set, bitmap_length, extra_data, is_set, is_rows_v1, is_rows_v2, is_update, rows_head_of, second_bitmap, version_of};

use crate::bodies::RowsHead;
use crate::event::{
    DELETE_ROWS, DELETE_ROWS_V1, UPDATE_ROWS, UPDATE_ROWS_V1, WRITE_ROWS, WRITE_ROWS_V1,
};
use dm_base::Cursor;

/// Whether a bit of a bitmap is set: bits count from the lowest of the first byte.
pub fn is_set(bitmap: &[u8], bit: u64) -> bool
    requires { bit / 8 < length bitmap.now }
    ensures { result ≡ is_set bitmap.now bit }
{
    (bitmap[(bit / 8) as usize] >> (bit % 8)) % 2 == 1
}

/// Whether the first bits are all set.
fn all_set(count: u64, bitmap: &[u8]) -> bool
    requires { count ≤ 8 * length bitmap.now }
    ensures { result ≡ all_set count bitmap.now }
{
    (0..count).all(|bit| is_set(bitmap, bit))
}

/// Whether each column is present in both images.
fn both_set(count: u64, present: &[u8], after: &[u8]) -> bool
    requires present { count ≤ 8 * length present.now }
    requires after { count ≤ 8 * length after.now }
    ensures { result ≡ (all_set count present.now && all_set count after.now) }
{
    all_set(count, present) && all_set(count, after)
}

/// How many bytes a bitmap with a bit for each column has.
pub fn bitmap_length(count: u64) -> u64
    ensures { result ≡ bitmap_length count }
{
    count.div_ceil(8)
}

/// Extra data, whose length counts its own two bytes.
fn extra_data<'a>(cursor: &mut Cursor<'a>) -> Option<&'a [u8]>
    ensures { Gives extra_data cursor.old (option_map (λ p. p.now) result) cursor.new }
{
    let length = cursor.le(2)?;
    if length < 2 {
        return None;
    }
    cursor.take(length - 2)
}

fn version_of<'a>(kind: u8, cursor: &mut Cursor<'a>) -> Option<&'a [u8]>
    ensures { Gives (version_of kind) cursor.old (option_map (λ p. p.now) result) cursor.new }
{
    match kind {
        WRITE_ROWS_V1 | UPDATE_ROWS_V1 | DELETE_ROWS_V1 => Some(&[]),
        WRITE_ROWS | UPDATE_ROWS | DELETE_ROWS => extra_data(cursor),
        _ => None,
    }
}

/// The present columns of an update's new image; of another event's only image.
fn second_bitmap<'a>(
    kind: u8,
    count: u64,
    first: &'a [u8],
    cursor: &mut Cursor<'a>,
) -> Option<&'a [u8]>
    ensures { Gives (second_bitmap kind count first.now) cursor.old (option_map (λ p. p.now) result) cursor.new }
{
    match kind {
        UPDATE_ROWS_V1 | UPDATE_ROWS => cursor.take(bitmap_length(count)),
        _ => Some(first),
    }
}

/// What stands before the rows in a rows event's body.
pub fn read_rows_head(kind: u8, body: &[u8]) -> Option<RowsHead>
    requires { length body.now < 2 ^ 32 }
    ensures { result ≡ rows_head_of kind body.now }
{
    let mut cursor = Cursor::new(body);
    let id = cursor.le(6)?;
    let _flags = cursor.le(2)?;
    let _extra = version_of(kind, &mut cursor)?;
    let count = cursor.lenenc()?;
    let present = cursor.take(bitmap_length(count))?;
    let after = second_bitmap(kind, count, present, &mut cursor)?;
    Some(RowsHead {
        id,
        count,
        full: both_set(count, present, after),
        rows: cursor.place() as u32,
    })
}
