ghost use Rattle.std.specs.Prelude.{◌≡◌};
ghost use Rattle.std.specs.Option.{option_map};
ghost use Rattle.dm_base.specs.Reading.{Gives};
ghost use Rattle.dm_binlog.specs.Bodies.{closed, query, query_of};

use dm_base::Cursor;
use dm_list::Sequence;
use dm_value::Name;

/// The type code of a column in a table map, and its metadata: the first byte is the lower half.
#[derive(Clone, Copy, Debug, PartialEq, Eq)]
pub struct ColumnMap {
    pub code: u8,
    pub meta: u16,
}

/// What a table id stands for in the rows events behind it.
#[derive(Debug, Drop)]
pub struct TableMap {
    pub id: u64,
    pub db: Name,
    pub table: Name,
    pub columns: Sequence<ColumnMap>,
}

/// A statement and the database that it was written in.
#[derive(Clone, Copy, Debug)]
pub struct Query<'a> {
    pub db: &'a [u8],
    pub statement: &'a [u8],
}

/// What stands before the rows of a rows event.
#[derive(Clone, Copy, Debug, PartialEq, Eq)]
pub struct RowsHead {
    pub id: u64,
    /// How many columns the images have.
    pub count: u64,
    /// Whether each column is present, in both images of an update.
    pub full: bool,
    /// Where the rows begin in the body.
    pub rows: u32,
}

/// What stands there, where a 0 byte is behind it.
pub fn closed<'a>(value: &'a [u8], cursor: &mut Cursor<'_>) -> Option<&'a [u8]>
    ensures { Gives (closed value.now) cursor.old (option_map (λ p. p.now) result) cursor.new }
{
    if cursor.le(1)? == 0 {
        Some(value)
    } else {
        None
    }
}

/// The body of a QUERY_EVENT.
pub fn read_query(body: &[u8]) -> Option<Query<'_>>
    ensures { option_map (λ q. record { db = q.db.now; statement = q.statement.now }) result ≡ query_of body.now }
{
    let mut cursor = Cursor::new(body);
    let _thread = cursor.le(4)?;
    let _time = cursor.le(4)?;
    let db_length = cursor.le(1)?;
    let _error = cursor.le(2)?;
    let status_length = cursor.le(2)?;
    let _status = cursor.take(status_length)?;
    let name = cursor.take(db_length)?;
    let db = closed(name, &mut cursor)?;
    Some(Query {
        db,
        statement: cursor.left(),
    })
}
