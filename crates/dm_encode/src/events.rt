ghost use Rattle.std.specs.Prelude.{◌≡◌, ◌≤◌, ◌<◌, ◌+◌, ◌^◌, ◌++◌, length, Some, IfOk, OnOk, drop};
ghost use Rattle.dm_binlog.specs.Bodies.{query_of};
ghost use Rattle.dm_encode.specs.Events.{event, format_body, format_event, header, query_body, query_event};
ghost use Rattle.dm_encode.specs.ReadBack.{IsOnlyEvent, IsWholeEvent};

use crate::numbers::push_le;
use dm_binlog::{FORMAT_DESCRIPTION, QUERY};
use dm_value::Name;
use std::alloc::{AllocError, Global};

const HEADER_LENGTH: u8 = 19;

/// The format that is read: `fixed_length` of the types from 1 to 38.
const POST_HEADER_LENGTHS: [u8; 38] = [
    0, 13, 0, 0, 0, 0, 0, 0, 0, 0, 0, 0, 0, 0, 0, 0, 0, 0, 8, 0, 0, 0, 8, 8, 8, 0, 0, 0, 0, 10, 10,
    10, 0, 0, 0, 0, 0, 0,
];

fn push_header(bytes: &mut Vec<u8>, kind: u8, size: u64) -> Result<(), AllocError>
    ensures { OnOk result (bytes.new.items ≡ bytes.old.items ++ header kind size) }
{
    bytes.extend_from_slice(&[0; 4])?;
    bytes.push(kind)?;
    bytes.extend_from_slice(&[0; 4])?;
    push_le(bytes, 4, size)?;
    bytes.extend_from_slice(&[0; 6])
}

/// An event of a type, with this body.
pub fn event(alloc: Global, kind: u8, body: &[u8]) -> Result<Vec<u8>, AllocError>
    requires { length body.now + 19 < 2 ^ 32 }
    ensures value { IfOk result (λ bytes. bytes.items ≡ event kind body.now) }
    ensures whole { IfOk result (λ bytes. IsWholeEvent kind bytes.items) }
{
    let size = usize::from(HEADER_LENGTH) + body.len();
    let mut bytes = Vec::with_capacity(alloc, size)?;
    push_header(&mut bytes, kind, size as u64)?;
    bytes.extend_from_slice(body)?;
    Ok(bytes)
}

fn format_body(alloc: Global) -> Result<Vec<u8>, AllocError>
    ensures { IfOk result (λ bytes. bytes.items ≡ format_body) }
{
    let mut bytes = Vec::with_capacity(alloc, 100)?;
    push_le(&mut bytes, 2, 4)?;
    bytes.extend_from_slice(&[0; 54])?;
    bytes.push(HEADER_LENGTH)?;
    bytes.extend_from_slice(&POST_HEADER_LENGTHS)?;
    bytes.extend_from_slice(&[0; 5])?;
    Ok(bytes)
}

/// The FORMAT_DESCRIPTION_EVENT that a file begins with.
pub fn write_format(alloc: Global) -> Result<Vec<u8>, AllocError>
    ensures value { IfOk result (λ bytes. bytes.items ≡ format_event) }
    ensures read_back { IfOk result (λ bytes. IsOnlyEvent FORMAT_DESCRIPTION bytes.items) }
{
    let body = format_body(alloc)?;
    event(alloc, FORMAT_DESCRIPTION, &body)
}

fn query_body(alloc: Global, db: &[u8], statement: &[u8]) -> Result<Vec<u8>, AllocError>
    requires { length db.now ≤ 255 }
    ensures { IfOk result (λ bytes. bytes.items ≡ query_body db.now statement.now) }
{
    let mut bytes = Vec::new(alloc);
    bytes.extend_from_slice(&[0; 8])?;
    push_le(&mut bytes, 1, db.len() as u64)?;
    bytes.extend_from_slice(&[0; 4])?;
    bytes.extend_from_slice(db)?;
    bytes.push(0)?;
    bytes.extend_from_slice(statement)?;
    Ok(bytes)
}

/// The QUERY_EVENT of a statement that was written in this database.
pub fn write_query(alloc: Global, db: &Name, statement: &[u8]) -> Result<Vec<u8>, AllocError>
    requires db { length db.now ≤ 255 }
    requires size { length (query_event db.now statement.now) < 2 ^ 32 }
    ensures value { IfOk result (λ bytes. bytes.items ≡ query_event db.now statement.now) }
    ensures whole { IfOk result (λ bytes. IsWholeEvent QUERY bytes.items) }
    ensures read_back { IfOk result (λ bytes. query_of (drop 19 bytes.items) ≡ Some (record { db = db.now; statement = statement.now })) }
{
    let body = query_body(alloc, db.as_slice(), statement)?;
    event(alloc, QUERY, &body)
}
