ghost use Rattle.std.specs.Prelude.{◌≡◌, IfOk};
ghost use Rattle.dm_list.specs.Answer.{Answers};
ghost use Rattle.dm_task.specs.Paths.{below, element};
ghost use Rattle.dm_task.specs.Places.{path_of};
ghost use Rattle.dm_task.specs.Reading.{refused, is_memory};

use crate::{TaskCause, TaskFault};
use dm_list::Bytes;
use std::alloc::{AllocError, Global};

/// Where a value stands, by the path of the table or the array that has it.
#[derive(Clone, Copy)]
pub(crate) enum Place<'a> {
    Key { table: &'a [u8], key: &'a str },
    /// Counted from 0.
    Element { array: &'a [u8], place: u64 },
}

/// The path of a place.
pub(crate) fn path_of(alloc: Global, place: Place<'_>) -> Result<Vec<u8>, AllocError>
    ensures { IfOk result (λ path. path.items ≡ path_of place.entry) }
{
    match place {
        Place::Key { table, key } => below(alloc, table, key),
        Place::Element { array, place } => element(alloc, array, place),
    }
}

fn below(alloc: Global, table: &[u8], key: &str) -> Result<Vec<u8>, AllocError>
    ensures { IfOk result (λ path. path.items ≡ below table.now key.now) }
{
    let mut path = Vec::new(alloc);
    if !table.is_empty() {
        path.extend_from_slice(table)?;
        path.push(b'.')?;
    }
    path.extend_from_slice(key.as_bytes())?;
    Ok(path)
}

fn element(alloc: Global, array: &[u8], place: u64) -> Result<Vec<u8>, AllocError>
    ensures { IfOk result (λ path. path.items ≡ element array.now place) }
{
    let digits = place.to_string(alloc)?;
    let mut path = Vec::new(alloc);
    path.extend_from_slice(array)?;
    path.push(b'[')?;
    path.extend_from_slice(digits.as_bytes())?;
    path.push(b']')?;
    Ok(path)
}

/// The fault at a place.
pub(crate) fn refused<T>(alloc: Global, place: Place<'_>, cause: TaskCause) -> Result<T, TaskFault>
    ensures { Answers is_memory result (refused (path_of place.entry) cause) }
{
    Err(TaskFault::At {
        path: Bytes::new(path_of(alloc, place)?),
        cause,
    })
}
