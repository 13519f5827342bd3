ghost use Rattle.std.specs.Prelude.{◌≡◌, [], IfOk, IsUtf8};
ghost use Rattle.dm_list.specs.Answer.{Answers};
ghost use Rattle.toml.specs.View.{view};
ghost use Rattle.dm_task.specs.Places.{path_of};
ghost use Rattle.dm_task.specs.Reading.{is_memory};
ghost use Rattle.dm_task.specs.Fields.{number_within, whole, source_name, name, pattern, file_name, kind};

use crate::kinds::kind_of;
use crate::place::{Place, refused};
use crate::texts::{is_file_name, is_name, is_source_name};
use crate::{TaskCause, TaskFault};
use dm_list::Bytes;
use dm_route::{EventKind, Pattern};
use dm_value::Name;
use std::alloc::Global;
use toml::Value;

/// A whole number that lies between two bounds.
pub(crate) fn whole(
    alloc: Global,
    place: Place<'_>,
    value: &Value,
    least: u32,
    greatest: u32,
) -> Result<u32, TaskFault>
    ensures { Answers is_memory result (whole least greatest (path_of place.entry) (view value.now)) }
{
    match value.as_integer() {
        None => refused(alloc, place, TaskCause::Kind),
        Some(number) => match number_within(number, least, greatest) {
            None => refused(alloc, place, TaskCause::Range),
            Some(number) => Ok(number),
        },
    }
}

fn number_within(number: i64, least: u32, greatest: u32) -> Option<u32>
    ensures { result ≡ number_within least greatest number }
{
    let number = u32::try_from(number).ok()?;
    if least <= number && number <= greatest {
        Some(number)
    } else {
        None
    }
}

pub(crate) fn source_name(
    alloc: Global,
    place: Place<'_>,
    value: &Value,
) -> Result<Bytes, TaskFault>
    ensures { Answers is_memory result (source_name (path_of place.entry) (view value.now)) }
{
    match value.as_str() {
        None => refused(alloc, place, TaskCause::Kind),
        Some(text) => {
            if is_source_name(text) {
                Ok(Bytes::new(text.as_bytes().to_vec(alloc)?))
            } else {
                refused(alloc, place, TaskCause::Range)
            }
        }
    }
}

pub(crate) fn name(alloc: Global, place: Place<'_>, value: &Value) -> Result<Name, TaskFault>
    ensures { Answers is_memory result (name (path_of place.entry) (view value.now)) }
{
    match value.as_str() {
        None => refused(alloc, place, TaskCause::Kind),
        Some(text) => {
            if is_name(text) {
                Ok(Name::new(text.as_bytes().to_vec(alloc)?))
            } else {
                refused(alloc, place, TaskCause::Range)
            }
        }
    }
}

pub(crate) fn pattern(alloc: Global, place: Place<'_>, value: &Value) -> Result<Pattern, TaskFault>
    ensures { Answers is_memory result (pattern (path_of place.entry) (view value.now)) }
{
    match value.as_str() {
        None => refused(alloc, place, TaskCause::Kind),
        Some(text) => {
            if is_name(text) {
                Ok(Pattern::new(alloc, text.as_bytes())?)
            } else {
                refused(alloc, place, TaskCause::Range)
            }
        }
    }
}

pub(crate) fn file_name(alloc: Global, place: Place<'_>, value: &Value) -> Result<Bytes, TaskFault>
    ensures value { Answers is_memory result (file_name [] (path_of place.entry) (view value.now)) }
    ensures text { IfOk result (λ name. IsUtf8 name) }
{
    match value.as_str() {
        None => refused(alloc, place, TaskCause::Kind),
        Some(text) => {
            if is_file_name(text) {
                Ok(Bytes::new(text.as_bytes().to_vec(alloc)?))
            } else {
                refused(alloc, place, TaskCause::Range)
            }
        }
    }
}

pub(crate) fn kind(alloc: Global, place: Place<'_>, value: &Value) -> Result<EventKind, TaskFault>
    ensures { Answers is_memory result (kind [] (path_of place.entry) (view value.now)) }
{
    match value.as_str() {
        None => refused(alloc, place, TaskCause::Kind),
        Some(text) => match kind_of(text.as_bytes()) {
            None => refused(alloc, place, TaskCause::Range),
            Some(kind) => Ok(kind),
        },
    }
}
