ghost use Rattle.std.specs.Prelude.{[], map, IfOk, IsUtf8};
ghost use Rattle.std.specs.List.{flat_map, AllByRecursion};
ghost use Rattle.dm_list.specs.Answer.{Answers};
ghost use Rattle.toml.specs.View.{view, table_view};
ghost use Rattle.dm_task.specs.Places.{path_of};
ghost use Rattle.dm_task.specs.Reading.{is_memory, elements, elements_within, array, array_within, needed, optional};

use crate::keys::{Section, member};
use crate::place::{Place, path_of, refused};
use crate::texts::is_within;
use crate::values::{file_name, kind};
use crate::{TaskCause, TaskFault};
use dm_list::{Bytes, Sequence};
use dm_route::EventKind;
use std::alloc::Global;
use toml::Value;

/// What an element of an array says.
pub(crate) trait Element: Drop + Sized {
    ghost use Rattle.std.specs.Prelude.{List, ℕ, Result};
    ghost use Rattle.toml.specs.Data.{Data};
    ghost use Rattle.dm_task.specs.declared.fault.TaskFault.{TaskFault};

    /// What an element at a path says, behind what the elements before it say.
    ghost reads: { List Self → List ℕ → Data → Result Self TaskFault };

    /// The names of files that an element holds.
    ghost files: { Self → List (List ℕ) };

    fn read(
        alloc: Global,
        earlier: &[Self],
        place: Place<'_>,
        value: &Value,
    ) -> Result<Self, TaskFault>
        ensures value { Answers is_memory result (reads earlier.now (path_of place.entry) (view value.now)) }
        ensures texts { IfOk result (λ element. AllByRecursion IsUtf8 (files element)) };
}

impl Element for Bytes {
    ghost use Rattle.std.specs.Prelude.{[], ◌∷◌};
    ghost use Rattle.dm_task.specs.Fields.{file_name};

    ghost reads = { file_name };

    ghost files = { λ name. name ∷ [] };

    fn read(
        alloc: Global,
        _earlier: &[Bytes],
        place: Place<'_>,
        value: &Value,
    ) -> Result<Bytes, TaskFault> {
        file_name(alloc, place, value)
    }
}

impl Element for EventKind {
    ghost use Rattle.std.specs.Prelude.{[]};
    ghost use Rattle.dm_task.specs.Fields.{kind};

    ghost reads = { kind };

    ghost files = { λ _. [] };

    fn read(
        alloc: Global,
        _earlier: &[EventKind],
        place: Place<'_>,
        value: &Value,
    ) -> Result<EventKind, TaskFault> {
        kind(alloc, place, value)
    }
}

/// The elements in turn.
fn elements<T: Element>(
    alloc: Global,
    path: &[u8],
    values: &[Value],
) -> Result<Sequence<T>, TaskFault>
    ensures value { Answers is_memory result (elements T.reads path.now [] (map view values.now)) }
    ensures texts { IfOk result (λ list. AllByRecursion IsUtf8 (flat_map T.files list)) }
{
    let mut list = Vec::new(alloc);
    for value in values {
        let place = Place::Element {
            array: path,
            place: list.len() as u64,
        };
        let element = T::read(alloc, &list, place, value)?;
        list.push(element)?;
    }
    Ok(Sequence::new(list))
}

fn elements_at<T: Element>(
    alloc: Global,
    place: Place<'_>,
    values: &[Value],
) -> Result<Sequence<T>, TaskFault>
    ensures value { Answers is_memory result (elements T.reads (path_of place.entry) [] (map view values.now)) }
    ensures texts { IfOk result (λ list. AllByRecursion IsUtf8 (flat_map T.files list)) }
{
    let path = path_of(alloc, place)?;
    elements(alloc, path.as_slice(), values)
}

fn elements_within<T: Element>(
    alloc: Global,
    place: Place<'_>,
    values: &[Value],
    least: usize,
    greatest: usize,
) -> Result<Sequence<T>, TaskFault>
    ensures value { Answers is_memory result (elements_within least greatest T.reads (path_of place.entry) (map view values.now)) }
    ensures texts { IfOk result (λ list. AllByRecursion IsUtf8 (flat_map T.files list)) }
{
    if is_within(values.len(), least, greatest) {
        elements_at(alloc, place, values)
    } else {
        refused(alloc, place, TaskCause::Range)
    }
}

/// An array of any length.
#[tactic(auto, using(crate::proofs::Arrays::array_seen))]
pub(crate) fn array<T: Element>(
    alloc: Global,
    place: Place<'_>,
    value: &Value,
) -> Result<Sequence<T>, TaskFault>
    ensures value { Answers is_memory result (array T.reads (path_of place.entry) (view value.now)) }
    ensures texts { IfOk result (λ list. AllByRecursion IsUtf8 (flat_map T.files list)) }
{
    match value.as_array() {
        None => refused(alloc, place, TaskCause::Kind),
        Some(values) => elements_at(alloc, place, values.as_slice()),
    }
}

/// An array whose length lies between two bounds.
#[tactic(auto, using(crate::proofs::Arrays::array_seen))]
pub(crate) fn array_within<T: Element>(
    alloc: Global,
    place: Place<'_>,
    value: &Value,
    least: usize,
    greatest: usize,
) -> Result<Sequence<T>, TaskFault>
    ensures value { Answers is_memory result (array_within least greatest T.reads (path_of place.entry) (view value.now)) }
    ensures texts { IfOk result (λ list. AllByRecursion IsUtf8 (flat_map T.files list)) }
{
    match value.as_array() {
        None => refused(alloc, place, TaskCause::Kind),
        Some(values) => elements_within(alloc, place, values.as_slice(), least, greatest),
    }
}

/// The array at a key, whose length lies between two bounds.
pub(crate) fn needed_array<T: Element>(
    alloc: Global,
    section: Section<'_>,
    key: &str,
    least: usize,
    greatest: usize,
) -> Result<Sequence<T>, TaskFault>
    ensures value { Answers is_memory result (needed (array_within least greatest T.reads) key.now section.entry.path.now (table_view section.entry.table.now)) }
    ensures texts { IfOk result (λ list. AllByRecursion IsUtf8 (flat_map T.files list)) }
{
    match member(section.table, key) {
        None => refused(alloc, section.at(key), TaskCause::Absent),
        Some(value) => array_within(alloc, section.at(key), value, least, greatest),
    }
}

/// The array at a key, of a length up to a bound. Where the key is absent the array is empty.
pub(crate) fn array_or_none<T: Element>(
    alloc: Global,
    section: Section<'_>,
    key: &str,
    greatest: usize,
) -> Result<Sequence<T>, TaskFault>
    ensures value { Answers is_memory result (optional [] (array_within 0 greatest T.reads) key.now section.entry.path.now (table_view section.entry.table.now)) }
    ensures texts { IfOk result (λ list. AllByRecursion IsUtf8 (flat_map T.files list)) }
{
    match member(section.table, key) {
        None => Ok(Sequence::new(Vec::new(alloc))),
        Some(value) => array_within(alloc, section.at(key), value, 0, greatest),
    }
}
