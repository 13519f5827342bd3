//! The histories of a task's shards, each source read beside the others.

ghost use Rattle.std.specs.Prelude.{◌≡◌, ℕ, ◌<◌, ◌≤◌, ◌^◌, ◌-◌, List, Result, length, map, min, slice_index_or, take, IfOk, IsTrue};
ghost use Rattle.std.specs.List.{flat_map};
ghost use Rattle.dm_list.specs.Answer.{Answers};
ghost use Rattle.dm_files.specs.Files.{are_files, are_short, files_of, source_files};
ghost use Rattle.dm_track.specs.declared.fault.BuildFault.{BuildFault};
ghost use Rattle.dm_track.specs.Builds.{Readings, AreReadings, inputs_of, is_memory, limited};
ghost use Rattle.dm_track.specs.Changes.{all_read};
ghost use Rattle.dm_track.specs.Histories.{History};
ghost use Rattle.dm_task.specs.Shards.{shards_of};
ghost use Rattle.dm_track.specs.Laws.{AreFew, AreOf};
ghost use Rattle.dm_track.specs.Steps.{all_parts, files_before, histories_at};

use crate::fault::BuildFault;
use crate::history::History;
use crate::inputs::{Inputs, inputs_of};
use crate::limits::within_limits;
use crate::source::source_histories;
use dm_files::{Files, NamedFile, source_count};
use dm_list::Sequence;
use dm_task::{Source, Task, targets};
use std::alloc::{AllocError, Global};
use std::marker::Sync;
use std::thread;
use std::thread::Threads;

/// How many files sources have; the largest number, where there are more.
fn files_count(sources: &[Source]) -> u64
    ensures { result ≡ min (length (flat_map source_files sources.now)) (2 ^ 64 - 1) }
{
    let mut count: u64 = 0;
    for source in sources {
        count = count.saturating_add(source_count(source));
    }
    count
}

fn front(sources: &[Source], count: usize) -> &[Source]
    ensures { result.now ≡ take count sources.now }
{
    &sources[..count.min(sources.len())]
}

/// How many files stand before those of the source of a number; the largest number, where there are more.
fn files_before(sources: &[Source], index: usize) -> u64
    ensures { result ≡ min (files_before index sources.now) (2 ^ 64 - 1) }
{
    files_count(front(sources, index))
}

/// The histories of the source of a number; none where there is no such source.
fn histories_at(
    alloc: Global,
    task: &Task,
    files: &[NamedFile],
    index: usize,
) -> Result<Sequence<History>, BuildFault>
    requires short { IsTrue (are_short files.now) }
    requires numbers { length (files_of task.now) ≤ 2 ^ 32 - 1 }
    ensures histories { (r : Readings) → AreReadings r → Answers is_memory result (histories_at r files.now task.now index) }
    ensures readable { IfOk result (λ histories. IsTrue (all_read files.now histories)) }
{
    let sources = task.sources.as_slice();
    match task.sources.get(index as u64) {
        Some(source) => {
            let number = files_before(sources, index) as u32;
            source_histories(alloc, files, &task.rules, source, number)
        }
        None => Ok(Sequence::new(Vec::new(alloc))),
    }
}

/// The histories of each source, or why there are none.
fn read_sources<R: Threads + Sync>(
    rt: &R,
    alloc: Global,
    task: &Task,
    files: &[NamedFile],
) -> Result<Vec<Result<Sequence<History>, BuildFault>>, AllocError>
    requires short { IsTrue (are_short files.now) }
    requires numbers { length (files_of task.now) ≤ 2 ^ 32 - 1 }
    ensures count { IfOk result (λ parts. length parts.items ≡ length task.now.sources) }
    ensures histories { IfOk result (λ parts. (i : ℕ) (d : Result (List History) BuildFault) → i < length task.now.sources
        → (r : Readings) → AreReadings r → Answers is_memory (slice_index_or parts.items i d) (histories_at r files.now task.now i)) }
    ensures readable { IfOk result (λ parts. (i : ℕ) (d : Result (List History) BuildFault) → i < length task.now.sources
        → IfOk (slice_index_or parts.items i d) (λ histories. IsTrue (all_read files.now histories))) }
{
    let count = task.sources.as_slice().len();
    thread::map_indices(
        rt,
        alloc,
        count,
        &|index| { histories_at(alloc, task, files, index) },
    )
}

/// All histories, source by source, or the first fault.
fn joined(
    alloc: Global,
    parts: Vec<Result<Sequence<History>, BuildFault>>,
) -> Result<Sequence<History>, BuildFault>
    ensures { Answers is_memory result (all_parts parts.items) }
{
    let mut all = Vec::new(alloc);
    for part in parts {
        match part {
            Ok(histories) => all.append(&mut histories.into_vec())?,
            Err(fault) => return Err(fault),
        }
    }
    Ok(Sequence::new(all))
}

/// All histories, unless there is a fault among them or they have too much together.
fn limited(
    alloc: Global,
    parts: Vec<Result<Sequence<History>, BuildFault>>,
) -> Result<Sequence<History>, BuildFault>
    ensures { Answers is_memory result (limited (all_parts parts.items)) }
{
    match joined(alloc, parts) {
        Ok(histories) => within_limits(histories),
        Err(fault) => Err(fault),
    }
}

/// Reads the dumps of a task's shards and walks over its sources' binlogs, each source beside the others. A fault of a
/// dump is the first by the shard's number; then comes that the histories have too many items, and then too many values.
pub fn build<R: Threads + Sync>(
    rt: &R,
    alloc: Global,
    task: Task,
    files: Files,
) -> Result<Inputs, BuildFault>
    requires names { IsTrue (are_files task files) }
    requires short { IsTrue (are_short files) }
    requires numbers { length files ≤ 2 ^ 32 - 1 }
    // What heads, statements and dumps say is the grammars'.
    ensures inputs { (r : Readings) → AreReadings r → Answers is_memory result (inputs_of r task files) }
    ensures exist { (r : Readings) × AreReadings r }
    ensures shards { IfOk result (λ inputs. AreOf (shards_of task) inputs.histories) }
    ensures few { IfOk result (λ inputs. AreFew inputs.histories) }
{
    let parts = read_sources(rt, alloc, &task, files.as_slice())?;
    match limited(alloc, parts) {
        Ok(histories) => {
            let tables = targets(alloc, &task)?;
            Ok(inputs_of(task, files, histories, Sequence::new(tables)))
        }
        Err(fault) => Err(fault),
    }
}
