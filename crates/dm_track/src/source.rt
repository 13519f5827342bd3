//! The histories of a source's shards.

ghost use Rattle.std.specs.Prelude.{◌≡◌, ◌+◌, ◌-◌, ◌^◌, ◌≤◌, length, map, IfOk, IsTrue};
ghost use Rattle.std.specs.List.{zip};
ghost use Rattle.dm_list.specs.Answer.{Answers};
ghost use Rattle.dm_files.specs.Files.{are_short, source_files};
ghost use Rattle.dm_track.specs.Builds.{Readings, AreReadings, is_memory, source_histories, source_log};
ghost use Rattle.dm_track.specs.Changes.{all_read};
ghost use Rattle.dm_track.specs.Steps.{finished, history_of};

use crate::beginning::{Beginning, HistoryHead};
use crate::fault::BuildFault;
use crate::history::{History, finished};
use crate::logs::log_files;
use crate::tables::read_tables;
use dm_files::NamedFile;
use dm_list::Sequence;
use dm_route::Rules;
use dm_task::Source;
use dm_walk::{Track, walk};
use std::alloc::{AllocError, Global};

/// Beginnings, taken apart.
#[derive(Drop)]
struct Parts {
    heads: Vec<HistoryHead>,
    tracks: Vec<Track>,
}

fn parts_of(alloc: Global, beginnings: Vec<Beginning>) -> Result<Parts, AllocError>
    ensures heads { IfOk result (λ parts. parts.heads.items ≡ map (λ b. b.head) beginnings.items) }
    ensures tracks { IfOk result (λ parts. parts.tracks.items ≡ map (λ b. b.track) beginnings.items) }
{
    let mut heads = Vec::new(alloc);
    let mut tracks = Vec::new(alloc);
    for Beginning { head, track } in beginnings {
        heads.push(head)?;
        tracks.push(track)?;
    }
    Ok(Parts { heads, tracks })
}

fn all_finished(
    alloc: Global,
    files: &[NamedFile],
    heads: Vec<HistoryHead>,
    tracks: Vec<Track>,
) -> Result<Vec<History>, AllocError>
    ensures { IfOk result (λ histories. histories.items ≡ map (λ p. finished (map (λ f. f.name) files.now) p.0 p.1) (zip heads.items tracks.items)) }
{
    let mut histories = Vec::new(alloc);
    let mut left = tracks.into_iter();
    for head in heads {
        match left.next() {
            Some(track) => histories.push(finished(alloc, files, head, track)?)?,
            None => return Ok(histories),
        }
    }
    Ok(histories)
}

/// Histories, as one walk over a source's binlogs adds to the rows of their dumps; the first binlog has this number.
fn walk_on(
    alloc: Global,
    files: &[NamedFile],
    rules: &Rules,
    source: &Source,
    number: u32,
    beginnings: Sequence<Beginning>,
) -> Result<Sequence<History>, AllocError>
    requires short { IsTrue (are_short files.now) }
    requires numbers { number + length source.now.binlogs ≤ 2 ^ 32 - 1 }
    ensures histories { IfOk result (λ histories. (r : Readings) → AreReadings r
        → histories ≡ map (history_of (map (λ f. f.name) files.now) r.dumps.statement rules.now (source_log r.heads files.now number source.now)) beginnings) }
{
    let parts = parts_of(alloc, beginnings.into_vec())?;
    let logs = log_files(alloc, files, number, source.binlogs.len() as u32)?;
    let walked = walk(alloc, rules, parts.tracks, &logs, source.start)?;
    Ok(Sequence::new(all_finished(alloc, files, parts.heads, walked)?))
}

/// The histories of a source's shards; its first file has this number.
pub fn source_histories(
    alloc: Global,
    files: &[NamedFile],
    rules: &Rules,
    source: &Source,
    number: u32,
) -> Result<Sequence<History>, BuildFault>
    requires short { IsTrue (are_short files.now) }
    requires numbers { number + length (source_files source.now) ≤ 2 ^ 32 - 1 }
    ensures histories { (r : Readings) → AreReadings r
        → Answers is_memory result (source_histories r files.now (map (λ f. f.name) files.now) rules.now number source.now) }
    ensures readable { IfOk result (λ histories. IsTrue (all_read files.now histories)) }
{
    let behind = number + source.binlogs.len() as u32;
    match read_tables(
        alloc,
        files,
        rules,
        &source.name,
        source.tables.as_slice(),
        behind,
    ) {
        Ok(beginnings) => Ok(walk_on(alloc, files, rules, source, number, beginnings)?),
        Err(fault) => Err(fault),
    }
}
