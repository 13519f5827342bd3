//! The binlogs of a source.

ghost use Rattle.std.specs.Prelude.{◌≡◌, ◌+◌, ◌-◌, ◌^◌, ◌≤◌, map, All, IfOk, IsTrue};
ghost use Rattle.std.specs.List.{range_with_len};
ghost use Rattle.dm_files.specs.Files.{are_short};
ghost use Rattle.dm_stream.specs.Views.{seen_file, IsShort};
ghost use Rattle.dm_track.specs.Builds.{log_file};

use dm_files::{NamedFile, bytes_of};
use dm_stream::LogFile;
use std::alloc::{AllocError, Global};

/// So many files from a number on.
pub fn log_files<'a>(
    alloc: Global,
    files: &'a [NamedFile],
    first: u32,
    count: u32,
) -> Result<Vec<LogFile<'a>>, AllocError>
    requires short { IsTrue (are_short files.now) }
    requires numbers { first + count ≤ 2 ^ 32 - 1 }
    ensures files { IfOk result (λ logs. map seen_file logs.items ≡ map (log_file files.now) (range_with_len first count)) }
    ensures short { IfOk result (λ logs. All IsShort logs.items) }
{
    let mut logs = Vec::new(alloc);
    for number in first..first + count {
        logs.push(LogFile {
            number,
            bytes: bytes_of(files, number),
        })?;
    }
    Ok(logs)
}
