ghost use Rattle.std.specs.Prelude.{◌≡◌, ◌<◌, [], ◌∷◌, ◌++◌, IsTrue, IfOk, OnOk};
ghost use Rattle.dm_files.specs.Files.{are_files, are_short};
ghost use Rattle.dm_gen.specs.Generated.{files, generated, source_files};

use crate::binlog::binlog;
use crate::dumps::{create_file, rows_file};
use crate::naming::{binlog_name, create_name, rows_name};
use crate::task::{SOURCES, task};
use dm_files::{Files, NamedFile};
use dm_list::Bytes;
use dm_task::Task;
use std::alloc::{AllocError, Global};

/// A task, and its files in its order.
#[derive(Debug, Drop)]
pub struct Generated {
    pub task: Task,
    pub files: Files,
}

/// Adds a file.
fn push_file(files: &mut Vec<NamedFile>, name: Bytes, bytes: Vec<u8>) -> Result<(), AllocError>
    ensures { OnOk result (files.new.items ≡ files.old.items ++ (record { name = name; bytes = bytes.items }) ∷ []) }
{
    files.push(NamedFile {
        name,
        bytes: Bytes::new(bytes),
    })?;
    Ok(())
}

/// Adds the files of a source.
fn push_source(
    alloc: Global,
    files: &mut Vec<NamedFile>,
    number: u32,
    source: u8,
) -> Result<(), AllocError>
    requires { source < 4 }
    ensures { OnOk result (files.new.items ≡ files.old.items ++ source_files number source) }
{
    push_file(
        files,
        binlog_name(alloc, source)?,
        binlog(alloc, number, source)?,
    )?;
    push_file(
        files,
        create_name(alloc, source)?,
        create_file(alloc, source)?,
    )?;
    push_file(files, rows_name(alloc, source)?, rows_file(alloc, source)?)?;
    Ok(())
}

fn files(alloc: Global, number: u32) -> Result<Files, AllocError>
    ensures { IfOk result (λ made. made ≡ files number) }
{
    let mut files = Vec::with_capacity(alloc, 12)?;
    for source in 0..SOURCES {
        push_source(alloc, &mut files, number, source)?;
    }
    Ok(Files::new(files))
}

/// The task and the files of a number. The task is the same for each.
pub fn generate(alloc: Global, number: u32) -> Result<Generated, AllocError>
    ensures value { IfOk result (λ made. made ≡ generated number) }
    ensures named { IfOk result (λ made. IsTrue (are_files made.task made.files)) }
    ensures short { IfOk result (λ made. IsTrue (are_short made.files)) }
{
    Ok(Generated {
        task: task(alloc)?,
        files: files(alloc, number)?,
    })
}
