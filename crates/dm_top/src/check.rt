ghost use Rattle.std.specs.Prelude.{◌≡◌, ◌≢◌, ◌<◌, ⊤, Err, length, IfSome, IfErr, IsErrAnd, MatchBool, IsTrue};
ghost use Rattle.std.specs.Str.{IsUtf8};
ghost use Rattle.dm_list.specs.Answer.{Answers};
ghost use Rattle.dm_base.specs.Outside.{Rose};
ghost use Rattle.dm_task.specs.TaskFile.{task_of};
ghost use Rattle.dm_top.specs.Top.{is_free, is_memory, is_missing, is_refusal, is_own, checked, checked_files, Checks};
ghost use Rattle.dm_top.specs.Reading.{named_of};

use crate::files::NamedFile;
use crate::load::files_or_end;
use dm_base::Shelf;
use dm_list::Bytes;
use dm_report::{Status, task_text};
use dm_task::{TaskFault, read_task};
use std::alloc::Global;

/// What `check-task` prints of the file of this name, or how it ends.
pub fn check_task<F: Shelf>(alloc: Global, shelf: &mut F, name: Bytes) -> Result<Bytes, Status>
    requires { IsUtf8 name }
    ensures told { IfSome (F.files shelf.old) (λ files. MatchBool (is_free result) ⊤ (Checks files name result)) }
    ensures refusal { IfErr result (λ s. IsTrue (is_refusal s)) }
    ensures usage { result ≢ Err Status.Usage }
    ensures target { result ≢ Err Status.TargetFault }
    ensures files { F.files shelf.new ≡ F.files shelf.old }
    ensures read { result ≡ Err Status.ReadFault → Rose (F.faults shelf.old) (F.faults shelf.new) }
    ensures missing { IsErrAnd result (λ s. IsTrue (is_missing s)) → Rose (F.misses shelf.old) (F.misses shelf.new) }
{
    let names = [name];
    match files_or_end(alloc, shelf, &names) {
        Ok(files) => checked_files(alloc, &files),
        Err(status) => Err(status),
    }
}

fn checked_files(alloc: Global, files: &[NamedFile]) -> Result<Bytes, Status>
    requires { 0 < length files.now }
    ensures checked { Answers is_memory result (checked_files (named_of files.now)) }
    ensures own { IfErr result (λ s. IsTrue (is_own s)) }
{
    checked(alloc, &files[0].bytes)
}

/// What is printed of a task file's text, or its first fault.
fn checked(alloc: Global, text: &[u8]) -> Result<Bytes, Status>
    ensures checked { Answers is_memory result (checked (task_of text.now)) }
    ensures own { IfErr result (λ s. IsTrue (is_own s)) }
{
    match read_task(alloc, text) {
        Ok(task) => Ok(task_text(alloc, &task)?),
        Err(TaskFault::At { path, cause }) => Err(Status::Task { path, cause }),
        Err(TaskFault::Memory) => Err(Status::Memory),
    }
}
