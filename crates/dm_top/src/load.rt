ghost use Rattle.std.specs.Prelude.{◌≡◌, ◌≢◌, ◌≤◌, ⊤, Err, length, All, IfSome, IfOk, IfErr, IsErrAnd, MatchBool, IsTrue};
ghost use Rattle.std.specs.Str.{IsUtf8};
ghost use Rattle.dm_base.specs.Outside.{Rose};
ghost use Rattle.dm_top.specs.Reading.{named_of};
ghost use Rattle.dm_top.specs.Top.{is_free, is_missing, is_refusal, is_own, FilesOrEnd, Merges, Loads};

use crate::files::{NamedFile, ReadFault, read_files};
use crate::limits::MOST_BYTES;
use crate::merge::merged_text;
use crate::sources::read_sources;
use dm_base::Shelf;
use dm_list::Bytes;
use dm_report::{Status, Which};
use std::alloc::Global;

/// The files of these names, or how a command ends at the first that isn't read.
pub fn files_or_end<F: Shelf>(
    alloc: Global,
    shelf: &mut F,
    names: &[Bytes],
) -> Result<Vec<NamedFile>, Status>
    requires { All IsUtf8 names.now }
    ensures told { IfSome (F.files shelf.old) (λ files. FilesOrEnd files names.now result) }
    ensures sizes { IfOk result (λ read. All (λ f. length f.bytes.items ≤ MOST_BYTES) read.items) }
    ensures count { IfOk result (λ read. length read.items ≡ length names.now) }
    ensures refusal { IfErr result (λ s. IsTrue (is_refusal s)) }
    ensures usage { result ≢ Err Status.Usage }
    ensures target { result ≢ Err Status.TargetFault }
    ensures files { F.files shelf.new ≡ F.files shelf.old }
    ensures read { result ≡ Err Status.ReadFault → Rose (F.faults shelf.old) (F.faults shelf.new) }
    ensures missing { IsErrAnd result (λ s. IsTrue (is_missing s)) → Rose (F.misses shelf.old) (F.misses shelf.new) }
{
    match read_files(alloc, shelf, names, MOST_BYTES) {
        Ok(files) => Ok(files),
        Err(ReadFault::Missing { name }) => Err(Status::Missing { name }),
        Err(ReadFault::TooLong) => Err(Status::Limit {
            which: Which::Files,
        }),
        Err(ReadFault::Failed) => Err(Status::ReadFault),
        Err(ReadFault::Memory) => Err(Status::Memory),
    }
}

/// What `load` prints of the files of these names, or how it ends.
pub fn load<F: Shelf>(alloc: Global, shelf: &mut F, names: &[Bytes]) -> Result<Bytes, Status>
    requires { All IsUtf8 names.now }
    ensures told { IfSome (F.files shelf.old) (λ files. MatchBool (is_free result) ⊤ (Loads files names.now result)) }
    ensures refusal { IfErr result (λ s. IsTrue (is_refusal s)) }
    ensures usage { result ≢ Err Status.Usage }
    ensures target { result ≢ Err Status.TargetFault }
    ensures files { F.files shelf.new ≡ F.files shelf.old }
    ensures read { result ≡ Err Status.ReadFault → Rose (F.faults shelf.old) (F.faults shelf.new) }
    ensures missing { IsErrAnd result (λ s. IsTrue (is_missing s)) → Rose (F.misses shelf.old) (F.misses shelf.new) }
{
    match files_or_end(alloc, shelf, names) {
        Ok(files) => merged(alloc, files),
        Err(status) => Err(status),
    }
}

/// What is printed of these files, or how `load` ends at them.
fn merged(alloc: Global, files: Vec<NamedFile>) -> Result<Bytes, Status>
    requires { All (λ f. length f.bytes.items ≤ MOST_BYTES) files.items }
    ensures merges { MatchBool (is_free result) ⊤ (Merges (named_of files.items) result) }
    ensures own { IfErr result (λ s. IsTrue (is_own s)) }
{
    match read_sources(alloc, files) {
        Ok(sources) => merged_text(alloc, &sources),
        Err(status) => Err(status),
    }
}
