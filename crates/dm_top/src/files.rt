ghost use Rattle.std.specs.Prelude.{◌≡◌, ◌≤◌, ◌+◌, ℕ, length, All, IfSome, IfOk, OnOk, IsErrOf};
ghost use Rattle.std.specs.Str.{IsUtf8};
ghost use Rattle.dm_base.specs.Outside.{Rose};
ghost use Rattle.dm_top.specs.Reading.{ReadsFile, ReadsNext, ReadsFiles, IsMissing};

use dm_base::{Shelf, ShelfError};
use dm_list::Bytes;
use std::alloc::{AllocError, AllocFailed, Global};

#[derive(Debug, Drop)]
pub struct NamedFile {
    pub name: Bytes,
    pub bytes: Vec<u8>,
}

#[derive(Debug, Drop)]
pub enum ReadFault {
    /// There is no file of the name.
    Missing { name: Bytes },
    /// The file is longer than the room that those before it left.
    TooLong,
    Failed,
    Memory,
}

impl From<AllocError> for ReadFault {
    ghost use Rattle.dm_top.specs.declared.files.ReadFault.TheVariants.{Memory};

    ghost from_gives = { λ _ e. e ≡ Memory };

    fn from(_: AllocError) -> ReadFault {
        ReadFault::Memory
    }
}

impl<T: Drop> From<AllocFailed<T>> for ReadFault {
    ghost use Rattle.dm_top.specs.declared.files.ReadFault.TheVariants.{Memory};

    ghost from_gives = { λ _ e. e ≡ Memory };

    fn from(_: AllocFailed<T>) -> ReadFault {
        ReadFault::Memory
    }
}

fn name_of(alloc: Global, name: &str) -> Result<Bytes, AllocError>
    ensures { IfOk result (λ copy. copy ≡ name.now) }
{
    Ok(Bytes::new(Vec::from_slice(alloc, name.as_bytes())?))
}

/// The file of a name, where it is no longer than the room.
pub fn read_file<F: Shelf>(
    alloc: Global,
    shelf: &mut F,
    name: &str,
    room: u32,
) -> Result<NamedFile, ReadFault>
    ensures told { IfSome (F.files shelf.old) (λ files. ReadsFile files room name.now result) }
    ensures room { IfOk result (λ file. length file.bytes.items ≤ room) }
    ensures files { F.files shelf.new ≡ F.files shelf.old }
    ensures faults { F.faults shelf.old ≤ F.faults shelf.new }
    ensures misses { F.misses shelf.old ≤ F.misses shelf.new }
    ensures failed { IsErrOf result ReadFault.Failed → Rose (F.faults shelf.old) (F.faults shelf.new) }
    ensures missing { IsMissing result → Rose (F.misses shelf.old) (F.misses shelf.new) }
{
    match shelf.read_file(alloc, name, room) {
        Ok(bytes) if bytes.len() > room as usize => Err(ReadFault::TooLong),
        Ok(bytes) => Ok(NamedFile {
            name: name_of(alloc, name)?,
            bytes,
        }),
        Err(ShelfError::Missing) => Err(ReadFault::Missing {
            name: name_of(alloc, name)?,
        }),
        Err(ShelfError::Failed) => Err(ReadFault::Failed),
        Err(ShelfError::Memory) => Err(ReadFault::Memory),
    }
}

/// Reads a further file, where it is no longer than the room; answers the room that is left behind it.
fn read_next<F: Shelf>(
    alloc: Global,
    shelf: &mut F,
    read: &mut Vec<NamedFile>,
    name: &Bytes,
    room: u32,
) -> Result<u32, ReadFault>
    requires { IsUtf8 name.now }
    ensures told { IfSome (F.files shelf.old) (λ files. ReadsNext files room name.now read.old.items read.new.items result) }
    ensures left { IfOk result (λ left. left ≤ room) }
    ensures sizes { OnOk result ((most : ℕ) → room ≤ most → All (λ f. length f.bytes.items ≤ most) read.old.items → All (λ f. length f.bytes.items ≤ most) read.new.items) }
    ensures count { OnOk result (length read.new.items ≡ length read.old.items + 1) }
    ensures files { F.files shelf.new ≡ F.files shelf.old }
    ensures faults { F.faults shelf.old ≤ F.faults shelf.new }
    ensures misses { F.misses shelf.old ≤ F.misses shelf.new }
    ensures failed { IsErrOf result ReadFault.Failed → Rose (F.faults shelf.old) (F.faults shelf.new) }
    ensures missing { IsMissing result → Rose (F.misses shelf.old) (F.misses shelf.new) }
{
    let file = read_file(alloc, shelf, text_of(name), room)?;
    let left = room - file.bytes.len() as u32;
    read.push(file)?;
    Ok(left)
}

/// The files of these names, in turn, as long as all of them together are no longer than the room.
pub fn read_files<F: Shelf>(
    alloc: Global,
    shelf: &mut F,
    names: &[Bytes],
    most: u32,
) -> Result<Vec<NamedFile>, ReadFault>
    requires { All IsUtf8 names.now }
    ensures told { IfSome (F.files shelf.old) (λ files. ReadsFiles files most names.now result) }
    ensures sizes { IfOk result (λ files. All (λ f. length f.bytes.items ≤ most) files.items) }
    ensures count { IfOk result (λ files. length files.items ≡ length names.now) }
    ensures files { F.files shelf.new ≡ F.files shelf.old }
    ensures faults { F.faults shelf.old ≤ F.faults shelf.new }
    ensures misses { F.misses shelf.old ≤ F.misses shelf.new }
    ensures failed { IsErrOf result ReadFault.Failed → Rose (F.faults shelf.old) (F.faults shelf.new) }
    ensures missing { IsMissing result → Rose (F.misses shelf.old) (F.misses shelf.new) }
{
    let mut read = Vec::with_capacity(alloc, names.len())?;
    let mut room = most;
    for name in names {
        room = read_next(alloc, shelf, &mut read, name, room)?;
    }
    Ok(read)
}

/// A name as the text that it is.
fn text_of(name: &Bytes) -> &str
    requires { IsUtf8 name.now }
    ensures { result.now ≡ name.now }
{
    str::from_utf8(name.as_slice()).unwrap()
}
