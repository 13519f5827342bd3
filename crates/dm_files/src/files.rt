ghost use Rattle.std.specs.Prelude.{◌≡◌};
ghost use Rattle.dm_files.specs.Files.{bytes_of, are_short};

use dm_list::{Bytes, Sequence};

/// Places in a file have 32 bits.
const MOST_BYTES: u64 = 0x1_0000_0000;

/// A file: its name and what it holds.
#[derive(Debug, Drop)]
pub struct NamedFile {
    pub name: Bytes,
    pub bytes: Bytes,
}

/// The files of a task, one for each name that stands in it, in its order: source by source, in each its binlogs and then
/// table by table the file of the CREATE TABLE and those of the rows. A file's number is its place here.
pub type Files = Sequence<NamedFile>;

/// The bytes of the file of a number; none where there is no such file.
pub fn bytes_of(files: &[NamedFile], number: u32) -> &[u8]
    ensures { result.now ≡ bytes_of files.now number }
{
    match files.get(number as usize) {
        Some(file) => file.bytes.as_slice(),
        None => &[],
    }
}

/// Whether places in each file have 32 bits.
pub fn are_short(files: &[NamedFile]) -> bool
    ensures { result ≡ are_short files.now }
{
    files.iter().all(|file| file.bytes.len() < MOST_BYTES)
}
