ghost use Rattle.std.specs.Prelude.{◌≡◌, ◌+◌, ◌≤◌, None, vec_len, IfOk};
ghost use Rattle.dm_base.specs.Outside.{raised};

use crate::front::read_front;
use crate::sink::write_piece;
use dm_base::{Journal, JournalError};
use std::alloc::Global;
use std::fs::{File, OpenFile, OpenOptions};
use std::io;
use std::io::ErrorKind;
use std::rt::Files;

/// The file that holds the journal.
const NAME: &str = "dm.journal";

/// The journal in a file of the folder that the program runs in. What it holds is not told.
#[derive(Drop)]
pub struct FileJournal<'a, R: Files> {
    folder: &'a R,
    faults: u64,
}

impl<'a, R: Files> FileJournal<'a, R> {
    pub fn new(folder: &'a R) -> FileJournal<'a, R>
        ensures { result.faults ≡ 0 }
    {
        FileJournal { folder, faults: 0 }
    }

    fn count_fault(&mut self) -> JournalError
        ensures failed { result ≡ JournalError.Failed }
        ensures counted { self.new.faults ≡ raised self.old.faults }
        ensures faults { self.old.faults ≤ self.new.faults }
    {
        self.faults = self.faults.saturating_add(1);
        JournalError::Failed
    }
}

impl<'a, R: Files> Journal for FileJournal<'a, R> {
    ghost bytes = { λ _. None };

    ghost faults = { λ journal. journal.faults };

    /// A file that isn't there holds no bytes.
    fn load(&mut self, alloc: Global, most: u32) -> Result<Vec<u8>, JournalError> {
        match load(self.folder, alloc, most) {
            Ok(front) => Ok(front),
            Err(error) if error.kind() == ErrorKind::OutOfMemory => Err(JournalError::Memory),
            Err(_) => Err(self.count_fault()),
        }
    }

    fn append(&mut self, piece: &[u8]) -> Result<(), JournalError> {
        match append(self.folder, piece) {
            Ok(()) => Ok(()),
            Err(_) => Err(self.count_fault()),
        }
    }

    fn cut(&mut self, length: u64) -> Result<(), JournalError> {
        match cut(self.folder, length) {
            Ok(()) => Ok(()),
            Err(_) => Err(self.count_fault()),
        }
    }
}

fn load<R: Files>(folder: &R, alloc: Global, most: u32) -> io::Result<Vec<u8>>
    ensures { IfOk result (λ front. vec_len front ≤ most + 1) }
{
    match File::open(folder, NAME) {
        Ok(file) => read_front(alloc, file, most),
        Err(error) if error.kind() == ErrorKind::NotFound => Ok(Vec::new(alloc)),
        Err(error) => Err(error),
    }
}

/// Returns once the piece is on the disk.
fn append<R: Files>(folder: &R, piece: &[u8]) -> io::Result<()> {
    let mut options = OpenOptions::new();
    options.append(true).create(true);
    let mut file = options.open(folder, NAME)?;
    write_piece(&mut file, piece)?;
    file.sync_all()
}

/// Makes the file no longer than it is: one that is shorter than that is left as it is, and the cut fails.
fn cut<R: Files>(folder: &R, length: u64) -> io::Result<()> {
    let mut options = OpenOptions::new();
    options.write(true).create(true);
    let file = options.open(folder, NAME)?;
    if file.metadata()?.len() < length {
        return Err(io::Error::from(ErrorKind::InvalidInput));
    }
    file.set_len(length)?;
    file.sync_all()
}
