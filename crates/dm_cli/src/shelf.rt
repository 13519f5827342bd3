ghost use Rattle.std.specs.Prelude.{◌≡◌, ◌≢◌, ◌+◌, ◌≤◌, ◌↔◌, None, vec_len, IfOk};
ghost use Rattle.std.specs.IoError.{error_kind};

use crate::front::read_front;
use dm_base::{Shelf, ShelfError};
use std::alloc::Global;
use std::fs::File;
use std::io;
use std::io::ErrorKind;
use std::rt::Files;

/// The files of the folder that the program runs in. What they hold is not told.
#[derive(Drop)]
pub struct FileShelf<'a, R: Files> {
    folder: &'a R,
    faults: u64,
    misses: u64,
}

impl<'a, R: Files> FileShelf<'a, R> {
    pub fn new(folder: &'a R) -> FileShelf<'a, R>
        ensures faults { result.faults ≡ 0 }
        ensures misses { result.misses ≡ 0 }
    {
        FileShelf {
            folder,
            faults: 0,
            misses: 0,
        }
    }
}

impl<'a, R: Files> Shelf for FileShelf<'a, R> {
    ghost files = { λ _. None };

    ghost faults = { λ shelf. shelf.faults };

    ghost misses = { λ shelf. shelf.misses };

    fn read_file(&mut self, alloc: Global, name: &str, most: u32) -> Result<Vec<u8>, ShelfError> {
        let read = read_named(self.folder, alloc, name, most);
        match &read {
            Err(ShelfError::Missing) => self.misses = self.misses.saturating_add(1),
            Err(ShelfError::Failed) => self.faults = self.faults.saturating_add(1),
            Ok(_) | Err(ShelfError::Memory) => {}
        }
        read
    }
}

fn read_named<R: Files>(
    folder: &R,
    alloc: Global,
    name: &str,
    most: u32,
) -> Result<Vec<u8>, ShelfError>
    ensures within { IfOk result (λ front. vec_len front ≤ most + 1) }
{
    let file = match File::open(folder, name) {
        Ok(file) => file,
        Err(error) if error.kind() == ErrorKind::NotFound => return Err(ShelfError::Missing),
        Err(error) => return Err(failure(&error)),
    };
    read_front(alloc, file, most).map_err(|error| failure(&error))
}

/// What an error is, of a file that is there.
fn failure(error: &io::Error) -> ShelfError
    ensures memory { (result ≡ ShelfError.Memory) ↔ (error_kind error.now ≡ ErrorKind.OutOfMemory) }
    ensures failed { (result ≡ ShelfError.Failed) ↔ (error_kind error.now ≢ ErrorKind.OutOfMemory) }
{
    match error.kind() {
        ErrorKind::OutOfMemory => ShelfError::Memory,
        _ => ShelfError::Failed,
    }
}
