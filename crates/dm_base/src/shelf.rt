ghost use Rattle.std.specs.Prelude.{◌≡◌, ◌≢◌, ◌+◌, ◌≤◌, ℕ, Option, vec_len, IfOk, IsErrOf};
ghost use Rattle.dm_base.specs.Outside.{Rose, Files, ReadsFile};
ghost use Rattle.dm_base.specs.declared.shelf.ShelfError.TheVariants.{Memory};

use std::alloc::{AllocError, AllocFailed, Global};

/// Why a file was not read.
#[derive(Clone, Copy, Debug, PartialEq, Eq)]
pub enum ShelfError {
    /// There is no file of that name.
    Missing,
    /// The file could not be read.
    Failed,
    /// There is no memory left to hold the bytes.
    Memory,
}

impl From<AllocError> for ShelfError {
    ghost from_gives = { λ _ e. e ≡ Memory };

    fn from(_: AllocError) -> ShelfError {
        ShelfError::Memory
    }
}

impl<T: Drop> From<AllocFailed<T>> for ShelfError {
    ghost from_gives = { λ _ e. e ≡ Memory };

    fn from(_: AllocFailed<T>) -> ShelfError {
        ShelfError::Memory
    }
}

/// Files that can be read by name.
///
/// `files` are the bytes of each file, where they are told. `faults` and `misses` count the reads that failed, and
/// those that found no file.
pub trait Shelf {
    ghost files: { Self → Option Files };

    ghost faults: { Self → ℕ };

    ghost misses: { Self → ℕ };

    /// The first `most + 1` bytes of the file, or all of it where it is shorter: a file of more than `most` bytes is
    /// known by that one byte more.
    fn read_file(&mut self, alloc: Global, name: &str, most: u32) -> Result<Vec<u8>, ShelfError>
        ensures read { ReadsFile (files self.old) name.now most result }
        ensures within { IfOk result (λ front. vec_len front ≤ most + 1) }
        ensures files { files self.new ≡ files self.old }

        ensures faults { faults self.old ≤ faults self.new }
        ensures failed { IsErrOf result ShelfError.Failed → Rose (faults self.old) (faults self.new) }

        ensures misses { misses self.old ≤ misses self.new }
        ensures missing { IsErrOf result ShelfError.Missing → Rose (misses self.old) (misses self.new) }
        ensures only_missing { result ≢ Err ShelfError.Missing → misses self.new ≡ misses self.old };
}
