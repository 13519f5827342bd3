ghost use Rattle.std.specs.Prelude.{◌≡◌, ◌+◌, ◌≤◌, ◌⊎◌, ℕ, Option, List, vec_len, IfOk, OnOk, OnErr, IsErrOf, IsOkUnless};
ghost use Rattle.dm_base.specs.Outside.{Rose, added, AddsPart, cut_to, IsFront, IsWithin};
ghost use Rattle.dm_base.specs.declared.journal.JournalError.TheVariants.{Memory};

use std::alloc::{AllocError, AllocFailed, Global};

/// Why a journal was not loaded or written.
#[derive(Clone, Copy, Debug, PartialEq, Eq)]
pub enum JournalError {
    /// The journal could not be read or written.
    Failed,
    /// There is no memory left to hold the bytes that are loaded.
    Memory,
}

impl From<AllocError> for JournalError {
    ghost from_gives = { λ _ e. e ≡ Memory };

    fn from(_: AllocError) -> JournalError {
        JournalError::Memory
    }
}

impl<T: Drop> From<AllocFailed<T>> for JournalError {
    ghost from_gives = { λ _ e. e ≡ Memory };

    fn from(_: AllocFailed<T>) -> JournalError {
        JournalError::Memory
    }
}

/// Bytes that outlast the program. They grow at their end, and can be cut there.
///
/// `bytes` are those that it holds, where they are told. `faults` counts the calls that failed.
pub trait Journal {
    ghost bytes: { Self → Option (List ℕ) };

    ghost faults: { Self → ℕ };

    /// The first `most + 1` bytes, or all of them where there are fewer.
    fn load(&mut self, alloc: Global, most: u32) -> Result<Vec<u8>, JournalError>
        ensures front { IfOk result (λ front. IsFront (bytes self.old) most front.items) }
        ensures within { IfOk result (λ front. vec_len front ≤ most + 1) }
        ensures bytes { bytes self.new ≡ bytes self.old }

        ensures faults { faults self.old ≤ faults self.new }
        ensures failed { IsErrOf result JournalError.Failed → Rose (faults self.old) (faults self.new) };

    /// Adds the piece. An append that fails may have added some of the first bytes of it, or all.
    fn append(&mut self, piece: &[u8]) -> Result<(), JournalError>
        ensures added { OnOk result (bytes self.new ≡ added (bytes self.old) piece.now) }
        ensures part { OnErr result (AddsPart (bytes self.old) piece.now (bytes self.new)) }

        ensures faults { faults self.old ≤ faults self.new }
        ensures only_failed { IsOkUnless result JournalError.Failed }
        ensures failed { OnErr result (Rose (faults self.old) (faults self.new)) };

    /// Keeps the first `length` bytes. A cut that fails has done all of that, or nothing.
    fn cut(&mut self, length: u64) -> Result<(), JournalError>
        requires { IsWithin length (bytes self.old) }
        ensures cut { OnOk result (bytes self.new ≡ cut_to length (bytes self.old)) }
        ensures whole { OnErr result ((bytes self.new ≡ bytes self.old) ⊎ (bytes self.new ≡ cut_to length (bytes self.old))) }

        ensures faults { faults self.old ≤ faults self.new }
        ensures only_failed { IsOkUnless result JournalError.Failed }
        ensures failed { OnErr result (Rose (faults self.old) (faults self.new)) };
}
