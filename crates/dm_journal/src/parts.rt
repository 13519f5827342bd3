ghost use Rattle.std.specs.Prelude.{◌≡◌, ◌+◌, ◌≤◌, None, length, IsErrOf};
ghost use Rattle.dm_base.specs.Outside.{Rose};
ghost use Rattle.dm_target.specs.Memory.{content_of};
ghost use Rattle.dm_journal.specs.Framing.{framed};
ghost use Rattle.dm_journal.specs.Journaled.{IsJournaled, IsRefusal, IsTextFor, Wrote, call_text, held, is_full, most_bytes};
ghost use Rattle.dm_journal.specs.Parts.{HasAppended};

use crate::doubt::Doubt;
use crate::framing::HEADER_SIZE;
use crate::pieces::framed;
use dm_base::Journal;
use dm_target::{Call, MemoryTarget, TargetError};
use http_server::Log;
use std::alloc::Global;

/// A journal has no more bytes.
pub(crate) const MOST_BYTES: usize = 268_435_456;

/// A journal, and what its records lead to.
#[derive(Drop)]
pub struct Parts<J> {
    pub journal: J,
    /// What the records lead to, that of a call in doubt among them.
    pub kept: MemoryTarget,
    /// The bytes of the records, without that of a call in doubt.
    pub size: usize,
    pub doubt: Option<Doubt>,
}

impl<J: Journal> Parts<J> {
    /// Makes a call, and writes the record that has this text.
    pub(crate) fn write(
        &mut self,
        alloc: Global,
        call: Call,
        text: &[u8],
    ) -> Result<(), TargetError>
        requires sound { self.old.doubt ≡ None }
        requires few { self.old.size ≤ most_bytes }
        requires text { text.now ≡ call_text (content_of self.old.kept) call }
        requires does { IsTextFor (content_of self.old.kept) call text.now }
        ensures wrote { Wrote (λ c. is_full self.old.size (call_text (content_of self.old.kept) c)) call (framed text.now) (J.bytes self.old.journal) (held (J.bytes self.old.journal) self.old.kept self.old.doubt) (J.bytes self.new.journal) self.new.kept self.new.doubt result }
        ensures journaled { IsJournaled (J.bytes self.old.journal) self.old.kept self.old.size self.old.doubt → IsJournaled (J.bytes self.new.journal) self.new.kept self.new.size self.new.doubt }
        ensures faults { J.faults self.old.journal ≤ J.faults self.new.journal }
        ensures failed { IsErrOf result TargetError.Failed → Rose (J.faults self.old.journal) (J.faults self.new.journal) }
    {
        if is_full(self.size, text) {
            return refusal(alloc, &self.kept, &call);
        }
        let piece = framed(alloc, text)?;
        let before = Log::new().and(&self.kept, &());
        self.kept.carry_out(alloc, call)?;
        self.append(before, &piece)
    }

    /// Appends a record to the journal.
    fn append(&mut self, before: Log<MemoryTarget, ()>, piece: &[u8]) -> Result<(), TargetError>
        requires sound { self.old.doubt ≡ None }
        requires few { self.old.size + length piece.now ≤ most_bytes }
        ensures appended { HasAppended before piece.now (J.bytes self.old.journal) self.old.size (J.bytes self.new.journal) self.new.size self.new.doubt result }
        ensures kept { self.new.kept ≡ self.old.kept }
        ensures faults { J.faults self.old.journal ≤ J.faults self.new.journal }
        ensures failed { IsErrOf result TargetError.Failed → Rose (J.faults self.old.journal) (J.faults self.new.journal) }
    {
        let whole = self.size + piece.len();
        match self.journal.append(piece) {
            Ok(()) => {
                self.size = whole;
                Ok(())
            }
            Err(_) => {
                self.doubt = Some(Doubt { before, whole });
                Err(TargetError::Failed)
            }
        }
    }
}

/// Whether a record with this text would make a journal of that size too long.
fn is_full(size: usize, text: &[u8]) -> bool
    requires { size ≤ most_bytes }
    ensures { result ≡ is_full size text.now }
{
    text.len() > MOST_BYTES || size + HEADER_SIZE + text.len() > MOST_BYTES
}

/// Why a call is not made that would make the journal too long: it has no effect, or there is no room.
fn refusal(alloc: Global, kept: &MemoryTarget, call: &Call) -> Result<(), TargetError>
    ensures { IsRefusal call.now (content_of kept.now) result }
{
    match kept.tried(alloc, call) {
        Ok(()) => Err(TargetError::Full),
        Err(error) => Err(error),
    }
}
