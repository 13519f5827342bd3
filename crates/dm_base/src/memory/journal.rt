ghost use Rattle.std.specs.Prelude.{◌≡◌, ◌+◌, ◌≤◌, ◌⊎◌, ◌↔◌, ◌++◌, Some, vec_len, vec_capacity, IfOk, IsTrue, IsErr, IsErrOf, IsOkUnless, OnOk, OnErr};
ghost use Rattle.dm_base.specs.Outside.{AddsPart, IsFront, IsWithin};
ghost use Rattle.dm_base.specs.Memory.{is_to_fail, load_after, append_counted, part_kept, AddsOrLacksRoom, LacksRoom, cut_after};

use crate::memory::calls::Calls;
use crate::memory::front::{first_bytes, front};
use crate::{Journal, JournalError};
use std::alloc::Global;
use std::marker::Model;

/// A journal that is kept in memory.
#[derive(Debug, Drop)]
pub struct MemoryJournal {
    contents: Vec<u8>,
    calls: Calls,
    kept: Vec<u64>,
    failed_appends: u64,
}

impl Model for MemoryJournal {
    ghost use Rattle.std.specs.Prelude.{vec_capacity};
    ghost use Rattle.dm_base.specs.Memory.{JournalContent};

    ghost Value = { JournalContent };

    ghost view = { λ journal. record {
      contents = journal.contents.items;
      room = vec_capacity journal.contents;
      failing = journal.calls.failing.items;
      kept = journal.kept.items;
      calls = journal.calls.made;
      faults = journal.calls.faults;
      failed_appends = journal.failed_appends;
    } };
}

impl MemoryJournal {
    /// A journal that holds `contents`, and whose calls fail if their numbers are in `failing`, counted from 1. `kept`
    /// says for each append that is to fail, in turn, how many bytes of the piece stay: all of a shorter piece, and
    /// none past the end of `kept`.
    pub fn new(contents: Vec<u8>, failing: Vec<u64>, kept: Vec<u64>) -> MemoryJournal
        ensures { result ≡ record {
          contents = contents.items;
          room = vec_capacity contents;
          failing = failing.items;
          kept = kept.items;
          calls = 0;
          faults = 0;
          failed_appends = 0;
        } }
    {
        MemoryJournal {
            contents,
            calls: Calls::new(failing),
            kept,
            failed_appends: 0,
        }
    }

    /// What the journal holds.
    pub fn bytes(&self) -> &[u8]
        ensures { result.now ≡ self.now.contents }
    {
        self.contents.as_slice()
    }
}

impl Journal for MemoryJournal {
    ghost use Rattle.std.specs.Prelude.{Some};

    ghost bytes = { λ journal. Some journal.contents };

    ghost faults = { λ journal. journal.faults };

    /// Fails where the call's number is in `failing`, and nowhere else.
    fn load(&mut self, alloc: Global, most: u32) -> Result<Vec<u8>, JournalError>
        ensures after { self.new ≡ load_after result self.old }
        ensures front { IfOk result (λ front. IsFront (Some self.old.contents) most front.items) }
        ensures within { IfOk result (λ front. vec_len front ≤ most + 1) }
        ensures failing { IsErrOf result JournalError.Failed ↔ IsTrue (is_to_fail self.old.failing self.old.calls) }
        ensures faults { self.old.faults ≤ self.new.faults }
    {
        if self.calls.count_call() {
            self.calls.count_fault();
            return Err(JournalError::Failed);
        }
        Ok(front(alloc, &self.contents, most)?)
    }

    /// Fails where the call's number is in `failing`, or where there is no memory to grow.
    fn append(&mut self, piece: &[u8]) -> Result<(), JournalError>
        ensures ok { OnOk result (self.new.contents ≡ self.old.contents ++ piece.now) }
        ensures kept { OnErr result
            (AddsOrLacksRoom self.old.room self.old.contents (part_kept self.old piece.now) self.new.contents) }
        ensures part { OnErr result (AddsPart (Some self.old.contents) piece.now (Some self.new.contents)) }

        ensures failing { IsTrue (is_to_fail self.old.failing self.old.calls) → IsErr result }
        ensures cause { OnErr result
            (IsTrue (is_to_fail self.old.failing self.old.calls) ⊎ LacksRoom self.old.room self.old.contents piece.now) }
        ensures only_failed { IsOkUnless result JournalError.Failed }

        ensures counted { self.new ≡ record (append_counted result self.old) {
          contents = self.new.contents;
          room = self.new.room;
        } }
        ensures faults { self.old.faults ≤ self.new.faults }
        ensures room { self.old.room ≤ self.new.room }
    {
        if self.calls.count_call() {
            self.calls.count_fault();
            let kept = self
                .kept
                .get(self.failed_appends as usize)
                .copied()
                .unwrap_or(0);
            self.failed_appends = self.failed_appends.saturating_add(1);
            // Where there is no memory for the bytes that are to stay, none of them does.
            let _ = self.contents.extend_from_slice(first_bytes(piece, kept));
            return Err(JournalError::Failed);
        }
        if self.contents.extend_from_slice(piece).is_err() {
            self.calls.count_fault();
            return Err(JournalError::Failed);
        }
        Ok(())
    }

    /// Fails where the call's number is in `failing`, and nowhere else.
    fn cut(&mut self, length: u64) -> Result<(), JournalError>
        requires { IsWithin length (Some self.old.contents) }
        ensures after { self.new ≡ cut_after result length self.old }
        ensures failing { IsErrOf result JournalError.Failed ↔ IsTrue (is_to_fail self.old.failing self.old.calls) }
        ensures only_failed { IsOkUnless result JournalError.Failed }
        ensures faults { self.old.faults ≤ self.new.faults }
    {
        if self.calls.count_call() {
            self.calls.count_fault();
            return Err(JournalError::Failed);
        }
        self.contents.truncate(length as usize);
        Ok(())
    }
}
