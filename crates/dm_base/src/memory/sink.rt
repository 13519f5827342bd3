ghost use Rattle.std.specs.Prelude.{◌≡◌, ◌≤◌, ◌⊎◌, vec_capacity, IsTrue, IsErr, OnErr};
ghost use Rattle.dm_base.specs.Memory.{is_to_fail, LacksRoom, sink_after};

use crate::memory::calls::Calls;
use crate::{Sink, SinkError};
use std::marker::Model;

/// A sink that keeps what it takes.
#[derive(Debug, Drop)]
pub struct MemorySink {
    contents: Vec<u8>,
    calls: Calls,
}

impl Model for MemorySink {
    ghost use Rattle.std.specs.Prelude.{vec_capacity};
    ghost use Rattle.dm_base.specs.Memory.{SinkContent};

    ghost Value = { SinkContent };

    ghost view = { λ sink. record {
      contents = sink.contents.items;
      room = vec_capacity sink.contents;
      failing = sink.calls.failing.items;
      calls = sink.calls.made;
      faults = sink.calls.faults;
    } };
}

impl MemorySink {
    /// A sink that has taken `contents`, and whose calls fail if their numbers are in `failing`, counted from 1.
    pub fn new(contents: Vec<u8>, failing: Vec<u64>) -> MemorySink
        ensures { result ≡ record {
          contents = contents.items;
          room = vec_capacity contents;
          failing = failing.items;
          calls = 0;
          faults = 0;
        } }
    {
        MemorySink {
            contents,
            calls: Calls::new(failing),
        }
    }

    /// What the sink has taken.
    pub fn bytes(&self) -> &[u8]
        ensures { result.now ≡ self.now.contents }
    {
        self.contents.as_slice()
    }
}

impl Sink for MemorySink {
    ghost use Rattle.std.specs.Prelude.{Some};

    ghost taken = { λ sink. Some sink.contents };

    ghost faults = { λ sink. sink.faults };

    /// Fails where the call's number is in `failing`, or where there is no memory to grow, and then adds nothing.
    fn put(&mut self, bytes: &[u8]) -> Result<(), SinkError>
        ensures after { self.new ≡ record (sink_after result bytes.now self.old) { room = self.new.room } }

        ensures failing { IsTrue (is_to_fail self.old.failing self.old.calls) → IsErr result }
        ensures cause { OnErr result
            (IsTrue (is_to_fail self.old.failing self.old.calls) ⊎ LacksRoom self.old.room self.old.contents bytes.now) }

        ensures faults { self.old.faults ≤ self.new.faults }
        ensures room { self.old.room ≤ self.new.room }
    {
        if self.calls.count_call() || self.contents.extend_from_slice(bytes).is_err() {
            self.calls.count_fault();
            return Err(SinkError::Failed);
        }
        Ok(())
    }
}
