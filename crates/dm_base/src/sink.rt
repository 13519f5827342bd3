ghost use Rattle.std.specs.Prelude.{◌≡◌, ◌≤◌, ℕ, Option, List, OnOk, OnErr};
ghost use Rattle.dm_base.specs.Outside.{Rose, added, AddsPart};

/// Why bytes were not put.
#[derive(Clone, Copy, Debug, PartialEq, Eq)]
pub enum SinkError {
    /// The sink did not take all of the bytes.
    Failed,
}

/// An output, which takes bytes one piece after another.
///
/// `taken` are the bytes that it took so far, where they are told. `faults` counts the puts that failed.
pub trait Sink {
    ghost taken: { Self → Option (List ℕ) };

    ghost faults: { Self → ℕ };

    /// Adds the bytes. A put that fails may have added some of the first of them, or all.
    fn put(&mut self, bytes: &[u8]) -> Result<(), SinkError>
        ensures put { OnOk result (taken self.new ≡ added (taken self.old) bytes.now) }
        ensures part { OnErr result (AddsPart (taken self.old) bytes.now (taken self.new)) }

        ensures faults { faults self.old ≤ faults self.new }
        ensures failed { OnErr result (Rose (faults self.old) (faults self.new)) };
}
