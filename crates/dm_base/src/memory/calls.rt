ghost use Rattle.std.specs.Prelude.{◌≡◌, ◌≤◌};
ghost use Rattle.dm_base.specs.Outside.{raised};
ghost use Rattle.dm_base.specs.Memory.{is_to_fail};

/// The calls of an object: which are to fail, how many there have been, and how many failed.
#[derive(Debug, Drop)]
pub(crate) struct Calls {
    /// The numbers of the calls that are to fail, counted from 1.
    pub(crate) failing: Vec<u64>,
    pub(crate) made: u64,
    pub(crate) faults: u64,
}

impl Calls {
    pub(crate) fn new(failing: Vec<u64>) -> Calls
        ensures { result ≡ record { failing = failing; made = 0; faults = 0 } }
    {
        Calls {
            failing,
            made: 0,
            faults: 0,
        }
    }

    /// Counts a call, and says whether it is to fail.
    pub(crate) fn count_call(&mut self) -> bool
        ensures fails { result ≡ is_to_fail self.old.failing.items self.old.made }
        ensures counted { self.new ≡ record self.old { made = raised self.old.made } }
    {
        self.made = self.made.saturating_add(1);
        self.failing.contains(&self.made)
    }

    pub(crate) fn count_fault(&mut self)
        ensures counted { self.new ≡ record self.old { faults = raised self.old.faults } }
        ensures faults { self.old.faults ≤ self.new.faults }
    {
        self.faults = self.faults.saturating_add(1);
    }
}
