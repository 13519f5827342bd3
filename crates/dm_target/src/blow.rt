ghost use Rattle.std.specs.Prelude.{◌≡◌, ◌≤◌, true, false};
ghost use Rattle.dm_base.specs.Outside.{raised};
ghost use Rattle.dm_target.specs.Fuses.{blow_at};

use crate::TargetError;

/// A writing call that is to fail.
#[derive(Clone, Copy, Debug, Drop, PartialEq, Eq)]
pub struct Blow {
    /// The number of the call, counted from 1.
    pub call: u64,
    /// Whether the call takes its effect before it fails.
    pub done: bool,
}

/// Which calls are to fail, how many there have been, and how many failed here.
#[derive(Debug, Drop)]
pub(crate) struct Fuse {
    failing: Vec<Blow>,
    made: u64,
    blown: bool,
    broken: u64,
}

impl Fuse {
    pub(crate) fn new(failing: Vec<Blow>) -> Fuse
        ensures { result ≡ record { failing = failing; made = 0; blown = false; broken = 0 } }
    {
        Fuse {
            failing,
            made: 0,
            blown: false,
            broken: 0,
        }
    }

    pub(crate) fn is_blown(&self) -> bool
        ensures { result ≡ self.now.blown }
    {
        self.blown
    }

    /// Counts a call, and tells how it is to fail.
    pub(crate) fn next_blow(&mut self) -> Option<Blow>
        ensures blow { result ≡ blow_at self.old.failing.items (raised self.old.made) }
        ensures counted { self.new ≡ record self.old { made = raised self.old.made } }
    {
        self.made = self.made.saturating_add(1);
        blow_at(&self.failing, self.made)
    }

    /// The answer of a call that fails here.
    pub(crate) fn blow(&mut self) -> Result<(), TargetError>
        ensures failed { result ≡ Err TargetError.Failed }
        ensures blown { self.new ≡ record self.old { blown = true; broken = raised self.old.broken } }
        ensures broken { self.old.broken ≤ self.new.broken }
    {
        self.blown = true;
        self.broken = self.broken.saturating_add(1);
        Err(TargetError::Failed)
    }
}

/// How the call of a number is to fail.
fn blow_at(failing: &[Blow], number: u64) -> Option<Blow>
    ensures { result ≡ blow_at failing.now number }
{
    for blow in failing {
        if blow.call == number {
            return Some(*blow);
        }
    }
    None
}
