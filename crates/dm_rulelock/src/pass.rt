ghost use Rattle.std.specs.Prelude.{◌≡◌, ◌<◌};
ghost use Rattle.dm_rulelock.specs.Views.{held_slots};

use crate::kept::Kept;
use crate::view::View;
use atomic_table::Seat;

/// The right to take the value of one lock. It has no bytes.
///
/// A pass that is dropped takes its callers with it, and the lock can then not be closed.
#[derive(Drop)]
pub struct Pass<V: Kept> {
    pub(crate) seat: Seat<Option<V>, View<V::Inputs>>,
    ghost has_callers: { 0 < seat.me.0.callers },
    ghost holds: { seat.me.1 ≡ held_slots seat.me.0.taken },
}
