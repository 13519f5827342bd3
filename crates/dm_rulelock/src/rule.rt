//! The rule of a lock, and what each step on it tells.
//!
//! A lock is a table of one word and one slot, which begins with the value in the slot. From then on there are
//! seven kinds of step, each of one pass. A split and a join load the word. A take finds it free and a miss finds it
//! taken, by one compare and exchange. While a pass has taken, a lift brings the value out of the slot and a lay puts
//! it in, and a give makes the word free again.
ghost use Rattle.dm_rulelock.specs.Views.{first_view, spent, after_split, split_off, after_join};
ghost use Rattle.dm_rulelock.specs.Rule.{KeepsRule, TriesToTake, GivesBack};

use crate::kept::Kept;
use crate::view::View;
use atomic_table::{Join, Play, Split, TableRule};
use std::marker::PhantomData;
use std::snapshot::Snapshot;

/// What a lock was made of. It never changes.
#[derive(Drop)]
pub(crate) struct Origin<V> {
    pub(crate) value: Snapshot<V>,
    pub(crate) callers: u32,
}

/// What holds between any two steps, of whatever passes.
pub(crate) struct LockRule<V> {
    kept: PhantomData<V>,
}

impl<V: Kept> TableRule<Option<V>, View<V::Inputs>, Origin<V>> for LockRule<V> {
    ghost holds = { λ origin. KeepsRule V.inputs V.positions (V.inputs origin.value.value) origin.callers };

    ghost first = { λ origin. first_view (V.inputs origin.value.value) (V.positions origin.value.value) origin.callers };
}

/// The step of a pass that tries to take.
pub(crate) struct Take<V> {
    kept: PhantomData<V>,
}

impl<V: Kept> Play<Option<V>, View<V::Inputs>> for Take<V> {
    ghost then = { TriesToTake V.inputs V.positions };
}

/// The step of a pass that gives back.
pub(crate) struct Give<V> {
    kept: PhantomData<V>,
}

impl<V: Kept> Play<Option<V>, View<V::Inputs>> for Give<V> {
    ghost then = { GivesBack V.positions };
}

/// How the callers of a pass are split off, and joined again.
pub(crate) struct Callers;

impl<I> Split<View<I>> for Callers {
    ghost left = { after_split };

    ghost right = { split_off };
}

impl<I> Join<View<I>> for Callers {
    ghost both = { after_join };

    ghost spent = { spent };
}
