ghost use Rattle.std.specs.Prelude.{◌≡◌};

use crate::kept::Kept;
use crate::pass::Pass;
use crate::rule::{Callers, Give, LockRule, Origin, Take};
use crate::view::View;
use atomic_table::{Refused, Table};
use std::alloc::{AllocError, Global};
use std::snapshot::Snapshot;
use std::sync::Wait;

// The word of a lock while the value is at home, and while a pass has taken it.
const FREE: u64 = 0;

const TAKEN: u64 = 1;

/// A lock that keeps one value, for callers whose number is fixed when it is made.
#[derive(Drop)]
pub struct RuleLock<V: Kept> {
    table: Table<Option<V>, View<V::Inputs>, Origin<V>, LockRule<V>, Global>,
    ghost sized: { (table.shared.table_id.words ≡ 1) × (table.shared.table_id.slots ≡ 1) },
}

impl<V: Kept> RuleLock<V> {
    ghost use Rattle.std.specs.Prelude.{◌≡◌, ◌≤◌, Some, None, IfOk, IfErr, IsSome};
    ghost use Rattle.std.specs.Option.{ForSome};
    ghost use Rattle.dm_rulelock.specs.Positions.{AtMost};
    ghost use Rattle.dm_rulelock.specs.Views.{first_view, after_take, after_give, after_split, split_off, after_join};
    ghost use Rattle.dm_rulelock.specs.Passes.{view, IsPassOf, IsOfSameLock, callers_of, HasNotTaken};

    /// A lock that keeps the value, and its first pass, which stands for all callers. This is the only call that
    /// takes memory. Without memory the value comes back.
    pub fn new(
        alloc: Global,
        value: V,
        callers: u32,
    ) -> Result<(RuleLock<V>, Pass<V>), (V, AllocError)>
        requires some { 1 ≤ callers }
        requires most { callers ≤ 33 }
        ensures callers { IfOk result (λ made. callers_of made.0 ≡ callers) }
        ensures own { IfOk result (λ made. IsPassOf made.0 made.1) }
        ensures pass { IfOk result (λ made. view made.1 ≡ first_view (V.inputs value) (V.positions value) callers) }
        ensures err { IfErr result (λ refused. refused.0 ≡ value) }
    {
        let origin = Origin {
            value: Snapshot::of(&value),
            callers,
        };
        let Ok(mut slots) = Vec::with_capacity(alloc, 1) else {
            return Err((value, AllocError));
        };
        slots.push_reserved(Some(value));
        match Table::new(alloc, &[FREE], slots, &origin) {
            Ok((table, seat)) => Ok((RuleLock { table }, Pass { seat })),
            Err(Refused { mut slots }) => {
                let Some(Some(value)) = slots.pop() else {
                    unreachable!()
                };
                slots.destroy_empty();
                Err((value, AllocError))
            }
        }
    }

    /// Takes the value, and waits while another pass has it. The value is over the lock's inputs, and no position
    /// is below one that this pass has seen.
    pub fn take<R: Wait>(&self, rt: &R, pass: &mut Pass<V>) -> V
        requires own { IsPassOf self.now pass.old }
        requires free { HasNotTaken pass.old }
        ensures inputs { (view pass.old).inputs ≡ Some (V.inputs result) }
        ensures positions { AtMost (view pass.old).seen (V.positions result) }
        ensures same { IsOfSameLock pass.old pass.new }
        ensures pass { view pass.new ≡ after_take (view pass.old) (V.positions result) }
    {
        let shared = &self.table.shared;
        for _ in rt.forever() {
            if shared.compare_exchange::<Take<V>>(&mut pass.seat, 0, FREE, TAKEN) == FREE {
                return shared.exchange(&mut pass.seat, 0, None).unwrap();
            }
            shared.park(rt, 0, TAKEN as u32);
        }
        unreachable!()
    }

    /// Gives the value back, or another over the same inputs that has come at least as far, and wakes one caller
    /// that waits.
    pub fn give(&self, pass: &mut Pass<V>, value: V)
        requires own { IsPassOf self.now pass.old }
        requires taken { IsSome (view pass.old).taken }
        requires inputs { (view pass.old).inputs ≡ Some (V.inputs value) }
        requires positions { ForSome (view pass.old).taken (λ taken. AtMost taken (V.positions value)) }
        ensures same { IsOfSameLock pass.old pass.new }
        ensures pass { view pass.new ≡ after_give (view pass.old) (V.positions value) }
    {
        let shared = &self.table.shared;
        let left = shared.exchange(&mut pass.seat, 0, Some(value));
        let None = left else { unreachable!() };
        shared.swap::<Give<V>>(&mut pass.seat, 0, FREE);
        shared.wake_one(0);
    }

    /// Splits off a pass that stands for one of the callers and has seen the same positions.
    pub fn split(&self, pass: &mut Pass<V>) -> Pass<V>
        requires own { IsPassOf self.now pass.old }
        requires free { HasNotTaken pass.old }
        requires callers { 2 ≤ (view pass.old).callers }
        ensures same { IsOfSameLock pass.old pass.new }
        ensures pass { view pass.new ≡ after_split (view pass.old) }
        ensures own { IsPassOf self.now result }
        ensures split_off { view result ≡ split_off (view pass.old) }
    {
        Pass {
            seat: self.table.shared.split_seat::<Callers>(&mut pass.seat),
        }
    }

    /// Takes in another pass: its callers, and what it has seen.
    pub fn join(&self, pass: &mut Pass<V>, other: Pass<V>)
        requires own { IsPassOf self.now pass.old }
        requires free { HasNotTaken pass.old }
        requires other_own { IsPassOf self.now other }
        requires other_free { HasNotTaken other }
        ensures same { IsOfSameLock pass.old pass.new }
        ensures pass { view pass.new ≡ after_join (view pass.old) (view other) }
    {
        let Pass { seat } = other;
        self.table.shared.join_seat::<Callers>(&mut pass.seat, seat);
    }

    /// Ends the lock and hands its value out. A pass that stands for all callers shows that no other has it.
    pub fn close(self, pass: Pass<V>) -> V
        requires own { IsPassOf self pass }
        requires free { HasNotTaken pass }
        requires all { (view pass).callers ≡ callers_of self }
        ensures inputs { (view pass).inputs ≡ Some (V.inputs result) }
        ensures positions { AtMost (view pass).seen (V.positions result) }
    {
        let RuleLock { table } = self;
        let Pass { seat } = pass;
        let mut closed = table.close_with(seat);
        let slot = closed.take(0);
        closed.free();
        let Some(value) = slot else { unreachable!() };
        value
    }
}
