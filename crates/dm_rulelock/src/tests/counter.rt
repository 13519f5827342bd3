//! Two threads raise one counter.
ghost use Rattle.std.specs.Prelude.{◌≡◌, ◌∷◌, []};
ghost use Rattle.dm_rulelock.specs.Passes.{view, IsPassOf, HasNotTaken};

use crate::{Kept, Pass, RuleLock};
use std::alloc::{AllocError, Global};
use std::sync::Wait;
use std::test::Fail;
use std::thread;
use std::thread::{Threads, join};
use std::time::{Clock, Duration};

#[derive(Drop)]
struct Counter {
    number: u64,
    position: u64,
}

impl Kept for Counter {
    type Inputs = u64;

    ghost inputs = { λ counter. counter.number };

    ghost positions = { λ counter. counter.position ∷ [] };
}

/// How often a thread raises the counter, and for how many milliseconds it waits before it takes it and while it
/// has it.
#[derive(Clone, Copy)]
struct Turns {
    times: u32,
    before: u64,
    during: u64,
}

fn raise<R: Wait + Clock>(
    rt: &R,
    lock: &RuleLock<Counter>,
    mut pass: Pass<Counter>,
    turns: Turns,
) -> Pass<Counter>
    requires own { IsPassOf lock.now pass }
    requires free { HasNotTaken pass }
    ensures own { IsPassOf lock.now result }
    ensures free { HasNotTaken result }
    ensures callers { (view result).callers ≡ (view pass).callers }
{
    for _ in 0..turns.times {
        thread::sleep(rt, Duration::from_millis(turns.before));
        let mut counter = lock.take(rt, &mut pass);
        counter.position = counter.position.saturating_add(1);
        thread::sleep(rt, Duration::from_millis(turns.during));
        lock.give(&mut pass, counter);
    }
    pass
}

fn raised_by_two<R: Threads + Wait + Clock + Sync>(
    rt: &R,
    alloc: Global,
    first: Turns,
    second: Turns,
) -> Result<Counter, AllocError> {
    let counter = Counter {
        number: 7,
        position: 0,
    };
    let (lock, mut pass) = RuleLock::new(alloc, counter, 2).map_err(|refused| refused.1)?;
    let other = lock.split(&mut pass);
    let shared = &lock;
    let (mut pass, other) = join(
        rt,
        move || -> Pass<Counter>
            requires { IsPassOf shared.now pass × HasNotTaken pass }
            ensures { IsPassOf shared.entry.now result × HasNotTaken result × ((view result).callers ≡ (view pass).callers) }
        { raise(rt, shared, pass, first) },
        move || -> Pass<Counter>
            requires { IsPassOf shared.now other × HasNotTaken other }
            ensures { IsPassOf shared.entry.now result × HasNotTaken result × ((view result).callers ≡ (view other).callers) }
        { raise(rt, shared, other, second) },
    );
    lock.join(&mut pass, other);
    Ok(lock.close(pass))
}

#[test]
fn no_turn_is_lost(rt: HostRuntime) -> Result<(), Fail> {
    let turns = Turns {
        times: 1000,
        before: 0,
        during: 0,
    };
    let counter = raised_by_two(&rt, rt.alloc(), turns, turns)?;
    assert_eq!(rt; counter.position, 2000);
    assert_eq!(rt; counter.number, 7);
    Ok(())
}

// The second thread comes while the first has the counter. Were it not woken, the test would not end.
#[test]
fn a_thread_that_waits_is_woken(rt: HostRuntime) -> Result<(), Fail> {
    let first = Turns {
        times: 1,
        before: 0,
        during: 300,
    };
    let second = Turns {
        times: 1,
        before: 100,
        during: 0,
    };
    let counter = raised_by_two(&rt, rt.alloc(), first, second)?;
    assert_eq!(rt; counter.position, 2);
    Ok(())
}
