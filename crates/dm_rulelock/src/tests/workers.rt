//! Workers share a value that borrows its inputs and holds something generic, and work outside the lock between a
//! take and the next.
ghost use Rattle.std.specs.Prelude.{◌≡◌, ◌≤◌, ◌-◌, ◌∷◌, [], IfOk};
ghost use Rattle.std.specs.Thread.{IsSync};
ghost use Rattle.dm_rulelock.specs.Positions.{AtMost};
ghost use Rattle.dm_rulelock.specs.Passes.{view, IsPassOf, IsOfSameLock, IsLater, HasNotTaken};

use crate::{Kept, Pass, RuleLock};
use std::alloc::{AllocError, Global};
use std::sync::Wait;
use std::test::Fail;
use std::thread::{Threads, join};

trait Sink: Drop {
    fn put(&mut self, square: u64);
}

/// The numbers that are to be squared, how many of them were drawn, and how many squares were put.
#[derive(Drop)]
struct Job<'a, S: Sink> {
    numbers: &'a [u64],
    sink: S,
    drawn: usize,
    done: u64,
}

impl<'a, S: Sink> Kept for Job<'a, S> {
    type Inputs = [u64; 0];

    ghost inputs = { λ job. job.numbers.now };

    ghost positions = { λ job. job.drawn ∷ job.done ∷ [] };
}

impl<'a, S: Sink> Job<'a, S> {
    fn draw(&mut self) -> Option<u64>
        ensures numbers { self.new.numbers.now ≡ self.old.numbers.now }
        ensures positions { AtMost (self.old.drawn ∷ self.old.done ∷ []) (self.new.drawn ∷ self.new.done ∷ []) }
    {
        let number = *self.numbers.get(self.drawn)?;
        self.drawn += 1;
        Some(number)
    }

    fn put(&mut self, square: u64)
        ensures numbers { self.new.numbers.now ≡ self.old.numbers.now }
        ensures positions { AtMost (self.old.drawn ∷ self.old.done ∷ []) (self.new.drawn ∷ self.new.done ∷ []) }
    {
        self.sink.put(square);
        self.done = self.done.saturating_add(1);
    }
}

/// A pass beside its lock. One struct holds both, generic in the value, so that a closure captures one lifetime.
#[derive(Drop)]
struct Hand<'l, V: Kept> {
    lock: &'l RuleLock<V>,
    pass: Pass<V>,
    ghost own: { IsPassOf lock.now pass },
}

// Draws a number under the lock, squares it outside, and puts the square under it. False if no number is left.
fn turn<'a, S: Sink, R: Wait>(
    rt: &R,
    lock: &RuleLock<Job<'a, S>>,
    pass: &mut Pass<Job<'a, S>>,
) -> bool
    requires own { IsPassOf lock.now pass.old }
    requires free { HasNotTaken pass.old }
    ensures same { IsOfSameLock pass.old pass.new }
    ensures free { HasNotTaken pass.new }
    ensures later { IsLater (view pass.old) (view pass.new) }
{
    let mut job = lock.take(rt, pass);
    let drawn = job.draw();
    lock.give(pass, job);
    let Some(number) = drawn else {
        return false;
    };
    let square = number.wrapping_mul(number);
    let mut job = lock.take(rt, pass);
    job.put(square);
    lock.give(pass, job);
    true
}

fn work<'l, 'a, S: Sink, R: Wait>(rt: &R, hand: Hand<'l, Job<'a, S>>) -> Hand<'l, Job<'a, S>>
    requires free { HasNotTaken hand.pass }
    ensures lock { result.lock ≡ hand.entry.lock }
    ensures free { HasNotTaken result.pass }
    ensures later { IsLater (view hand.entry.pass) (view result.pass) }
{
    let Hand { lock, mut pass } = hand;
    for _ in rt.forever() {
        if !turn(rt, lock, &mut pass) {
            return Hand { lock, pass };
        }
    }
    unreachable!()
}

// So many workers beside each other. Each but the last has a pass that is split off for it, and joined again.
fn work_in_many<'l, 'a, S: Sink + Send, R: Threads + Wait + Sync>(
    rt: &R,
    hand: Hand<'l, Job<'a, S>>,
    workers: u32,
) -> Hand<'l, Job<'a, S>>
    requires free { HasNotTaken hand.pass }
    requires some { 1 ≤ workers }
    requires most { workers ≤ (view hand.pass).callers }
    ensures lock { result.lock ≡ hand.entry.lock }
    ensures free { HasNotTaken result.pass }
    ensures later { IsLater (view hand.entry.pass) (view result.pass) }
{
    if workers == 1 {
        return work(rt, hand);
    }
    let Hand { lock, mut pass } = hand;
    let one = Hand {
        lock,
        pass: lock.split(&mut pass),
    };
    let others = Hand { lock, pass };
    let (others, one) = join(
        rt,
        move ||
            requires { IsSync R.row × HasNotTaken others.pass × (2 ≤ workers) × (workers - 1 ≤ (view others.pass).callers) }
            ensures { (result.lock ≡ others.entry.lock) × HasNotTaken result.pass × IsLater (view others.entry.pass) (view result.pass) }
        { work_in_many(rt, others, workers - 1) },
        move ||
            requires { HasNotTaken one.pass }
            ensures { (result.lock ≡ one.entry.lock) × HasNotTaken result.pass × IsLater (view one.entry.pass) (view result.pass) }
        { work(rt, one) },
    );
    let Hand { lock, mut pass } = others;
    let Hand {
        lock: _,
        pass: other,
    } = one;
    lock.join(&mut pass, other);
    Hand { lock, pass }
}

fn run<'a, S: Sink + Send, R: Threads + Wait + Sync>(
    rt: &R,
    alloc: Global,
    job: Job<'a, S>,
    workers: u32,
) -> Result<Job<'a, S>, AllocError>
    requires some { 1 ≤ workers }
    requires most { workers ≤ 32 }
    ensures numbers { IfOk result (λ ended. ended.numbers.now ≡ job.entry.numbers.now) }
    ensures positions { IfOk result (λ ended. AtMost (job.entry.drawn ∷ job.entry.done ∷ []) (ended.drawn ∷ ended.done ∷ [])) }
{
    let (lock, pass) = RuleLock::new(alloc, job, workers).map_err(|refused| refused.1)?;
    let hand = Hand { lock: &lock, pass };
    let Hand { lock: _, pass } = work_in_many(rt, hand, workers);
    Ok(lock.close(pass))
}

#[derive(Drop)]
struct Sum {
    total: u64,
}

impl Sink for Sum {
    fn put(&mut self, square: u64) {
        self.total = self.total.wrapping_add(square);
    }
}

fn sum_of_squares<R: Threads + Wait + Sync>(
    rt: &R,
    alloc: Global,
    numbers: &[u64],
    workers: u32,
) -> Result<u64, AllocError>
    requires some { 1 ≤ workers }
    requires most { workers ≤ 32 }
{
    let job = Job {
        numbers,
        sink: Sum { total: 0 },
        drawn: 0,
        done: 0,
    };
    Ok(run(rt, alloc, job, workers)?.sink.total)
}

// 1 + 4 + 9 + .. + 10,000 is 100 * 101 * 201 / 6.
#[test]
fn each_number_is_squared_once(rt: HostRuntime) -> Result<(), Fail> {
    let mut numbers = Vec::new(rt.alloc());
    for number in 1..101 {
        numbers.push(number)?;
    }
    let numbers = numbers.as_slice();
    assert_eq!(rt; sum_of_squares(&rt, rt.alloc(), numbers, 1)?, 338350);
    assert_eq!(rt; sum_of_squares(&rt, rt.alloc(), numbers, 2)?, 338350);
    assert_eq!(rt; sum_of_squares(&rt, rt.alloc(), numbers, 8)?, 338350);
    assert_eq!(rt; sum_of_squares(&rt, rt.alloc(), numbers, 32)?, 338350);
    Ok(())
}
