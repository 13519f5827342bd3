ghost use Rattle.std.specs.Prelude.{◌≡◌, ◌<◌, ◌^◌, length, IsTrue, IfOk, OnOk};
ghost use Rattle.std.specs.List.{list_all};
ghost use Rattle.std.specs.Cmp.Lexicographic.{pointwise};
ghost use Rattle.dm_schema.specs.Fits.{fits};
ghost use Rattle.dm_encode.specs.Events.{rows_of};
ghost use Rattle.dm_gen.specs.Schemas.{columns_after};
ghost use Rattle.dm_gen.specs.Steps.{advanced, deleted, done_before, dumped_row, dumped_rows, first_walk, inserted, new_row, place, step, updated};

use crate::live_row::{LiveRow, row_of};
use crate::numbers::next_number;
use dm_schema::RowChange;
use std::alloc::{AllocError, Global};
use std::marker::Model;

/// Rows of the dump.
const DUMPED: u32 = 1000;
/// The ids of a source's rows begin here, times its number.
const SOURCE_IDS: u32 = 1_000_000;
/// What a row has in `d` that was there before the column.
const EARLY_D: u8 = 5;
/// A statement comes behind so many steps.
const PHASE: u32 = 1000;

/// The row of the dump of a number.
fn dumped_row(source: u8, number: u32) -> LiveRow
    requires source { source < 4 }
    requires number { number < 1000 }
    ensures { result ≡ dumped_row source number }
{
    let id = u32::from(source) * SOURCE_IDS + number;
    LiveRow {
        id,
        u: id,
        v: number as u16,
        d: EARLY_D,
    }
}

/// The rows of a source's dump.
pub fn dumped_rows(alloc: Global, source: u8) -> Result<Vec<LiveRow>, AllocError>
    requires { source < 4 }
    ensures { IfOk result (λ rows. rows.items ≡ dumped_rows source 1000) }
{
    let mut rows = Vec::with_capacity(alloc, DUMPED as usize)?;
    for number in 0..DUMPED {
        rows.push(dumped_row(source, number))?;
    }
    Ok(rows)
}

/// How many statements are done before a step.
pub fn done_before(step: u32) -> u32
    ensures { result ≡ done_before step }
{
    step / PHASE
}

/// Where a source's steps stand. Behind an `Err` nothing is said of it.
#[derive(Drop)]
pub struct Walker {
    x: u64,
    next: u32,
    freed: Option<u32>,
    live: Vec<LiveRow>,
}

impl Model for Walker {
    ghost use Rattle.dm_gen.specs.Steps.{Walk};

    ghost Value = { Walk };

    ghost view = { λ w. record { x = w.x; next = w.next; freed = w.freed; live = w.live.items } };
}

impl Walker {
    /// Before the first step.
    pub fn new(alloc: Global, number: u32, source: u8) -> Result<Walker, AllocError>
        requires { source < 4 }
        ensures { IfOk result (λ walker. walker ≡ first_walk number source) }
    {
        Ok(Walker {
            x: 4 * u64::from(number) + u64::from(source) + 1,
            next: u32::from(source) * SOURCE_IDS + DUMPED,
            freed: None,
            live: dumped_rows(alloc, source)?,
        })
    }

    fn advance(&mut self)
        ensures { self.new ≡ advanced self.old }
    {
        self.x = next_number(self.x);
    }

    /// The row that x inserts.
    fn new_row(&self, done: u32) -> LiveRow
        ensures { result ≡ new_row done self.now }
    {
        LiveRow {
            id: self.next,
            u: self.freed.unwrap_or(self.next),
            v: (self.x % 1000) as u16,
            d: if done < 1 {
                EARLY_D
            } else {
                (self.x % 7) as u8
            },
        }
    }

    /// The place that x chooses.
    fn place(&self) -> usize
        requires { 0 < length self.now.live }
        ensures value { result ≡ place self.now }
        ensures within { result < length self.now.live }
    {
        (self.x % self.live.len() as u64) as usize
    }

    fn insert(&mut self, alloc: Global, done: u32) -> Result<RowChange, AllocError>
        requires { self.old.next < 2 ^ 31 }
        ensures walk { OnOk result (self.new ≡ (inserted done self.old).walk) }
        ensures change { IfOk result (λ change. change ≡ (inserted done self.old).change) }
        ensures fits { IfOk result (λ change. IsTrue (list_all (λ row. pointwise fits row (columns_after done)) (rows_of change))) }
    {
        let row = self.new_row(done);
        self.next += 1;
        self.freed = None;
        self.live.push(row)?;
        Ok(RowChange::Insert(row_of(alloc, row, done)?))
    }

    fn update(&mut self, alloc: Global, done: u32) -> Result<RowChange, AllocError>
        requires { 0 < length self.old.live }
        ensures walk { OnOk result (self.new ≡ (updated done self.old).walk) }
        ensures change { IfOk result (λ change. change ≡ (updated done self.old).change) }
        ensures fits { IfOk result (λ change. IsTrue (list_all (λ row. pointwise fits row (columns_after done)) (rows_of change))) }
    {
        let place = self.place();
        let old = self.live[place];
        let new = LiveRow {
            v: (self.x % 1000) as u16,
            ..old
        };
        self.live[place] = new;
        Ok(RowChange::Update(row_of(alloc, old, done)?, row_of(alloc, new, done)?))
    }

    fn delete(&mut self, alloc: Global, done: u32) -> Result<RowChange, AllocError>
        requires { 0 < length self.old.live }
        ensures walk { OnOk result (self.new ≡ (deleted done self.old).walk) }
        ensures change { IfOk result (λ change. change ≡ (deleted done self.old).change) }
        ensures fits { IfOk result (λ change. IsTrue (list_all (λ row. pointwise fits row (columns_after done)) (rows_of change))) }
    {
        let place = self.place();
        let row = self.live.remove(place);
        self.freed = Some(row.u);
        Ok(RowChange::Delete(row_of(alloc, row, done)?))
    }

    /// Takes a step, and says what it changes.
    pub fn step(&mut self, alloc: Global, number: u32) -> Result<RowChange, AllocError>
        requires next { self.old.next < 2 ^ 31 }
        requires live { 0 < length self.old.live }
        ensures walk { OnOk result (self.new ≡ (step number self.old).walk) }
        ensures change { IfOk result (λ change. change ≡ (step number self.old).change) }
        ensures fits { IfOk result (λ change. IsTrue (list_all (λ row. pointwise fits row (columns_after (done_before number))) (rows_of change))) }
    {
        self.advance();
        let done = done_before(number);
        if number % 4 < 2 {
            self.insert(alloc, done)
        } else if number % 4 == 2 {
            self.update(alloc, done)
        } else {
            self.delete(alloc, done)
        }
    }
}
