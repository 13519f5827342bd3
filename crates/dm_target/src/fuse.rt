ghost use Rattle.std.specs.Prelude.{◌≡◌, ◌+◌, ◌≤◌, ◌&&◌, ◌↔◌, false, not, IsTrue, IsSome, IsErrOf};
ghost use Rattle.dm_base.specs.Outside.{Rose, raised};
ghost use Rattle.dm_schema.specs.Schemas.{in_order};
ghost use Rattle.dm_target.specs.Writing.{Writes, Grows, NotFailed, IsProper, IsWhole};
ghost use Rattle.dm_target.specs.Fuses.{blow_at, Leaves};
ghost use Rattle.dm_target.specs.declared.call.Call.TheVariants.{Create, Alter, Apply, Metas};

use crate::blow::Fuse;
use crate::{Blow, Meta, Target, TargetError};
use dm_list::Bytes;
use dm_schema::{Schema, TableName};
use dm_table::RowOp;
use dm_value::Rows;
use std::alloc::{AllocError, Global};

/// A target whose writing calls fail where a list says so. A call that is to take its effect before it fails takes none
/// where that isn't defined, or where the inner target has no room or no memory for it.
///
/// Calls are counted from 1 up to `u64::MAX`, which is then the number of all later ones. Of equal numbers in the list
/// the first counts.
#[derive(Debug, Drop)]
pub struct FuseTarget<T> {
    inner: T,
    fuse: Fuse,
}

impl<T: Target> FuseTarget<T> {
    pub fn new(inner: T, failing: Vec<Blow>) -> FuseTarget<T>
        ensures inner { result.inner ≡ inner }
        ensures fuse { result.fuse ≡ record { failing = failing; made = 0; blown = false; broken = 0 } }
    {
        FuseTarget {
            inner,
            fuse: Fuse::new(failing),
        }
    }

    /// The target behind the fuse, as the calls left it.
    pub fn into_inner(self) -> T
        ensures { result ≡ self.inner }
    {
        let FuseTarget { inner, .. } = self;
        inner
    }
}

impl<T: Target> Target for FuseTarget<T> {
    ghost content = { λ fuse. T.content fuse.inner };

    ghost calls = { λ fuse. T.calls fuse.inner };

    ghost faults = { λ fuse. fuse.fuse.broken + T.faults fuse.inner };

    ghost sound = { λ fuse. not fuse.fuse.blown && T.sound fuse.inner };

    ghost full = { λ fuse call. T.full fuse.inner call };

    fn create(
        &mut self,
        alloc: Global,
        table: &TableName,
        schema: &Schema,
    ) -> Result<(), TargetError>
        requires sound { IsTrue (not self.old.fuse.blown && T.sound self.old.inner) }
        requires proper { IsProper (Create table.now schema.now) (T.content self.old.inner) }
        ensures written { Writes (Create table.now (in_order schema.now)) (T.full self.old.inner) (T.content self.old.inner) (T.content self.new.inner) result }
        ensures calls { Grows (Create table.now (in_order schema.now)) (T.calls self.old.inner) (T.calls self.new.inner) result }
        ensures sound { IsTrue (not self.new.fuse.blown && T.sound self.new.inner) ↔ NotFailed result }
        ensures faults { self.old.fuse.broken + T.faults self.old.inner ≤ self.new.fuse.broken + T.faults self.new.inner }
        ensures failed { IsErrOf result TargetError.Failed → Rose (self.old.fuse.broken + T.faults self.old.inner) (self.new.fuse.broken + T.faults self.new.inner) }
        ensures whole { IsErrOf result TargetError.Failed → IsWhole (Create table.now (in_order schema.now)) (T.content self.old.inner) (T.content self.new.inner) (T.calls self.old.inner) (T.calls self.new.inner) }
        ensures fails { IsTrue (T.sound self.new.inner) → (IsErrOf result TargetError.Failed ↔ IsSome (blow_at self.old.fuse.failing.items (raised self.old.fuse.made))) }
        ensures leaves { Leaves (blow_at self.old.fuse.failing.items (raised self.old.fuse.made)) self.old.inner self.new.inner (λ answer. Writes (Create table.now (in_order schema.now)) (T.full self.old.inner) (T.content self.old.inner) (T.content self.new.inner) answer × Grows (Create table.now (in_order schema.now)) (T.calls self.old.inner) (T.calls self.new.inner) answer) }
        ensures counted { self.new.fuse.made ≡ raised self.old.fuse.made }
        ensures list { self.new.fuse.failing ≡ self.old.fuse.failing }
    {
        match self.fuse.next_blow() {
            None => self.inner.create(alloc, table, schema),
            Some(Blow { done: false, .. }) => self.fuse.blow(),
            Some(Blow { done: true, .. }) => {
                drop(self.inner.create(alloc, table, schema));
                self.fuse.blow()
            }
        }
    }

    fn alter(
        &mut self,
        alloc: Global,
        table: &TableName,
        schema: &Schema,
    ) -> Result<(), TargetError>
        requires sound { IsTrue (not self.old.fuse.blown && T.sound self.old.inner) }
        requires proper { IsProper (Alter table.now schema.now) (T.content self.old.inner) }
        ensures written { Writes (Alter table.now (in_order schema.now)) (T.full self.old.inner) (T.content self.old.inner) (T.content self.new.inner) result }
        ensures calls { Grows (Alter table.now (in_order schema.now)) (T.calls self.old.inner) (T.calls self.new.inner) result }
        ensures sound { IsTrue (not self.new.fuse.blown && T.sound self.new.inner) ↔ NotFailed result }
        ensures faults { self.old.fuse.broken + T.faults self.old.inner ≤ self.new.fuse.broken + T.faults self.new.inner }
        ensures failed { IsErrOf result TargetError.Failed → Rose (self.old.fuse.broken + T.faults self.old.inner) (self.new.fuse.broken + T.faults self.new.inner) }
        ensures whole { IsErrOf result TargetError.Failed → IsWhole (Alter table.now (in_order schema.now)) (T.content self.old.inner) (T.content self.new.inner) (T.calls self.old.inner) (T.calls self.new.inner) }
        ensures fails { IsTrue (T.sound self.new.inner) → (IsErrOf result TargetError.Failed ↔ IsSome (blow_at self.old.fuse.failing.items (raised self.old.fuse.made))) }
        ensures leaves { Leaves (blow_at self.old.fuse.failing.items (raised self.old.fuse.made)) self.old.inner self.new.inner (λ answer. Writes (Alter table.now (in_order schema.now)) (T.full self.old.inner) (T.content self.old.inner) (T.content self.new.inner) answer × Grows (Alter table.now (in_order schema.now)) (T.calls self.old.inner) (T.calls self.new.inner) answer) }
        ensures counted { self.new.fuse.made ≡ raised self.old.fuse.made }
        ensures list { self.new.fuse.failing ≡ self.old.fuse.failing }
    {
        match self.fuse.next_blow() {
            None => self.inner.alter(alloc, table, schema),
            Some(Blow { done: false, .. }) => self.fuse.blow(),
            Some(Blow { done: true, .. }) => {
                drop(self.inner.alter(alloc, table, schema));
                self.fuse.blow()
            }
        }
    }

    fn apply(&mut self, alloc: Global, table: &TableName, ops: &[RowOp]) -> Result<(), TargetError>
        requires sound { IsTrue (not self.old.fuse.blown && T.sound self.old.inner) }
        requires proper { IsProper (Apply table.now ops.now) (T.content self.old.inner) }
        ensures written { Writes (Apply table.now ops.now) (T.full self.old.inner) (T.content self.old.inner) (T.content self.new.inner) result }
        ensures calls { Grows (Apply table.now ops.now) (T.calls self.old.inner) (T.calls self.new.inner) result }
        ensures sound { IsTrue (not self.new.fuse.blown && T.sound self.new.inner) ↔ NotFailed result }
        ensures faults { self.old.fuse.broken + T.faults self.old.inner ≤ self.new.fuse.broken + T.faults self.new.inner }
        ensures failed { IsErrOf result TargetError.Failed → Rose (self.old.fuse.broken + T.faults self.old.inner) (self.new.fuse.broken + T.faults self.new.inner) }
        ensures whole { IsErrOf result TargetError.Failed → IsWhole (Apply table.now ops.now) (T.content self.old.inner) (T.content self.new.inner) (T.calls self.old.inner) (T.calls self.new.inner) }
        ensures fails { IsTrue (T.sound self.new.inner) → (IsErrOf result TargetError.Failed ↔ IsSome (blow_at self.old.fuse.failing.items (raised self.old.fuse.made))) }
        ensures leaves { Leaves (blow_at self.old.fuse.failing.items (raised self.old.fuse.made)) self.old.inner self.new.inner (λ answer. Writes (Apply table.now ops.now) (T.full self.old.inner) (T.content self.old.inner) (T.content self.new.inner) answer × Grows (Apply table.now ops.now) (T.calls self.old.inner) (T.calls self.new.inner) answer) }
        ensures counted { self.new.fuse.made ≡ raised self.old.fuse.made }
        ensures list { self.new.fuse.failing ≡ self.old.fuse.failing }
    {
        match self.fuse.next_blow() {
            None => self.inner.apply(alloc, table, ops),
            Some(Blow { done: false, .. }) => self.fuse.blow(),
            Some(Blow { done: true, .. }) => {
                drop(self.inner.apply(alloc, table, ops));
                self.fuse.blow()
            }
        }
    }

    fn put_meta(&mut self, alloc: Global, pairs: &[Meta]) -> Result<(), TargetError>
        requires sound { IsTrue (not self.old.fuse.blown && T.sound self.old.inner) }
        requires proper { IsProper (Metas pairs.now) (T.content self.old.inner) }
        ensures written { Writes (Metas pairs.now) (T.full self.old.inner) (T.content self.old.inner) (T.content self.new.inner) result }
        ensures calls { Grows (Metas pairs.now) (T.calls self.old.inner) (T.calls self.new.inner) result }
        ensures sound { IsTrue (not self.new.fuse.blown && T.sound self.new.inner) ↔ NotFailed result }
        ensures faults { self.old.fuse.broken + T.faults self.old.inner ≤ self.new.fuse.broken + T.faults self.new.inner }
        ensures failed { IsErrOf result TargetError.Failed → Rose (self.old.fuse.broken + T.faults self.old.inner) (self.new.fuse.broken + T.faults self.new.inner) }
        ensures whole { IsErrOf result TargetError.Failed → IsWhole (Metas pairs.now) (T.content self.old.inner) (T.content self.new.inner) (T.calls self.old.inner) (T.calls self.new.inner) }
        ensures fails { IsTrue (T.sound self.new.inner) → (IsErrOf result TargetError.Failed ↔ IsSome (blow_at self.old.fuse.failing.items (raised self.old.fuse.made))) }
        ensures leaves { Leaves (blow_at self.old.fuse.failing.items (raised self.old.fuse.made)) self.old.inner self.new.inner (λ answer. Writes (Metas pairs.now) (T.full self.old.inner) (T.content self.old.inner) (T.content self.new.inner) answer × Grows (Metas pairs.now) (T.calls self.old.inner) (T.calls self.new.inner) answer) }
        ensures counted { self.new.fuse.made ≡ raised self.old.fuse.made }
        ensures list { self.new.fuse.failing ≡ self.old.fuse.failing }
    {
        match self.fuse.next_blow() {
            None => self.inner.put_meta(alloc, pairs),
            Some(Blow { done: false, .. }) => self.fuse.blow(),
            Some(Blow { done: true, .. }) => {
                drop(self.inner.put_meta(alloc, pairs));
                self.fuse.blow()
            }
        }
    }

    fn schema(&self, table: &TableName) -> Option<&Schema> {
        self.inner.schema(table)
    }

    fn meta(&self, name: &[u8]) -> Option<&Bytes> {
        self.inner.meta(name)
    }

    fn rows_from(
        &self,
        alloc: Global,
        table: &TableName,
        place: u64,
        count: u32,
    ) -> Result<Rows, AllocError> {
        self.inner.rows_from(alloc, table, place, count)
    }

    fn is_sound(&self) -> bool {
        !self.fuse.is_blown() && self.inner.is_sound()
    }
}
