ghost use Rattle.std.specs.Prelude.{◌≡◌, ◌≤◌, ◌↔◌, ℕ, Bool, Option, List, IfOk, IfSome, IsErrOf, IsTrue, map, take, drop};
ghost use Rattle.std.specs.Option.{option_copied, option_map};
ghost use Rattle.dm_base.specs.Outside.{Rose};
ghost use Rattle.dm_target.specs.Contents.{Content, table_of, meta_of, rows_of};
ghost use Rattle.dm_schema.specs.Schemas.{in_order};
ghost use Rattle.dm_target.specs.Writing.{Writes, Grows, NotFailed, IsProper, IsWhole};
ghost use Rattle.dm_target.specs.declared.call.Call.{Call};
ghost use Rattle.dm_target.specs.declared.call.Call.TheVariants.{Create, Alter, Apply, Metas};

use crate::Meta;
use dm_list::Bytes;
use dm_schema::{Schema, TableName};
use dm_table::{RowOp, TableFault};
use dm_value::Rows;
use std::alloc::{AllocError, AllocFailed, Global};

/// Why a call took no effect, or may have taken none.
#[derive(Debug, Drop, PartialEq, Eq)]
pub enum TargetError {
    /// It has no effect on what the target holds.
    Rejected(TableFault),
    /// The target failed: the call took its effect whole, or none. No call may follow.
    Failed,
    /// There is no room for the call.
    Full,
    Memory,
}

impl From<AllocError> for TargetError {
    ghost use Rattle.dm_target.specs.declared.target.TargetError.TheVariants.{Memory};

    ghost from_gives = { λ _ error. error ≡ Memory };

    fn from(_: AllocError) -> TargetError {
        TargetError::Memory
    }
}

impl<T: Drop> From<AllocFailed<T>> for TargetError {
    ghost use Rattle.dm_target.specs.declared.target.TargetError.TheVariants.{Memory};

    ghost from_gives = { λ _ error. error ≡ Memory };

    fn from(_: AllocFailed<T>) -> TargetError {
        TargetError::Memory
    }
}

/// The downstream: tables with rows, and texts by name. Each writing call happens whole or not at all.
///
/// The columns and unique keys of a table are kept in byte order of their names, however they are given, and so a call is
/// told. A call is to be proper: of a table other than `dm_meta`.`state`, with one operation or text at least, operations
/// shaped as the table's schema asks, and an alteration to another schema than the table has.
///
/// `content` is what it holds, and `calls` the calls that took effect, where they are told. `faults` counts the calls that
/// failed; until one does, the target is `sound`. `full` says for which calls there is no room.
pub trait Target {
    ghost content: { Self → Option Content };

    ghost calls: { Self → Option (List Call) };

    ghost faults: { Self → ℕ };

    ghost sound: { Self → Bool };

    ghost full: { Self → Call → Bool };

    /// Makes a table without rows.
    fn create(
        &mut self,
        alloc: Global,
        table: &TableName,
        schema: &Schema,
    ) -> Result<(), TargetError>
        requires sound { IsTrue (sound self.old) }
        requires proper { IsProper (Create table.now schema.now) (content self.old) }
        ensures written { Writes (Create table.now (in_order schema.now)) (full self.old) (content self.old) (content self.new) result }
        ensures calls { Grows (Create table.now (in_order schema.now)) (calls self.old) (calls self.new) result }
        ensures sound { IsTrue (sound self.new) ↔ NotFailed result }
        ensures faults { faults self.old ≤ faults self.new }
        ensures failed { IsErrOf result TargetError.Failed → Rose (faults self.old) (faults self.new) }
        ensures whole { IsErrOf result TargetError.Failed → IsWhole (Create table.now (in_order schema.now)) (content self.old) (content self.new) (calls self.old) (calls self.new) };

    /// Gives a table another schema. Columns that stay keep their values, new ones are filled.
    fn alter(
        &mut self,
        alloc: Global,
        table: &TableName,
        schema: &Schema,
    ) -> Result<(), TargetError>
        requires sound { IsTrue (sound self.old) }
        requires proper { IsProper (Alter table.now schema.now) (content self.old) }
        ensures written { Writes (Alter table.now (in_order schema.now)) (full self.old) (content self.old) (content self.new) result }
        ensures calls { Grows (Alter table.now (in_order schema.now)) (calls self.old) (calls self.new) result }
        ensures sound { IsTrue (sound self.new) ↔ NotFailed result }
        ensures faults { faults self.old ≤ faults self.new }
        ensures failed { IsErrOf result TargetError.Failed → Rose (faults self.old) (faults self.new) }
        ensures whole { IsErrOf result TargetError.Failed → IsWhole (Alter table.now (in_order schema.now)) (content self.old) (content self.new) (calls self.old) (calls self.new) };

    /// Carries out operations on a table, one after another.
    fn apply(&mut self, alloc: Global, table: &TableName, ops: &[RowOp]) -> Result<(), TargetError>
        requires sound { IsTrue (sound self.old) }
        requires proper { IsProper (Apply table.now ops.now) (content self.old) }
        ensures written { Writes (Apply table.now ops.now) (full self.old) (content self.old) (content self.new) result }
        ensures calls { Grows (Apply table.now ops.now) (calls self.old) (calls self.new) result }
        ensures sound { IsTrue (sound self.new) ↔ NotFailed result }
        ensures faults { faults self.old ≤ faults self.new }
        ensures failed { IsErrOf result TargetError.Failed → Rose (faults self.old) (faults self.new) }
        ensures whole { IsErrOf result TargetError.Failed → IsWhole (Apply table.now ops.now) (content self.old) (content self.new) (calls self.old) (calls self.new) };

    /// Sets texts; a text takes the place of an earlier one of its name.
    fn put_meta(&mut self, alloc: Global, pairs: &[Meta]) -> Result<(), TargetError>
        requires sound { IsTrue (sound self.old) }
        requires proper { IsProper (Metas pairs.now) (content self.old) }
        ensures written { Writes (Metas pairs.now) (full self.old) (content self.old) (content self.new) result }
        ensures calls { Grows (Metas pairs.now) (calls self.old) (calls self.new) result }
        ensures sound { IsTrue (sound self.new) ↔ NotFailed result }
        ensures faults { faults self.old ≤ faults self.new }
        ensures failed { IsErrOf result TargetError.Failed → Rose (faults self.old) (faults self.new) }
        ensures whole { IsErrOf result TargetError.Failed → IsWhole (Metas pairs.now) (content self.old) (content self.new) (calls self.old) (calls self.new) };

    /// The schema of a table.
    fn schema(&self, table: &TableName) -> Option<&Schema>
        requires { IsTrue (sound self.now) }
        ensures { IfSome (content self.now) (λ c. option_copied result ≡ option_map (λ t. t.layout) (table_of c table.now)) };

    /// The text of a name.
    fn meta(&self, name: &[u8]) -> Option<&Bytes>
        requires { IsTrue (sound self.now) }
        ensures { IfSome (content self.now) (λ c. option_copied result ≡ meta_of c name.now) };

    /// Up to `count` rows of a table in order of the primary key, from a place on; none where there is no such table.
    fn rows_from(
        &self,
        alloc: Global,
        table: &TableName,
        place: u64,
        count: u32,
    ) -> Result<Rows, AllocError>
        requires { IsTrue (sound self.now) }
        ensures { IfOk result (λ rows. IfSome (content self.now) (λ c. rows ≡ take count (drop place (rows_of (table_of c table.now))))) };

    /// Whether no writing call has failed.
    fn is_sound(&self) -> bool
        ensures { result ≡ sound self.now };
}
