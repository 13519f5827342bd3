ghost use Rattle.std.specs.Prelude.{◌≡◌, Some, true, false, [], IfOk};
ghost use Rattle.std.specs.FinMap as fin;
ghost use Rattle.dm_target.specs.Contents.{no_content};
ghost use Rattle.dm_target.specs.Memory.{calls_of, content_of};
ghost use Rattle.dm_target.specs.Writing.{Writes, Grows, IsTried, NotFailed};

use crate::copies::{copy_metas, copy_ops};
use crate::ordered::in_order;
use crate::tables::Tables;
use crate::texts::Texts;
use crate::{Call, Meta, Target, TargetError};
use dm_list::{Bytes, Copied};
use dm_schema::{Schema, TableName};
use dm_table::{RowOp, Table};
use dm_value::Rows;
use http_server::Log;
use std::alloc::{AllocError, Global};
use std::collections::BTreeMap;

/// A target that is kept in memory. It never fails and is never full.
///
/// Each call that sets texts copies all that are there.
#[derive(Drop)]
pub struct MemoryTarget {
    tables: Tables,
    texts: Texts,
    /// The calls that took effect, for contracts alone: the history has no bytes.
    calls: Log<Call, ()>,
}

impl MemoryTarget {
    /// A target without tables and texts.
    pub fn new(alloc: Global) -> MemoryTarget
        ensures content { content_of result ≡ no_content }
        ensures calls { calls_of result ≡ [] }
    {
        MemoryTarget {
            tables: Tables::new(alloc),
            texts: Texts::new(alloc),
            calls: Log::new(),
        }
    }

    /// The names of the tables in byte order, by database and then by table.
    pub fn tables(&self, alloc: Global) -> Result<Vec<TableName>, AllocError>
        ensures { IfOk result (λ names. names.items ≡ fin.keys self.now.tables) }
    {
        self.tables.names(alloc)
    }

    /// The names of the texts in byte order.
    pub fn metas(&self, alloc: Global) -> Result<Vec<Bytes>, AllocError>
        ensures { IfOk result (λ names. names.items ≡ fin.keys self.now.texts) }
    {
        self.texts.names(alloc)
    }

    /// The tables under their names, in byte order of these.
    pub fn tables_in_order(&self) -> &BTreeMap<TableName, Table>
        ensures { result.now.entries ≡ fin.entries self.now.tables }
    {
        self.tables.in_order()
    }

    /// The texts under their names, in byte order of these.
    pub fn metas_in_order(&self) -> &BTreeMap<Bytes, Bytes>
        ensures { result.now.entries ≡ fin.entries self.now.texts }
    {
        self.texts.in_order()
    }

    /// Makes a call, whatever is asked of calls of targets. The columns and unique keys of its schema stay in their order.
    pub fn carry_out(&mut self, alloc: Global, call: Call) -> Result<(), TargetError>
        ensures written { Writes call (λ _. false) (Some (content_of self.old)) (Some (content_of self.new)) result }
        ensures calls { Grows call (Some (calls_of self.old)) (Some (calls_of self.new)) result }
        ensures sound { NotFailed result }
    {
        self.take_effect(alloc, &call)?;
        self.calls = self.calls.and(&call, &());
        Ok(())
    }

    /// What a call would answer, without making it. All that the target holds is copied.
    pub fn tried(&self, alloc: Global, call: &Call) -> Result<(), TargetError>
        ensures tried { IsTried call.now (content_of self.now) result }
    {
        let mut trial = MemoryTarget {
            tables: self.tables.copy(alloc)?,
            texts: self.texts.copy(alloc)?,
            calls: Log::new(),
        };
        trial.take_effect(alloc, call)
    }

    fn take_effect(&mut self, alloc: Global, call: &Call) -> Result<(), TargetError>
        ensures written { Writes call.now (λ _. false) (Some (content_of self.old)) (Some (content_of self.new)) result }
        ensures calls { self.new.calls ≡ self.old.calls }
        ensures sound { NotFailed result }
    {
        match call {
            Call::Create { table, schema } => Ok(self.tables.create(alloc, table, schema)?),
            Call::Alter { table, schema } => Ok(self.tables.alter(alloc, table, schema)?),
            Call::Apply { table, ops } => Ok(self.tables.apply(alloc, table, ops.as_slice())?),
            Call::Metas { pairs } => {
                self.texts = self.texts.with_metas(alloc, pairs.as_slice())?;
                Ok(())
            }
        }
    }
}

impl Target for MemoryTarget {
    ghost content = { λ target. Some (content_of target) };

    ghost calls = { λ target. Some (calls_of target) };

    ghost faults = { λ _. 0 };

    ghost sound = { λ _. true };

    ghost full = { λ _ _. false };

    fn create(
        &mut self,
        alloc: Global,
        table: &TableName,
        schema: &Schema,
    ) -> Result<(), TargetError> {
        let schema = in_order(alloc, schema)?;
        let call = Call::Create {
            table: table.copy(alloc)?,
            schema,
        };
        self.carry_out(alloc, call)
    }

    fn alter(
        &mut self,
        alloc: Global,
        table: &TableName,
        schema: &Schema,
    ) -> Result<(), TargetError> {
        let ordered = in_order(alloc, schema)?;
        let call = Call::Alter {
            table: table.copy(alloc)?,
            schema: ordered,
        };
        self.carry_out(alloc, call)
    }

    fn apply(
        &mut self,
        alloc: Global,
        table: &TableName,
        ops: &[RowOp],
    ) -> Result<(), TargetError> {
        let call = Call::Apply {
            table: table.copy(alloc)?,
            ops: copy_ops(alloc, ops)?,
        };
        self.carry_out(alloc, call)
    }

    fn put_meta(&mut self, alloc: Global, pairs: &[Meta]) -> Result<(), TargetError> {
        let call = Call::Metas {
            pairs: copy_metas(alloc, pairs)?,
        };
        self.carry_out(alloc, call)
    }

    fn schema(&self, table: &TableName) -> Option<&Schema> {
        let table = self.tables.get(table)?;
        Some(table.schema())
    }

    fn meta(&self, name: &[u8]) -> Option<&Bytes> {
        self.texts.get(name)
    }

    fn rows_from(
        &self,
        alloc: Global,
        table: &TableName,
        place: u64,
        count: u32,
    ) -> Result<Rows, AllocError> {
        match self.tables.get(table) {
            Some(table) => table.rows_from(alloc, place, count),
            None => Ok(Rows::new(Vec::new(alloc))),
        }
    }

    fn is_sound(&self) -> bool {
        true
    }
}
