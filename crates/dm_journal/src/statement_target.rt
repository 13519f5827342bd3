ghost use Rattle.std.specs.Prelude.{◌≡◌, ◌≤◌, ◌↔◌, Some, None, is_none, IfSome, IsErrOf, IsTrue};
ghost use Rattle.dm_base.specs.Outside.{Rose};
ghost use Rattle.dm_schema.specs.Schemas.{in_order};
ghost use Rattle.dm_target.specs.Memory.{calls_of, content_of};
ghost use Rattle.dm_target.specs.Writing.{Grows, IsProper, IsWhole, NotFailed, Writes};
ghost use Rattle.dm_target.specs.declared.call.Call.TheVariants.{Create, Alter, Apply, Metas};
ghost use Rattle.dm_journal.specs.Framing.{framed};
ghost use Rattle.dm_journal.specs.Journaled.{Appends, IsHeldIn, IsJournaled, call_text, held, is_full};

use crate::call_texts::{alter_text, create_text, metas_text, ops_text};
use crate::parts::Parts;
use dm_base::Journal;
use dm_list::{Bytes, Copied, Sequence};
use dm_schema::{Schema, TableName};
use dm_table::{RowOp, TableFault};
use dm_target::{Call, MemoryTarget, Meta, Target, TargetError, copy_metas, copy_ops, in_order};
use dm_value::Rows;
use std::alloc::{AllocError, Global};
use std::marker::Model;

/// A target whose calls are written to a journal: each call that has an effect appends one record. What the records lead to
/// is kept in memory.
///
/// Where an append fails, the call is in doubt, and no call may follow: it took its effect where the record is whole.
#[derive(Drop)]
pub struct StatementTarget<J: Journal> {
    parts: Parts<J>,
}

impl<J: Journal> Model for StatementTarget<J> {
    ghost use Rattle.std.specs.Coded.{codes};
    ghost use Rattle.dm_target.specs.Maps.{coded_tables, coded_texts};
    ghost use Rattle.dm_journal.specs.declared.parts.Parts.{Parts};
    ghost use Rattle.dm_journal.specs.Journaled.{IsJournaled};

    ghost Value = { Parts J };

    ghost coded = { Prim.hlevel (codes, coded_tables, coded_texts) };

    ghost view = { λ target. target.parts };

    ghost invariant = { λ target. IsJournaled (J.bytes target.parts.journal) target.parts.kept target.parts.size target.parts.doubt };
}

impl<J: Journal> StatementTarget<J> {
    /// A target over a journal whose records lead to what is kept.
    pub(crate) fn new(journal: J, kept: MemoryTarget, size: usize) -> StatementTarget<J>
        requires { IsJournaled (J.bytes journal) kept size None }
        ensures { result ≡ record { journal = journal; kept = kept; size = size; doubt = None } }
    {
        StatementTarget {
            parts: Parts {
                journal,
                kept,
                size,
                doubt: None,
            },
        }
    }

    /// The journal, as the calls left it.
    pub fn close(self) -> J
        ensures journal { result ≡ self.journal }
        ensures holds { IfSome (J.bytes self.journal) (λ bytes. IsHeldIn bytes (held (J.bytes self.journal) self.kept self.doubt)) }
    {
        self.parts.journal
    }
}

impl<J: Journal> Target for StatementTarget<J> {
    ghost content = { λ target. Some (content_of (held (J.bytes target.journal) target.kept target.doubt)) };

    ghost calls = { λ target. Some (calls_of (held (J.bytes target.journal) target.kept target.doubt)) };

    ghost faults = { λ target. J.faults target.journal };

    ghost sound = { λ target. is_none target.doubt };

    ghost full = { λ target call. is_full target.size (call_text (content_of target.kept) call) };

    fn create(
        &mut self,
        alloc: Global,
        table: &TableName,
        schema: &Schema,
    ) -> Result<(), TargetError>
        requires sound { IsTrue (is_none self.old.doubt) }
        requires proper { IsProper (Create table.now schema.now) (Some (content_of (held (J.bytes self.old.journal) self.old.kept self.old.doubt))) }
        ensures written { Writes (Create table.now (in_order schema.now)) (λ call. is_full self.old.size (call_text (content_of self.old.kept) call)) (Some (content_of (held (J.bytes self.old.journal) self.old.kept self.old.doubt))) (Some (content_of (held (J.bytes self.new.journal) self.new.kept self.new.doubt))) result }
        ensures calls { Grows (Create table.now (in_order schema.now)) (Some (calls_of (held (J.bytes self.old.journal) self.old.kept self.old.doubt))) (Some (calls_of (held (J.bytes self.new.journal) self.new.kept self.new.doubt))) result }
        ensures sound { IsTrue (is_none self.new.doubt) ↔ NotFailed result }
        ensures faults { J.faults self.old.journal ≤ J.faults self.new.journal }
        ensures failed { IsErrOf result TargetError.Failed → Rose (J.faults self.old.journal) (J.faults self.new.journal) }
        ensures whole { IsErrOf result TargetError.Failed → IsWhole (Create table.now (in_order schema.now)) (Some (content_of (held (J.bytes self.old.journal) self.old.kept self.old.doubt))) (Some (content_of (held (J.bytes self.new.journal) self.new.kept self.new.doubt))) (Some (calls_of (held (J.bytes self.old.journal) self.old.kept self.old.doubt))) (Some (calls_of (held (J.bytes self.new.journal) self.new.kept self.new.doubt))) }
        ensures appends { Appends (framed (call_text (content_of self.old.kept) (Create table.now (in_order schema.now)))) (J.bytes self.old.journal) (J.bytes self.new.journal) result }
    {
        let ordered = in_order(alloc, schema)?;
        let text = create_text(alloc, &self.parts.kept, table, schema, &ordered)?;
        let call = Call::Create {
            table: table.copy(alloc)?,
            schema: ordered,
        };
        self.parts.write(alloc, call, &text)
    }

    fn alter(
        &mut self,
        alloc: Global,
        table: &TableName,
        schema: &Schema,
    ) -> Result<(), TargetError>
        requires sound { IsTrue (is_none self.old.doubt) }
        requires proper { IsProper (Alter table.now schema.now) (Some (content_of (held (J.bytes self.old.journal) self.old.kept self.old.doubt))) }
        ensures written { Writes (Alter table.now (in_order schema.now)) (λ call. is_full self.old.size (call_text (content_of self.old.kept) call)) (Some (content_of (held (J.bytes self.old.journal) self.old.kept self.old.doubt))) (Some (content_of (held (J.bytes self.new.journal) self.new.kept self.new.doubt))) result }
        ensures calls { Grows (Alter table.now (in_order schema.now)) (Some (calls_of (held (J.bytes self.old.journal) self.old.kept self.old.doubt))) (Some (calls_of (held (J.bytes self.new.journal) self.new.kept self.new.doubt))) result }
        ensures sound { IsTrue (is_none self.new.doubt) ↔ NotFailed result }
        ensures faults { J.faults self.old.journal ≤ J.faults self.new.journal }
        ensures failed { IsErrOf result TargetError.Failed → Rose (J.faults self.old.journal) (J.faults self.new.journal) }
        ensures whole { IsErrOf result TargetError.Failed → IsWhole (Alter table.now (in_order schema.now)) (Some (content_of (held (J.bytes self.old.journal) self.old.kept self.old.doubt))) (Some (content_of (held (J.bytes self.new.journal) self.new.kept self.new.doubt))) (Some (calls_of (held (J.bytes self.old.journal) self.old.kept self.old.doubt))) (Some (calls_of (held (J.bytes self.new.journal) self.new.kept self.new.doubt))) }
        ensures appends { Appends (framed (call_text (content_of self.old.kept) (Alter table.now (in_order schema.now)))) (J.bytes self.old.journal) (J.bytes self.new.journal) result }
    {
        let ordered = in_order(alloc, schema)?;
        let Some(text) = alter_text(alloc, &self.parts.kept, table, schema, &ordered)? else {
            return Err(TargetError::Rejected(TableFault::PrimaryDiffers));
        };
        let call = Call::Alter {
            table: table.copy(alloc)?,
            schema: ordered,
        };
        self.parts.write(alloc, call, &text)
    }

    fn apply(&mut self, alloc: Global, table: &TableName, ops: &[RowOp]) -> Result<(), TargetError>
        requires sound { IsTrue (is_none self.old.doubt) }
        requires proper { IsProper (Apply table.now ops.now) (Some (content_of (held (J.bytes self.old.journal) self.old.kept self.old.doubt))) }
        ensures written { Writes (Apply table.now ops.now) (λ call. is_full self.old.size (call_text (content_of self.old.kept) call)) (Some (content_of (held (J.bytes self.old.journal) self.old.kept self.old.doubt))) (Some (content_of (held (J.bytes self.new.journal) self.new.kept self.new.doubt))) result }
        ensures calls { Grows (Apply table.now ops.now) (Some (calls_of (held (J.bytes self.old.journal) self.old.kept self.old.doubt))) (Some (calls_of (held (J.bytes self.new.journal) self.new.kept self.new.doubt))) result }
        ensures sound { IsTrue (is_none self.new.doubt) ↔ NotFailed result }
        ensures faults { J.faults self.old.journal ≤ J.faults self.new.journal }
        ensures failed { IsErrOf result TargetError.Failed → Rose (J.faults self.old.journal) (J.faults self.new.journal) }
        ensures whole { IsErrOf result TargetError.Failed → IsWhole (Apply table.now ops.now) (Some (content_of (held (J.bytes self.old.journal) self.old.kept self.old.doubt))) (Some (content_of (held (J.bytes self.new.journal) self.new.kept self.new.doubt))) (Some (calls_of (held (J.bytes self.old.journal) self.old.kept self.old.doubt))) (Some (calls_of (held (J.bytes self.new.journal) self.new.kept self.new.doubt))) }
        ensures appends { Appends (framed (call_text (content_of self.old.kept) (Apply table.now ops.now))) (J.bytes self.old.journal) (J.bytes self.new.journal) result }
    {
        let text = ops_text(alloc, &self.parts.kept, table, ops)?;
        let call = Call::Apply {
            table: table.copy(alloc)?,
            ops: copy_ops(alloc, ops)?,
        };
        self.parts.write(alloc, call, &text)
    }

    fn put_meta(&mut self, alloc: Global, pairs: &[Meta]) -> Result<(), TargetError>
        requires sound { IsTrue (is_none self.old.doubt) }
        requires proper { IsProper (Metas pairs.now) (Some (content_of (held (J.bytes self.old.journal) self.old.kept self.old.doubt))) }
        ensures written { Writes (Metas pairs.now) (λ call. is_full self.old.size (call_text (content_of self.old.kept) call)) (Some (content_of (held (J.bytes self.old.journal) self.old.kept self.old.doubt))) (Some (content_of (held (J.bytes self.new.journal) self.new.kept self.new.doubt))) result }
        ensures calls { Grows (Metas pairs.now) (Some (calls_of (held (J.bytes self.old.journal) self.old.kept self.old.doubt))) (Some (calls_of (held (J.bytes self.new.journal) self.new.kept self.new.doubt))) result }
        ensures sound { IsTrue (is_none self.new.doubt) ↔ NotFailed result }
        ensures faults { J.faults self.old.journal ≤ J.faults self.new.journal }
        ensures failed { IsErrOf result TargetError.Failed → Rose (J.faults self.old.journal) (J.faults self.new.journal) }
        ensures whole { IsErrOf result TargetError.Failed → IsWhole (Metas pairs.now) (Some (content_of (held (J.bytes self.old.journal) self.old.kept self.old.doubt))) (Some (content_of (held (J.bytes self.new.journal) self.new.kept self.new.doubt))) (Some (calls_of (held (J.bytes self.old.journal) self.old.kept self.old.doubt))) (Some (calls_of (held (J.bytes self.new.journal) self.new.kept self.new.doubt))) }
        ensures appends { Appends (framed (call_text (content_of self.old.kept) (Metas pairs.now))) (J.bytes self.old.journal) (J.bytes self.new.journal) result }
    {
        let text = metas_text(alloc, &self.parts.kept, pairs)?;
        let call = Call::Metas {
            pairs: copy_metas(alloc, pairs)?,
        };
        self.parts.write(alloc, call, &text)
    }

    fn schema(&self, table: &TableName) -> Option<&Schema> {
        self.parts.kept.schema(table)
    }

    fn meta(&self, name: &[u8]) -> Option<&Bytes> {
        self.parts.kept.meta(name)
    }

    fn rows_from(
        &self,
        alloc: Global,
        table: &TableName,
        place: u64,
        count: u32,
    ) -> Result<Rows, AllocError> {
        self.parts.kept.rows_from(alloc, table, place, count)
    }

    fn is_sound(&self) -> bool {
        self.parts.doubt.is_none()
    }
}
