ghost use Rattle.std.specs.Prelude.{◌≡◌, ◌<◌, ◌^◌, length, IfOk, OnOk, IsTrue};
ghost use Rattle.std.specs.List.{list_all};
ghost use Rattle.dm_stmt.specs.Known.{KnownMap};
ghost use Rattle.dm_stmt.specs.Records.{is_record, is_written_change};
ghost use Rattle.dm_journal.specs.Contents.{known_of};
ghost use Rattle.dm_target.specs.Memory.{content_of};
ghost use Rattle.dm_journal.specs.Carrying.{MatchCall, MatchFront, MatchText, judged, known_behind, renewed};

use crate::altering::changed_schema;
use crate::fault::CarryFault;
use crate::framing::{Front, HEADER_SIZE, front_of};
use dm_schema::{Change, Copied, TableName};
use dm_stmt::{Known, Record};
use dm_stmt_read::{RecordFault, read_record};
use dm_target::{Call, MemoryTarget, Target, TargetError, in_order};
use std::alloc::{AllocError, Global};

/// Carries out the record at the front of bytes, and says how many bytes it has. There is none where the bytes are a
/// rest that counts for nothing.
pub(crate) fn take_record(
    alloc: Global,
    target: &mut MemoryTarget,
    known: &mut Known,
    bytes: &[u8],
) -> Result<Option<usize>, CarryFault>
    requires few { length bytes.now < 2 ^ 32 }
    requires known { known.old ≡ known_of (content_of target.old) }
    ensures front { MatchFront bytes.now target.old target.new result }
    ensures known { OnOk result (known.new ≡ known_of (content_of target.new)) }
{
    match front_of(bytes) {
        Front::End | Front::Torn => Ok(None),
        Front::Other => Err(CarryFault::Bad),
        Front::Whole { size } => {
            let end = HEADER_SIZE + size;
            match carry_out(alloc, target, known, &bytes[HEADER_SIZE..end]) {
                Ok(()) => Ok(Some(end)),
                Err(fault) => Err(fault),
            }
        }
    }
}

/// Carries out the record that has this text.
fn carry_out(
    alloc: Global,
    target: &mut MemoryTarget,
    known: &mut Known,
    text: &[u8],
) -> Result<(), CarryFault>
    requires few { length text.now < 2 ^ 32 }
    requires known { known.old ≡ known_of (content_of target.old) }
    ensures text { MatchText text.now target.old target.new result }
    ensures known { OnOk result (known.new ≡ known_of (content_of target.new)) }
{
    let record = match read_record(alloc, text, known) {
        Ok(record) => record,
        Err(RecordFault::NotRecord) => return Err(CarryFault::Bad),
        Err(RecordFault::Memory) => return Err(CarryFault::Memory),
    };
    let renewed = renewed(alloc, &record)?;
    match call(alloc, target, record) {
        Ok(()) => Ok(note(alloc, target, known, &renewed)?),
        Err(fault) => Err(fault),
    }
}

/// Makes the call of a record.
fn call(alloc: Global, target: &mut MemoryTarget, record: Record) -> Result<(), CarryFault>
    requires { (known : KnownMap) × IsTrue (is_record known «record») }
    ensures { MatchCall «record» target.old target.new result }
{
    match record {
        Record::Create { table, schema } => {
            let schema = in_order(alloc, &schema)?;
            judged(target.carry_out(alloc, Call::Create { table, schema }))
        }
        Record::Alter { table, changes } => alter(alloc, target, table, changes.as_slice()),
        Record::Apply { table, ops } => judged(target.carry_out(alloc, Call::Apply { table, ops })),
        Record::Metas { pairs } => judged(target.carry_out(alloc, Call::Metas { pairs })),
    }
}

/// Gives a table the schema that a record's changes make of the one that it has.
fn alter(
    alloc: Global,
    target: &mut MemoryTarget,
    table: TableName,
    changes: &[Change],
) -> Result<(), CarryFault>
    requires { IsTrue (list_all is_written_change changes.now) }
    ensures { MatchCall (Record.Alter table changes.now) target.old target.new result }
{
    let Some(schema) = target.schema(&table) else {
        return Err(CarryFault::Bad);
    };
    match changed_schema(alloc, schema, changes) {
        Ok(after) => {
            let schema = in_order(alloc, &after)?;
            judged(target.carry_out(alloc, Call::Alter { table, schema }))
        }
        Err(fault) => Err(fault),
    }
}

/// What the answer of a target says of a record. A target in memory never fails, and is never full.
fn judged(answer: Result<(), TargetError>) -> Result<(), CarryFault>
    ensures { result ≡ judged answer }
{
    match answer {
        Ok(()) => Ok(()),
        Err(TargetError::Rejected(_)) => Err(CarryFault::Bad),
        Err(TargetError::Failed | TargetError::Full | TargetError::Memory) => {
            Err(CarryFault::Memory)
        }
    }
}

/// The table that a record gives a schema.
fn renewed(alloc: Global, record: &Record) -> Result<Option<TableName>, AllocError>
    ensures { IfOk result (λ table. table ≡ renewed «record».now) }
{
    match record {
        Record::Create { table, .. } | Record::Alter { table, .. } => Ok(Some(table.copy(alloc)?)),
        Record::Apply { .. } | Record::Metas { .. } => Ok(None),
    }
}

/// Notes the schema of a table that was given one, as the target has it.
fn note(
    alloc: Global,
    target: &MemoryTarget,
    known: &mut Known,
    renewed: &Option<TableName>,
) -> Result<(), AllocError>
    ensures { OnOk result (known.new ≡ known_behind renewed.now (content_of target.now) known.old) }
{
    let Some(table) = renewed else {
        return Ok(());
    };
    match target.schema(table) {
        Some(schema) => known.put(alloc, table, schema),
        None => Ok(()),
    }
}
