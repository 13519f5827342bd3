ghost use Rattle.std.specs.Prelude.{IsTrue, IfOk};
ghost use Rattle.std.specs.List.{list_all};
ghost use Rattle.dm_schema.specs.Kinds.{is_column};
ghost use Rattle.dm_target.specs.Writing.{IsProper};

use crate::{JournalFault, StatementTarget, open_target};
use dm_base::{Journal, MemoryJournal};
use dm_list::{Bytes, Sequence};
use dm_schema::{Column, DefaultRule, Kind, Schema, TableName};
use dm_table::RowOp;
use dm_target::{Call, Meta, Target, TargetError, is_proper};
use dm_value::{Name, Names, Row, Value};
use std::alloc::{AllocError, Global};
use std::test::Fail;

/// Four records, which end at the bytes 250, 351, 423 and 494.
const WRITTEN: &[u8; 494] = b"\
-- dm 0000000233
BEGIN;
REPLACE INTO `dm_meta`.`state` (`name`,`text`) VALUES ('lock `m`.`t`','{\"order\":[],\"version\":1}');
REPLACE INTO `dm_meta`.`state` (`name`,`text`) VALUES ('shard a `s`.`t0`','{\"position\":0,\"version\":1,\"window\":1000}');
COMMIT;
-- dm 0000000084
CREATE TABLE `m`.`t` (`id` INT NOT NULL, `v` VARCHAR(20) NULL, PRIMARY KEY (`id`));
-- dm 0000000055
ALTER TABLE `m`.`t` ADD COLUMN `d` INT NULL DEFAULT 5;
-- dm 0000000054
BEGIN;
INSERT INTO `m`.`t` (`id`) VALUES (1);
COMMIT;
";

/// Where the records begin, and where the last ends.
const ENDS: [usize; 5] = [0, 250, 351, 423, 494];

fn bytes(alloc: Global, text: &[u8]) -> Result<Bytes, AllocError> {
    Ok(Bytes::new(text.to_vec(alloc)?))
}

fn meta(alloc: Global, name: &[u8], text: &[u8]) -> Result<Meta, AllocError> {
    Ok(Meta {
        name: bytes(alloc, name)?,
        text: bytes(alloc, text)?,
    })
}

fn metas(alloc: Global) -> Result<Call, AllocError> {
    let lock = meta(alloc, b"lock `m`.`t`", b"{\"order\":[],\"version\":1}")?;
    let text = b"{\"position\":0,\"version\":1,\"window\":1000}";
    let shard = meta(alloc, b"shard a `s`.`t0`", text)?;
    Ok(Call::Metas {
        pairs: Sequence::new(vec![in alloc; lock, shard]?),
    })
}

fn table(alloc: Global) -> Result<TableName, AllocError> {
    Ok(TableName {
        db: Name::new(b"m".to_vec(alloc)?),
        table: Name::new(b"t".to_vec(alloc)?),
    })
}

fn id(alloc: Global) -> Result<Column, AllocError>
    ensures { IfOk result (λ column. IsTrue (is_column column)) }
{
    Ok(Column {
        name: Name::new(b"id".to_vec(alloc)?),
        kind: Kind::Signed(4),
        nullable: false,
        default_rule: DefaultRule::Nothing,
    })
}

fn v(alloc: Global) -> Result<Column, AllocError>
    ensures { IfOk result (λ column. IsTrue (is_column column)) }
{
    Ok(Column {
        name: Name::new(b"v".to_vec(alloc)?),
        kind: Kind::Varchar(20),
        nullable: true,
        default_rule: DefaultRule::Nothing,
    })
}

fn d(alloc: Global) -> Result<Column, AllocError>
    ensures { IfOk result (λ column. IsTrue (is_column column)) }
{
    Ok(Column {
        name: Name::new(b"d".to_vec(alloc)?),
        kind: Kind::Signed(4),
        nullable: true,
        default_rule: DefaultRule::Const(Value::Int(5)),
    })
}

fn columns(alloc: Global, is_wide: bool) -> Result<Vec<Column>, AllocError>
    ensures { IfOk result (λ columns. IsTrue (list_all is_column columns.items)) }
{
    if !is_wide {
        return Ok(vec![in alloc; id(alloc)?, v(alloc)?]?);
    }
    Ok(vec![in alloc; id(alloc)?, v(alloc)?, d(alloc)?]?)
}

fn primary(alloc: Global) -> Result<Names, AllocError> {
    let id = Name::new(b"id".to_vec(alloc)?);
    Ok(Names::new(vec![in alloc; id]?))
}

fn schema(alloc: Global, is_wide: bool) -> Result<Schema, Fail> {
    let columns = columns(alloc, is_wide)?;
    Ok(Schema::new(columns, primary(alloc)?, Vec::new(alloc))?)
}

fn insertion(alloc: Global) -> Result<Call, AllocError> {
    let op = RowOp::Insert {
        columns: primary(alloc)?,
        row: Row::new(vec![in alloc; Value::Int(1)]?),
    };
    Ok(Call::Apply {
        table: table(alloc)?,
        ops: Sequence::new(vec![in alloc; op]?),
    })
}

fn call_of(alloc: Global, number: u64) -> Result<Call, Fail> {
    Ok(match number {
        0 => metas(alloc)?,
        1 => Call::Create {
            table: table(alloc)?,
            schema: schema(alloc, false)?,
        },
        2 => Call::Alter {
            table: table(alloc)?,
            schema: schema(alloc, true)?,
        },
        _ => insertion(alloc)?,
    })
}

fn made<T: Target>(alloc: Global, target: &mut T, call: &Call) -> Result<(), TargetError>
    requires sound { IsTrue (T.sound target.old) }
    requires proper { IsProper call.now (T.content target.old) }
{
    match call {
        Call::Create { table, schema } => target.create(alloc, table, schema),
        Call::Alter { table, schema } => target.alter(alloc, table, schema),
        Call::Apply { table, ops } => target.apply(alloc, table, ops.as_slice()),
        Call::Metas { pairs } => target.put_meta(alloc, pairs.as_slice()),
    }
}

/// Makes a call where the target is sound and the call proper.
fn make<T: Target>(alloc: Global, target: &mut T, number: u64) -> Result<(), Fail> {
    if !target.is_sound() {
        return Ok(());
    }
    let call = call_of(alloc, number)?;
    if is_proper(alloc, target, &call)? {
        drop(made(alloc, target, &call));
    }
    Ok(())
}

fn make_all<T: Target>(alloc: Global, target: &mut T) -> Result<(), Fail> {
    for number in 0..4 {
        make(alloc, target, number)?;
    }
    Ok(())
}

/// The journal behind all calls, which is empty before them, and whose calls fail where they are told to.
fn journal(
    alloc: Global,
    failing: Vec<u64>,
    kept: Vec<u64>,
) -> Result<Option<MemoryJournal>, Fail> {
    let journal = MemoryJournal::new(Vec::new(alloc), failing, kept);
    let Ok(mut target) = open_target(alloc, journal) else {
        return Ok(None);
    };
    make_all(alloc, &mut target)?;
    Ok(Some(target.close()))
}

fn bytes_behind(alloc: Global, failing: Vec<u64>, kept: Vec<u64>) -> Result<Vec<u8>, Fail> {
    match journal(alloc, failing, kept)? {
        Some(journal) => Ok(journal.bytes().to_vec(alloc)?),
        None => Ok(Vec::new(alloc)),
    }
}

/// The bytes behind all calls, where the append of a record fails, and so many bytes of it stay. The load is the first call.
fn broken(alloc: Global, record: u64, kept: u64) -> Result<Vec<u8>, Fail> {
    let failing = vec![in alloc; record.saturating_add(2)]?;
    bytes_behind(alloc, failing, vec![in alloc; kept]?)
}

/// How many bytes are left of a journal that is opened.
fn left(alloc: Global, bytes: &[u8]) -> Result<Option<usize>, AllocError> {
    let journal = MemoryJournal::new(bytes.to_vec(alloc)?, Vec::new(alloc), Vec::new(alloc));
    match open_target(alloc, journal) {
        Ok(target) => Ok(Some(target.close().bytes().len())),
        Err(_) => Ok(None),
    }
}

/// Why a journal is not opened, and how many bytes it has then.
fn fault(
    alloc: Global,
    bytes: &[u8],
    failing: Vec<u64>,
) -> Result<Option<(JournalFault, usize)>, AllocError> {
    let journal = MemoryJournal::new(bytes.to_vec(alloc)?, failing, Vec::new(alloc));
    match open_target(alloc, journal) {
        Ok(_) => Ok(None),
        Err(not) => Ok(Some((not.fault, not.journal.bytes().len()))),
    }
}

fn front(end: usize) -> &'static [u8] {
    WRITTEN.get(..end).unwrap_or(b"")
}

/// Where the last whole record ends.
fn whole(end: usize) -> usize {
    let mut last = 0;
    for place in ENDS {
        if place <= end {
            last = place;
        }
    }
    last
}

#[test]
fn each_call_writes_its_record(rt: HostRuntime) -> Result<(), Fail> {
    let alloc = rt.alloc();
    let bytes = bytes_behind(alloc, Vec::new(alloc), Vec::new(alloc))?;
    assert_eq!(rt; bytes.as_slice(), WRITTEN.as_slice());
    Ok(())
}

/// Whether an append of a record that fails leaves the records before it, and what was kept of it, for each byte from the
/// record's first on, before `end`.
fn is_kept(alloc: Global, record: u64, begin: usize, end: usize) -> Result<bool, Fail> {
    for stop in begin..end {
        let bytes = broken(alloc, record, stop.saturating_sub(begin) as u64)?;
        if bytes.as_slice() != front(stop) {
            return Ok(false);
        }
    }
    Ok(true)
}

#[test]
fn a_failed_append_leaves_a_front_of_its_record(rt: HostRuntime) -> Result<(), Fail> {
    assert!(rt; is_kept(rt.alloc(), 0, 0, 251)?);
    assert!(rt; is_kept(rt.alloc(), 1, 250, 352)?);
    assert!(rt; is_kept(rt.alloc(), 2, 351, 424)?);
    assert!(rt; is_kept(rt.alloc(), 3, 423, 495)?);
    Ok(())
}

#[test]
fn a_torn_rest_is_cut_and_nothing_else(rt: HostRuntime) -> Result<(), Fail> {
    for end in 0..495 {
        assert_eq!(rt; left(rt.alloc(), front(end))?, Some(whole(end)));
    }
    Ok(())
}

#[test]
fn a_bad_record_is_told_and_stays(rt: HostRuntime) -> Result<(), Fail> {
    let alloc = rt.alloc();
    let mut bytes = front(351).to_vec(alloc)?;
    bytes.push(b'x')?;
    let bad = Some((JournalFault::Bad { at: 351 }, 352));
    assert_eq!(rt; fault(alloc, &bytes, Vec::new(alloc))?, bad);
    Ok(())
}

#[test]
fn a_cut_that_fails_leaves_all(rt: HostRuntime) -> Result<(), Fail> {
    let alloc = rt.alloc();
    let failed = Some((JournalFault::Failed, 300));
    assert_eq!(rt; fault(alloc, front(300), vec![in alloc; 2]?)?, failed);
    Ok(())
}
