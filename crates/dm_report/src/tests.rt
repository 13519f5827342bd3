mod shows;

use crate::text::{push_head, push_row};
use crate::{Status, Which, fault_line};
use dm_dump::DumpCause;
use dm_join::JoinCause;
use dm_list::Bytes;
use dm_schema::{Column, DefaultRule, Kind, Names, TableName, UniqueKey};
use dm_task::TaskCause;
use dm_value::{Name, Value};
use std::alloc::{AllocError, Global};
use std::test::Fail;

fn name(alloc: Global, text: &[u8]) -> Result<Name, AllocError> {
    Ok(Name::new(text.to_vec(alloc)?))
}

fn string(alloc: Global, text: &[u8]) -> Result<Value, AllocError> {
    Ok(Value::Bytes(Bytes::new(text.to_vec(alloc)?)))
}

fn column(
    alloc: Global,
    text: &[u8],
    kind: Kind,
    default_rule: DefaultRule,
) -> Result<Column, AllocError> {
    Ok(Column {
        name: name(alloc, text)?,
        kind,
        nullable: true,
        default_rule,
    })
}

#[test]
fn prints_a_table(rt: HostRuntime) -> Result<(), Fail> {
    let alloc = rt.alloc();
    let columns = vec![in alloc;
        column(alloc, b"id", Kind::Signed(4), DefaultRule::Nothing)?,
        column(alloc, b"v", Kind::Varchar(20), DefaultRule::Nothing)?,
    ]?;
    let primary = vec![in alloc; name(alloc, b"id")?]?;
    let mut out = Vec::new(alloc);
    push_head(alloc, &mut out, &columns, &primary, &[], 3)?;
    let first = vec![in alloc; Value::Int(1), string(alloc, b"x")?]?;
    push_row(alloc, &mut out, &columns, &first)?;
    let second = vec![in alloc; Value::Int(2), Value::Null]?;
    push_row(alloc, &mut out, &columns, &second)?;
    let third = vec![in alloc; Value::Int(11), string(alloc, b"it's")?]?;
    push_row(alloc, &mut out, &columns, &third)?;
    let want = b"column `id` INT NULL\n\
        column `v` VARCHAR(20) NULL\n\
        primary (`id`)\n\
        rows 3\n\
        row (1,'x')\n\
        row (2,NULL)\n\
        row (11,'it\\'s')\n";
    assert_eq!(rt; out.as_slice(), want.as_slice());
    Ok(())
}

fn default_columns(alloc: Global) -> Result<Vec<Column>, AllocError> {
    let constant = DefaultRule::Const(Value::Int(-1));
    let first = column(alloc, b"a`b", Kind::Signed(2), constant)?;
    let second = column(alloc, b"t", Kind::Datetime(3), DefaultRule::Now)?;
    Ok(vec![in alloc; first, second]?)
}

fn unique(alloc: Global, text: &[u8], column: &[u8]) -> Result<UniqueKey, AllocError> {
    let columns = vec![in alloc; name(alloc, column)?]?;
    Ok(UniqueKey {
        name: name(alloc, text)?,
        columns: Names::new(columns),
    })
}

#[test]
fn prints_keys_and_defaults(rt: HostRuntime) -> Result<(), Fail> {
    let alloc = rt.alloc();
    let columns = default_columns(alloc)?;
    let primary = vec![in alloc; name(alloc, b"t")?, name(alloc, b"a`b")?]?;
    let uniques = vec![in alloc; unique(alloc, b"k", b"a`b")?, unique(alloc, b"l", b"t")?]?;
    let mut out = Vec::new(alloc);
    push_head(alloc, &mut out, &columns, &primary, &uniques, 0)?;
    let want = b"column `a``b` SMALLINT NULL DEFAULT -1\n\
        column `t` DATETIME(3) NULL DEFAULT CURRENT_TIMESTAMP(3)\n\
        primary (`t`,`a``b`)\n\
        unique `k` (`a``b`)\n\
        unique `l` (`t`)\n\
        rows 0\n";
    assert_eq!(rt; out.as_slice(), want.as_slice());
    Ok(())
}

fn bytes(alloc: Global, text: &[u8]) -> Result<Bytes, AllocError> {
    Ok(Bytes::new(text.to_vec(alloc)?))
}

/// A status of each kind that has fields.
fn faults(alloc: Global) -> Result<Vec<Status>, AllocError> {
    let task = Status::Task {
        path: bytes(alloc, b"source[0].name")?,
        cause: TaskCause::Repeated,
    };
    let dump = Status::Dump {
        file: bytes(alloc, b"b.sql")?,
        at: 4_294_967_295,
        cause: DumpCause::SecondCreate,
    };
    let first = Status::First {
        table: TableName {
            db: name(alloc, b"m")?,
            table: name(alloc, b"a`b")?,
        },
        column: name(alloc, b"v")?,
        cause: JoinCause::MissingNoFill,
    };
    let missing = Status::Missing {
        name: bytes(alloc, b"a.sql")?,
    };
    let limit = Status::Limit {
        which: Which::Values,
    };
    Ok(vec![in alloc; task, limit, missing, dump, first]?)
}

/// The exit status and the line of each status.
fn lines(alloc: Global, statuses: &[Status]) -> Result<String, AllocError> {
    let mut all = String::new(alloc);
    for status in statuses {
        let line = fault_line(alloc, status)?;
        let code = status.code().to_string(alloc)?;
        all.push_str(code.as_str())?;
        all.push_str(" ")?;
        all.push_str(std::str::from_utf8(line.as_slice()).unwrap_or("no text"))?;
    }
    Ok(all)
}

#[test]
fn tells_faults_with_their_fields(rt: HostRuntime) -> Result<(), Fail> {
    let alloc = rt.alloc();
    let want = "2 fault Task source[0].name Repeated\n\
        9 fault Limit Values\n\
        11 fault Missing a.sql\n\
        12 fault Dump b.sql 4294967295 SecondCreate\n\
        13 fault First `m`.`a``b` NoJoin `v` MissingNoFill\n";
    assert_eq!(rt; lines(alloc, &faults(alloc)?)?.as_str(), want);
    Ok(())
}

#[test]
fn tells_faults_without_fields(rt: HostRuntime) -> Result<(), Fail> {
    let alloc = rt.alloc();
    let statuses = [
        Status::Usage,
        Status::ReadFault,
        Status::TargetFault,
        Status::Unlawful,
    ];
    let want = "1 fault Usage\n4 fault ReadFault\n6 fault TargetFault\n10 fault Unlawful\n";
    assert_eq!(rt; lines(alloc, &statuses)?.as_str(), want);
    let silent = [Status::Done, Status::WriteFault, Status::Memory];
    assert_eq!(rt; lines(alloc, &silent)?.as_str(), "0 5 7 ");
    Ok(())
}

#[test]
fn tells_faults_of_a_journal(rt: HostRuntime) -> Result<(), Fail> {
    let statuses = [
        Status::JournalBad { at: 4_294_967_295 },
        Status::Limit {
            which: Which::Journal,
        },
    ];
    let want = "8 fault JournalBad 4294967295\n9 fault Limit Journal\n";
    assert_eq!(rt; lines(rt.alloc(), &statuses)?.as_str(), want);
    Ok(())
}
