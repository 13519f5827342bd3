ghost use Rattle.std.specs.Prelude.{◌≡◌, length, IfOk, IsTrue};
ghost use Rattle.std.specs.List.{list_all};
ghost use Rattle.dm_schema.specs.Kinds.{is_column, is_folded, is_key, is_kind};

use crate::{Known, Record, is_record, text_of};
use dm_list::{Bytes, Sequence};
use dm_schema::{Change, Changes, Column, DefaultRule, Kind, Schema, Spot, TableName, UniqueKey};
use dm_table::RowOp;
use dm_target::Meta;
use dm_value::{Name, Names, Row, Value};
use std::alloc::{AllocError, Global};
use std::test::Fail;

fn name(alloc: Global, text: &str) -> Result<Name, AllocError>
    ensures { IfOk result (λ name. name ≡ text.now) }
{
    Ok(Name::new(text.as_bytes().to_vec(alloc)?))
}

fn one_name(alloc: Global, text: &str) -> Result<Names, AllocError>
    ensures { IfOk result (λ names. length names ≡ 1) }
{
    Ok(Names::new(vec![in alloc; name(alloc, text)?]?))
}

fn two_names(alloc: Global, first: &str, second: &str) -> Result<Names, AllocError> {
    Ok(Names::new(vec![in alloc; name(alloc, first)?, name(alloc, second)?]?))
}

fn table_name(alloc: Global, db: &str, table: &str) -> Result<TableName, AllocError> {
    Ok(TableName {
        db: name(alloc, db)?,
        table: name(alloc, table)?,
    })
}

/// A column without a default.
fn column(alloc: Global, text: &str, kind: Kind, nullable: bool) -> Result<Column, AllocError>
    requires name { IsTrue (is_folded text.now) }
    requires kind { IsTrue (is_kind kind) }
    ensures { IfOk result (λ column. IsTrue (is_column column)) }
{
    Ok(Column {
        name: name(alloc, text)?,
        kind,
        nullable,
        default_rule: DefaultRule::Nothing,
    })
}

fn narrow_columns(alloc: Global) -> Result<Vec<Column>, AllocError>
    ensures { IfOk result (λ columns. IsTrue (list_all is_column columns.items)) }
{
    let id = column(alloc, "id", Kind::Signed(4), false)?;
    let v = column(alloc, "v", Kind::Varchar(20), true)?;
    Ok(vec![in alloc; id, v]?)
}

/// `id` INT, `v` VARCHAR(20), PRIMARY KEY (`id`).
fn narrow(alloc: Global) -> Result<Schema, Fail> {
    let id = one_name(alloc, "id")?;
    Ok(Schema::new(narrow_columns(alloc)?, id, Vec::new(alloc))?)
}

fn wide_columns(alloc: Global) -> Result<Vec<Column>, AllocError>
    ensures { IfOk result (λ columns. IsTrue (list_all is_column columns.items)) }
{
    let a = column(alloc, "a", Kind::Signed(4), false)?;
    let b = column(alloc, "b", Kind::Varchar(20), false)?;
    let c = column(alloc, "c`d", Kind::Varbinary(4), true)?;
    Ok(vec![in alloc; a, b, c]?)
}

fn wide_uniques(alloc: Global) -> Result<Vec<UniqueKey>, AllocError>
    ensures { IfOk result (λ keys. IsTrue (list_all is_key keys.items)) }
{
    let key = UniqueKey {
        name: name(alloc, "k")?,
        columns: one_name(alloc, "c`d")?,
    };
    Ok(vec![in alloc; key]?)
}

/// `a` INT, `b` VARCHAR(20), `c``d` VARBINARY(4), PRIMARY KEY (`b`,`a`), UNIQUE KEY `k` (`c``d`).
fn wide(alloc: Global) -> Result<Schema, Fail> {
    let primary = two_names(alloc, "b", "a")?;
    Ok(Schema::new(wide_columns(alloc)?, primary, wide_uniques(alloc)?)?)
}

/// The tables `m`.`t` and, though it is no target's, `dm_meta`.`state`.
fn known(alloc: Global) -> Result<Known, Fail> {
    let mut known = Known::new(alloc);
    let schema = wide(alloc)?;
    known.put(alloc, &table_name(alloc, "m", "t")?, &schema)?;
    known.put(alloc, &table_name(alloc, "dm_meta", "state")?, &schema)?;
    Ok(known)
}

fn meta(alloc: Global, name: &str, text: &str) -> Result<Meta, AllocError> {
    Ok(Meta {
        name: Bytes::new(name.as_bytes().to_vec(alloc)?),
        text: Bytes::new(text.as_bytes().to_vec(alloc)?),
    })
}

fn metas(alloc: Global) -> Result<Record, AllocError> {
    let lock = meta(alloc, "lock `m`.`t`", "{\"order\":[],\"version\":1}")?;
    let shard = meta(
        alloc,
        "shard a `s`.`t0`",
        "{\"position\":0,\"version\":1,\"window\":1000}",
    )?;
    Ok(Record::Metas {
        pairs: Sequence::new(vec![in alloc; lock, shard]?),
    })
}

#[test]
fn writes_texts_under_names(rt: HostRuntime) -> Result<(), Fail> {
    let alloc = rt.alloc();
    let text = text_of(alloc, &metas(alloc)?, &Known::new(alloc))?;
    let want = b"BEGIN;\n\
        REPLACE INTO `dm_meta`.`state` (`name`,`text`) VALUES ('lock `m`.`t`','{\"order\":[],\"version\":1}');\n\
        REPLACE INTO `dm_meta`.`state` (`name`,`text`) VALUES ('shard a `s`.`t0`','{\"position\":0,\"version\":1,\"window\":1000}');\n\
        COMMIT;\n";
    assert_eq!(rt; text.as_slice(), want.as_slice());
    Ok(())
}

#[test]
fn writes_a_create(rt: HostRuntime) -> Result<(), Fail> {
    let alloc = rt.alloc();
    let create = Record::Create {
        table: table_name(alloc, "m", "t")?,
        schema: narrow(alloc)?,
    };
    let text = text_of(alloc, &create, &Known::new(alloc))?;
    let want =
        b"CREATE TABLE `m`.`t` (`id` INT NOT NULL, `v` VARCHAR(20) NULL, PRIMARY KEY (`id`));\n";
    assert_eq!(rt; text.as_slice(), want.as_slice());
    Ok(())
}

fn added(
    alloc: Global,
    text: &str,
    kind: Kind,
    default: Value,
    spot: Spot,
) -> Result<Change, AllocError> {
    let column = Column {
        name: name(alloc, text)?,
        kind,
        nullable: true,
        default_rule: DefaultRule::Const(default),
    };
    Ok(Change::Add { column, spot })
}

/// `v` VARCHAR(30) NOT NULL.
fn modified(alloc: Global, spot: Spot, null_written: bool) -> Result<Change, AllocError> {
    let column = Column {
        name: name(alloc, "v")?,
        kind: Kind::Varchar(30),
        nullable: false,
        default_rule: DefaultRule::Nothing,
    };
    Ok(Change::Modify {
        column,
        spot,
        null_written,
    })
}

fn unique(alloc: Global, text: &str, columns: Names, named: bool) -> Result<Change, AllocError> {
    let key = UniqueKey {
        name: name(alloc, text)?,
        columns,
    };
    Ok(Change::AddUnique { key, named })
}

/// A change of each kind that is written.
fn change(alloc: Global, letter: u8) -> Result<Change, AllocError> {
    match letter {
        b'k' => Ok(Change::DropKey {
            name: name(alloc, "k")?,
        }),
        b'c' => Ok(Change::Drop {
            name: name(alloc, "c")?,
        }),
        b'm' => modified(alloc, Spot::Keep, false),
        b'a' => added(alloc, "d", Kind::Signed(4), Value::Int(5), Spot::Last),
        _ => unique(alloc, "l", two_names(alloc, "d", "v")?, true),
    }
}

/// Changes that aren't written: `F` adds a column in the first place, `C` one with a capital letter in its name, `K` one of a
/// kind that there isn't, `N` one with the default NULL, and `D` one with a default that doesn't fit it. `M` moves a column,
/// and `W` says NULL of one that isn't nullable. `U` adds a key without a name of its own, `G` one with a capital letter in
/// its name, and `O` one without columns. `X` has no effect.
fn other_change(alloc: Global, letter: u8) -> Result<Change, AllocError> {
    let int = Kind::Signed(4);
    match letter {
        b'F' => added(alloc, "d", int, Value::Int(5), Spot::First),
        b'C' => added(alloc, "dD", int, Value::Int(5), Spot::Last),
        b'K' => added(alloc, "d", Kind::Signed(5), Value::Int(5), Spot::Last),
        b'N' => added(alloc, "d", int, Value::Null, Spot::Last),
        b'D' => added(alloc, "d", int, Value::Int(1 << 31), Spot::Last),
        b'M' => modified(alloc, Spot::Last, false),
        b'W' => modified(alloc, Spot::Keep, true),
        b'U' => unique(alloc, "l", one_name(alloc, "d")?, false),
        b'G' => unique(alloc, "lL", one_name(alloc, "d")?, true),
        b'O' => unique(alloc, "l", Names::new(Vec::new(alloc)), true),
        _ => Ok(Change::NoEffect),
    }
}

fn alter(alloc: Global, changes: Vec<Change>) -> Result<Record, AllocError> {
    Ok(Record::Alter {
        table: table_name(alloc, "m", "t")?,
        changes: Changes::new(changes),
    })
}

fn changes(alloc: Global, letters: &[u8]) -> Result<Vec<Change>, AllocError> {
    let mut changes = Vec::new(alloc);
    for letter in letters {
        changes.push(change(alloc, *letter)?)?;
    }
    Ok(changes)
}

fn text_of_changes(alloc: Global, letters: &[u8]) -> Result<Vec<u8>, Fail> {
    let alteration = alter(alloc, changes(alloc, letters)?)?;
    Ok(text_of(alloc, &alteration, &known(alloc)?)?)
}

#[test]
fn writes_an_added_column(rt: HostRuntime) -> Result<(), Fail> {
    let text = text_of_changes(rt.alloc(), b"a")?;
    let want = b"ALTER TABLE `m`.`t` ADD COLUMN `d` INT NULL DEFAULT 5;\n";
    assert_eq!(rt; text.as_slice(), want.as_slice());
    Ok(())
}

#[test]
fn writes_each_change(rt: HostRuntime) -> Result<(), Fail> {
    let text = text_of_changes(rt.alloc(), b"kcmau")?;
    let want =
        b"ALTER TABLE `m`.`t` DROP INDEX `k`, DROP COLUMN `c`, MODIFY COLUMN `v` VARCHAR(30) NOT NULL, \
        ADD COLUMN `d` INT NULL DEFAULT 5, ADD UNIQUE KEY `l` (`d`,`v`);\n";
    assert_eq!(rt; text.as_slice(), want.as_slice());
    Ok(())
}

fn is_written_alone(alloc: Global, known: &Known, change: Change) -> Result<bool, AllocError> {
    let alteration = alter(alloc, vec![in alloc; change]?)?;
    Ok(is_record(&alteration, known))
}

/// The letters of the changes that are written.
fn written_changes(alloc: Global, letters: &[u8]) -> Result<Vec<u8>, Fail> {
    let known = known(alloc)?;
    let mut written = Vec::new(alloc);
    for letter in letters {
        if is_written_alone(alloc, &known, other_change(alloc, *letter)?)? {
            written.push(*letter)?;
        }
    }
    Ok(written)
}

#[test]
fn tells_which_changes_are_written(rt: HostRuntime) -> Result<(), Fail> {
    let alloc = rt.alloc();
    let alteration = alter(alloc, changes(alloc, b"kcmau")?)?;
    assert!(rt; is_record(&alteration, &known(alloc)?));
    assert_eq!(rt;
        written_changes(alloc, b"FCKNDMWUGOX")?.as_slice(),
        b"".as_slice()
    );
    Ok(())
}

fn bytes(alloc: Global, text: &[u8]) -> Result<Value, AllocError> {
    Ok(Value::Bytes(Bytes::new(text.to_vec(alloc)?)))
}

fn row(alloc: Global, first: Value, second: Value) -> Result<Row, AllocError> {
    Ok(Row::new(vec![in alloc; first, second]?))
}

fn whole_row(alloc: Global) -> Result<Row, AllocError> {
    let (b, c) = (bytes(alloc, b"it's")?, bytes(alloc, b"\0\xFF")?);
    Ok(Row::new(vec![in alloc; Value::Int(1), b, c]?))
}

fn whole_names(alloc: Global) -> Result<Names, AllocError> {
    let (a, b) = (name(alloc, "a")?, name(alloc, "b")?);
    Ok(Names::new(vec![in alloc; a, b, name(alloc, "c`d")?]?))
}

/// The values of `b` and `a`.
fn key(alloc: Global, b: &[u8], a: i128) -> Result<Row, AllocError> {
    row(alloc, bytes(alloc, b)?, Value::Int(a))
}

fn insert(columns: Names, row: Row) -> RowOp {
    RowOp::Insert { columns, row }
}

fn update(alloc: Global) -> Result<RowOp, AllocError> {
    Ok(RowOp::Update {
        columns: two_names(alloc, "c`d", "a")?,
        key: key(alloc, b"it's", 1)?,
        row: row(alloc, Value::Null, Value::Int(3))?,
    })
}

fn replace(alloc: Global) -> Result<RowOp, AllocError> {
    Ok(RowOp::Replace {
        columns: two_names(alloc, "b", "a")?,
        row: key(alloc, b"x", -2)?,
    })
}

/// An operation of each kind that is written.
fn op(alloc: Global, letter: u8) -> Result<RowOp, AllocError> {
    match letter {
        b'I' => Ok(insert(whole_names(alloc)?, whole_row(alloc)?)),
        b'R' => replace(alloc),
        b'U' => update(alloc),
        b'D' => Ok(RowOp::Delete {
            key: key(alloc, b"x", -2)?,
        }),
        _ => Ok(RowOp::Erase {
            key: key(alloc, b"x", -2)?,
        }),
    }
}

/// Operations that aren't written: `n` names no column, `t` one twice, and `u` one that there isn't. `s` has too few values,
/// and `f` values that don't fit their columns. The key of `k` has the values in the columns' order, and that of `v` one
/// value.
fn other_op(alloc: Global, letter: u8) -> Result<RowOp, AllocError> {
    let pair = row(alloc, Value::Int(1), Value::Int(2))?;
    match letter {
        b'n' => Ok(insert(Names::new(Vec::new(alloc)), Row::new(Vec::new(alloc)))),
        b't' => Ok(insert(two_names(alloc, "a", "a")?, pair)),
        b'u' => Ok(insert(two_names(alloc, "a", "z")?, pair)),
        b's' => Ok(insert(whole_names(alloc)?, pair)),
        b'f' => Ok(insert(two_names(alloc, "a", "b")?, pair)),
        b'k' => Ok(RowOp::Delete {
            key: row(alloc, Value::Int(1), bytes(alloc, b"x")?)?,
        }),
        _ => Ok(RowOp::Erase {
            key: Row::new(vec![in alloc; bytes(alloc, b"x")?]?),
        }),
    }
}

fn apply(alloc: Global, ops: Vec<RowOp>) -> Result<Record, AllocError> {
    Ok(Record::Apply {
        table: table_name(alloc, "m", "t")?,
        ops: Sequence::new(ops),
    })
}

fn each_op(alloc: Global) -> Result<Record, AllocError> {
    let mut ops = Vec::new(alloc);
    for letter in b"IRUDE" {
        ops.push(op(alloc, *letter)?)?;
    }
    apply(alloc, ops)
}

#[test]
fn writes_each_operation(rt: HostRuntime) -> Result<(), Fail> {
    let alloc = rt.alloc();
    let text = text_of(alloc, &each_op(alloc)?, &known(alloc)?)?;
    let want = b"BEGIN;\n\
        INSERT INTO `m`.`t` (`a`,`b`,`c``d`) VALUES (1,'it\\'s',0x00FF);\n\
        REPLACE INTO `m`.`t` (`b`,`a`) VALUES ('x',-2);\n\
        UPDATE `m`.`t` SET `c``d`=NULL,`a`=3 WHERE `b`='it\\'s' AND `a`=1 LIMIT 1;\n\
        DELETE FROM `m`.`t` WHERE `b`='x' AND `a`=-2 LIMIT 1;\n\
        DELETE FROM `m`.`t` WHERE `b`='x' AND `a`=-2;\n\
        COMMIT;\n";
    assert_eq!(rt; text.as_slice(), want.as_slice());
    Ok(())
}

fn is_applied_alone(alloc: Global, known: &Known, op: RowOp) -> Result<bool, AllocError> {
    let application = apply(alloc, vec![in alloc; op]?)?;
    Ok(is_record(&application, known))
}

/// The letters of the operations that are written.
fn written_ops(alloc: Global, letters: &[u8]) -> Result<Vec<u8>, Fail> {
    let known = known(alloc)?;
    let mut written = Vec::new(alloc);
    for letter in letters {
        if is_applied_alone(alloc, &known, other_op(alloc, *letter)?)? {
            written.push(*letter)?;
        }
    }
    Ok(written)
}

#[test]
fn tells_which_operations_are_written(rt: HostRuntime) -> Result<(), Fail> {
    let alloc = rt.alloc();
    assert!(rt; is_record(&each_op(alloc)?, &known(alloc)?));
    assert_eq!(rt; written_ops(alloc, b"ntusfkv")?.as_slice(), b"".as_slice());
    Ok(())
}

fn alter_of(alloc: Global, db: &str, table: &str) -> Result<Record, AllocError> {
    Ok(Record::Alter {
        table: table_name(alloc, db, table)?,
        changes: Changes::new(changes(alloc, b"k")?),
    })
}

fn apply_to(alloc: Global, db: &str, table: &str) -> Result<Record, AllocError> {
    let ops = vec![in alloc; replace(alloc)?]?;
    Ok(Record::Apply {
        table: table_name(alloc, db, table)?,
        ops: Sequence::new(ops),
    })
}

/// Records that aren't written: `c`, `a` and `o` are about the table of the texts under names, `A` and `O` about one that
/// isn't known, and `e`, `n` and `m` are empty.
fn other_record(alloc: Global, letter: u8) -> Result<Record, Fail> {
    Ok(match letter {
        b'c' => Record::Create {
            table: table_name(alloc, "dm_meta", "state")?,
            schema: narrow(alloc)?,
        },
        b'a' => alter_of(alloc, "dm_meta", "state")?,
        b'o' => apply_to(alloc, "dm_meta", "state")?,
        b'A' => alter_of(alloc, "m", "u")?,
        b'O' => apply_to(alloc, "m", "u")?,
        b'e' => alter(alloc, Vec::new(alloc))?,
        b'n' => apply(alloc, Vec::new(alloc))?,
        _ => Record::Metas {
            pairs: Sequence::new(Vec::new(alloc)),
        },
    })
}

/// The letters of the records that are written.
fn written_records(alloc: Global, letters: &[u8]) -> Result<Vec<u8>, Fail> {
    let known = known(alloc)?;
    let mut written = Vec::new(alloc);
    for letter in letters {
        if is_record(&other_record(alloc, *letter)?, &known) {
            written.push(*letter)?;
        }
    }
    Ok(written)
}

#[test]
fn tells_which_records_are_written(rt: HostRuntime) -> Result<(), Fail> {
    let alloc = rt.alloc();
    assert!(rt; is_record(&metas(alloc)?, &Known::new(alloc)));
    assert_eq!(rt;
        written_records(alloc, b"caoAOenm")?.as_slice(),
        b"".as_slice()
    );
    Ok(())
}
