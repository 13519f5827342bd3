use crate::{RecordFault, read_record};
use dm_stmt::{Known, Record};
use dm_table::RowOp;
use std::alloc::{AllocError, Global};
use std::test::Fail;

const TABLE: &str =
    "CREATE TABLE `m`.`t` (`a` INT NOT NULL, `b` VARCHAR(20) NOT NULL, `c``d` VARBINARY(4) NULL, PRIMARY KEY (`b`,`a`), UNIQUE KEY `k` (`c``d`));\n";

/// One operation of each kind.
const OPERATIONS: &str =
    "BEGIN;\nINSERT INTO `m`.`t` (`b`,`a`) VALUES ('it\\'s',-1);\nREPLACE INTO `m`.`t` (`c``d`,`b`,`a`) VALUES (0x00FF,'',7);\nUPDATE `m`.`t` SET `c``d`=NULL,`a`=8 WHERE `b`='' AND `a`=7 LIMIT 1;\nDELETE FROM `m`.`t` WHERE `b`='' AND `a`=8 LIMIT 1;\nDELETE FROM `m`.`t` WHERE `b`='x' AND `a`=8;\nCOMMIT;\n";

/// Texts under names.
const METAS: &str =
    "BEGIN;\nREPLACE INTO `dm_meta`.`state` (`name`,`text`) VALUES ('lock `m`.`t`','{\"order\":[],\"version\":1}');\nREPLACE INTO `dm_meta`.`state` (`name`,`text`) VALUES ('shard a `s`.`t0`','{\"position\":0,\"version\":1,\"window\":1000}');\nCOMMIT;\n";

/// Statements that define tables, parted by strokes.
const STATEMENTS: &str =
    "CREATE TABLE `m`.`t` (`id` INT NOT NULL, `v` VARCHAR(20) NULL, PRIMARY KEY (`id`));\n|ALTER TABLE `m`.`t` ADD COLUMN `d` INT NULL DEFAULT 5;\n|ALTER TABLE `m`.`t` DROP INDEX `k`, DROP COLUMN `c``d`, MODIFY COLUMN `a` DECIMAL(5,2) NOT NULL DEFAULT -1.50, ADD COLUMN `e` DATETIME(6) NULL DEFAULT CURRENT_TIMESTAMP(6), ADD UNIQUE KEY `l` (`a`,`e`);\n";

/// Texts of no record, parted by strokes: none; a byte more; a byte less; small letters; two rows; a blank too many; a
/// value that doesn't fit; a zero too many; an unknown table; a table that is kept for texts; nothing between BEGIN and
/// COMMIT; two tables; an unknown table again; a key in another order.
const REFUSED: &str =
    "|ALTER TABLE `m`.`t` DROP COLUMN `a`;\n\n|ALTER TABLE `m`.`t` DROP COLUMN `a`;|ALTER TABLE `m`.`t` drop COLUMN `a`;\n|BEGIN;\nINSERT INTO `m`.`t` (`a`,`b`) VALUES (1,'x'),(2,'y');\nCOMMIT;\n|BEGIN;\nINSERT INTO `m`.`t`  (`a`,`b`) VALUES (1,'x');\nCOMMIT;\n|BEGIN;\nINSERT INTO `m`.`t` (`a`) VALUES (2147483648);\nCOMMIT;\n|BEGIN;\nINSERT INTO `m`.`t` (`a`) VALUES (01);\nCOMMIT;\n|BEGIN;\nINSERT INTO `m`.`u` (`a`) VALUES (1);\nCOMMIT;\n|BEGIN;\nINSERT INTO `dm_meta`.`state` (`name`) VALUES ('x');\nCOMMIT;\n|BEGIN;\nCOMMIT;\n|ALTER TABLE `m`.`t` DROP COLUMN `a`;\nALTER TABLE `m`.`t` DROP COLUMN `b`;\n|ALTER TABLE `m`.`u` DROP COLUMN `a`;\n|BEGIN;\nDELETE FROM `m`.`t` WHERE `a`=7 AND `b`='';\nCOMMIT;\n";

/// The record of a text, if it is the text of one.
fn record_of(alloc: Global, text: &str, known: &Known) -> Result<Option<Record>, Fail> {
    let bytes = text.as_bytes();
    if bytes.len() >= 1 << 32 {
        return Err("too long a text")?;
    }
    match read_record(alloc, bytes, known) {
        Ok(record) => Ok(Some(record)),
        Err(RecordFault::NotRecord) => Ok(None),
        Err(RecordFault::Memory) => Err("no memory")?,
    }
}

/// The table of the operations, by its own text.
fn known(alloc: Global) -> Result<Known, Fail> {
    let mut known = Known::new(alloc);
    if let Some(Record::Create { table, schema }) = record_of(alloc, TABLE, &known)? {
        known.put(alloc, &table, &schema)?;
    }
    Ok(known)
}

/// How many of the texts, parted by strokes, are of records.
fn count_records(alloc: Global, texts: &str) -> Result<u32, Fail> {
    let known = known(alloc)?;
    let mut count: u32 = 0;
    for text in texts.split('|') {
        if record_of(alloc, text, &known)?.is_some() {
            count = count.saturating_add(1);
        }
    }
    Ok(count)
}

#[test]
fn reads_statements(rt: HostRuntime) -> Result<(), Fail> {
    let count = count_records(rt.alloc(), STATEMENTS)?;
    assert_eq!(rt; count, 3);
    Ok(())
}

#[test]
fn refuses_others(rt: HostRuntime) -> Result<(), Fail> {
    let count = count_records(rt.alloc(), REFUSED)?;
    assert_eq!(rt; count, 0);
    Ok(())
}

/// A letter for each operation.
fn letters(alloc: Global, ops: &[RowOp]) -> Result<Vec<u8>, AllocError> {
    let mut letters = Vec::new(alloc);
    for op in ops {
        letters.push(match op {
            RowOp::Insert { .. } => b'I',
            RowOp::Replace { .. } => b'R',
            RowOp::Update { .. } => b'U',
            RowOp::Delete { .. } => b'D',
            RowOp::Erase { .. } => b'E',
        })?;
    }
    Ok(letters)
}

fn operations(alloc: Global) -> Result<Vec<u8>, Fail> {
    let known = known(alloc)?;
    match record_of(alloc, OPERATIONS, &known)? {
        Some(Record::Apply { ops, .. }) => Ok(letters(alloc, ops.as_slice())?),
        _ => Ok(Vec::new(alloc)),
    }
}

#[test]
fn reads_operations(rt: HostRuntime) -> Result<(), Fail> {
    let letters = operations(rt.alloc())?;
    assert_eq!(rt; letters.as_slice(), b"IRUDE".as_slice());
    Ok(())
}

/// The name of the last text of METAS.
fn last_name(alloc: Global) -> Result<Vec<u8>, Fail> {
    match record_of(alloc, METAS, &Known::new(alloc))? {
        Some(Record::Metas { pairs }) => {
            let last = pairs.as_slice().last().ok_or("no text")?;
            Ok(last.name.as_slice().to_vec(alloc)?)
        }
        _ => Ok(Vec::new(alloc)),
    }
}

#[test]
fn reads_texts_under_names(rt: HostRuntime) -> Result<(), Fail> {
    let name = last_name(rt.alloc())?;
    assert_eq!(rt; name.as_slice(), b"shard a `s`.`t0`".as_slice());
    Ok(())
}
