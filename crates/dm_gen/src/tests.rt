//! The expected numbers come from the rules, by an independent script that knows nothing of this code.

use crate::numbers::next_number;
use crate::{Generated, generate};
use dm_files::{NamedFile, are_files, are_short};
use dm_track::{History, Inputs, Item, build};
use std::alloc::Global;
use std::fmt::Write;
use std::marker::Sync;
use std::test::Fail;
use std::thread::Threads;

/// x = 1, x = 29, and an x whose highest bit is shifted out.
#[test]
fn numbers_go_on(rt: HostRuntime) {
    assert_eq!(rt; next_number(1), 1_082_269_761);
    assert_eq!(rt; next_number(29), 31_385_560_925);
    assert_eq!(rt; next_number(0x8000_0000_0000_0001), 0x8100_0000_4082_2041);
}

/// The sum of the bytes, each times its place counted from 1, in 64 bits.
fn weight(bytes: &[u8]) -> u64 {
    let mut place = 0_u64;
    let mut sum = 0_u64;
    for byte in bytes {
        place = place.wrapping_add(1);
        sum = sum.wrapping_add(place.wrapping_mul(u64::from(*byte)));
    }
    sum
}

fn write_file(text: &mut String, file: &NamedFile) -> Result<(), Fail> {
    let name = std::str::from_utf8(file.name.as_slice()).map_err(|_| "a name")?;
    let bytes = file.bytes.as_slice();
    write!(text, "{name} {} {}\n", bytes.len(), weight(bytes))?;
    Ok(())
}

/// The name, length and weight of each file.
fn written(alloc: Global, number: u32) -> Result<String, Fail> {
    let made = generate(alloc, number)?;
    let mut text = String::new(alloc);
    for file in made.files.as_slice() {
        write_file(&mut text, file)?;
    }
    Ok(text)
}

const FILES_OF_0: &str = "g0.bin 418370 801948978033
g0.sql 119 496693
g0.rows.sql 13695 4630016241
g1.bin 418370 972493660352
g1.sql 119 496709
g1.rows.sql 21915 11756078901
g2.bin 418370 1143004117646
g2.sql 119 496725
g2.rows.sql 21915 11777907126
g3.bin 418370 1305808793135
g3.sql 119 496741
g3.rows.sql 21915 11799735351
";

const FILES_OF_7: &str = "g0.bin 418370 792709106917
g0.sql 119 496693
g0.rows.sql 13695 4630016241
g1.bin 418370 976810326313
g1.sql 119 496709
g1.rows.sql 21915 11756078901
g2.bin 418370 1145681478256
g2.sql 119 496725
g2.rows.sql 21915 11777907126
g3.bin 418370 1312624862009
g3.sql 119 496741
g3.rows.sql 21915 11799735351
";

#[test]
fn makes_the_files_of_0(rt: HostRuntime) -> Result<(), Fail> {
    assert_eq!(rt; written(rt.alloc(), 0)?.as_str(), FILES_OF_0);
    Ok(())
}

#[test]
fn makes_the_files_of_7(rt: HostRuntime) -> Result<(), Fail> {
    assert_eq!(rt; written(rt.alloc(), 7)?.as_str(), FILES_OF_7);
    Ok(())
}

const CREATE: &[u8] =
    b"CREATE TABLE `t1` (`id` BIGINT NOT NULL, `u` BIGINT NULL, `v` INT NOT NULL, PRIMARY KEY (`id`), UNIQUE KEY `u` (`u`));\n";

const FIRST_ROWS: &[u8] =
    b"INSERT INTO `t1` VALUES (1000000,1000000,0),(1000001,1000001,1),(1000002,";

/// Whether the second source's files of the dump are these texts, the latter in front.
fn is_dump(made: &Generated) -> bool {
    match made.files.as_slice() {
        [_, _, _, _, create, rows, ..] => {
            create.bytes.as_slice() == CREATE && rows.bytes.as_slice().starts_with(FIRST_ROWS)
        }
        _ => false,
    }
}

#[test]
fn makes_what_goes_together(rt: HostRuntime) -> Result<(), Fail> {
    let made = generate(rt.alloc(), u32::MAX)?;
    assert!(rt; is_dump(&made));
    let fits = are_files(&made.task, made.files.as_slice());
    assert!(rt; fits);
    Ok(())
}

fn write_statements(text: &mut String, history: &History) -> Result<(), Fail> {
    for before in 0..history.len() {
        if let Some(Item::Ddl(_)) = history.item(before + 1) {
            write!(text, " {}", before + 1)?;
        }
    }
    Ok(())
}

/// How many items a history has, which of them are statements, and whether it ends before its files do.
fn write_history(text: &mut String, history: &History) -> Result<(), Fail> {
    write!(text, "{}", history.len())?;
    write_statements(text, history)?;
    text.push_str(if history.bad().is_some() {
        " bad\n"
    } else {
        "\n"
    })?;
    Ok(())
}

fn written_histories(alloc: Global, inputs: &Inputs) -> Result<String, Fail> {
    let mut text = String::new(alloc);
    for history in inputs.histories().as_slice() {
        write_history(&mut text, history)?;
    }
    Ok(text)
}

fn built<R: Threads + Sync>(rt: &R, alloc: Global, made: Generated) -> Result<Inputs, Fail> {
    let Generated { task, files } = made;
    if !are_files(&task, files.as_slice()) || !are_short(files.as_slice()) {
        return Err("no files of the task".into());
    }
    if files.len() > u64::from(u32::MAX) {
        return Err("too many files".into());
    }
    match build(rt, alloc, task, files) {
        Ok(inputs) => Ok(inputs),
        Err(_) => Err("no histories".into()),
    }
}

/// A dump of 1,000 rows, 4,000 changes, and a statement behind each of the first three thousands.
#[test]
fn makes_histories(rt: HostRuntime) -> Result<(), Fail> {
    let made = generate(rt.alloc(), 7)?;
    let inputs = built(&rt, rt.alloc(), made)?;
    let text = written_histories(rt.alloc(), &inputs)?;
    let each = "5003 2001 3002 4003\n";
    assert_eq!(rt;
        text.as_str(),
        format!(in rt.alloc(); "{each}{each}{each}{each}")?.as_str()
    );
    Ok(())
}
