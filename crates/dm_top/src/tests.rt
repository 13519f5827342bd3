use crate::{Status, dm_plain};
use dm_base::{MemoryJournal, MemoryShelf, MemorySink};
use std::alloc::{AllocError, Global};
use std::test::Fail;

/// The files `a.sql`, `b.sql` and so on, the journal's bytes, and which calls of the shelf, of the journal and of the sink
/// fail.
#[derive(Clone, Copy)]
struct Outside<'a> {
    texts: &'a [&'a [u8]],
    journal: &'a [u8],
    failing_reads: &'a [u64],
    failing_loads: &'a [u64],
    failing_puts: &'a [u64],
}

/// How a run ended, and what it put.
#[derive(Drop)]
struct Ended {
    status: Status,
    output: Vec<u8>,
}

const NAMES: [&str; 3] = ["a.sql", "b.sql", "c.sql"];

fn files<'a>(texts: &'a [&'a [u8]]) -> Outside<'a> {
    Outside {
        texts,
        journal: b"",
        failing_reads: &[],
        failing_loads: &[],
        failing_puts: &[],
    }
}

fn journal<'a>(bytes: &'a [u8]) -> Outside<'a> {
    Outside {
        journal: bytes,
        ..files(&[])
    }
}

fn run(alloc: Global, words: &[&str], outside: Outside<'_>) -> Result<Ended, AllocError> {
    let mut given = Vec::new(alloc);
    for word in words {
        given.push(String::from_str(alloc, word)?)?;
    }
    let mut names = Vec::new(alloc);
    let mut contents = Vec::new(alloc);
    for (name, text) in NAMES.iter().zip(outside.texts) {
        names.push(String::from_str(alloc, name)?)?;
        contents.push(text.to_vec(alloc)?)?;
    }
    let mut shelf = MemoryShelf::new(names, contents, outside.failing_reads.to_vec(alloc)?);
    let mut out = MemorySink::new(Vec::new(alloc), outside.failing_puts.to_vec(alloc)?);
    let journal = MemoryJournal::new(
        outside.journal.to_vec(alloc)?,
        outside.failing_loads.to_vec(alloc)?,
        Vec::new(alloc),
    );
    let (status, _) = dm_plain(alloc, &given, &mut shelf, journal, &mut out);
    Ok(Ended {
        status,
        output: out.bytes().to_vec(alloc)?,
    })
}

/// Whether a run of these words ends with this status and puts these bytes.
fn ends_with(
    alloc: Global,
    words: &[&str],
    outside: Outside<'_>,
    code: u8,
    output: &[u8],
) -> Result<bool, AllocError> {
    let ended = run(alloc, words, outside)?;
    Ok(ended.status.code() == code && ended.output.as_slice() == output)
}

const FIRST: &[u8] = b"CREATE TABLE `t0` (`id` INT NOT NULL, `v` VARCHAR(20), PRIMARY KEY (`id`)); \
    INSERT INTO `t0` VALUES (1,'x'),(2,NULL);";

const SECOND: &[u8] =
    b"CREATE TABLE `t1` (`id` INT NOT NULL, `v` VARCHAR(20), PRIMARY KEY (`id`)); \
    INSERT INTO `t1` VALUES (11,'it\\'s');";

const FURTHER_COLUMN: &[u8] =
    b"CREATE TABLE t1 (id INT PRIMARY KEY, d INT DEFAULT 5, v VARCHAR(20));\n\
    INSERT INTO t1 (v, d, id) VALUES ('y', 6, 12);";

const OTHER_FAMILY: &[u8] = b"CREATE TABLE t1 (id INT PRIMARY KEY, v INT)";

const UNIQUE: &[u8] = b"CREATE TABLE t0 (id INT PRIMARY KEY, u INT, UNIQUE KEY k (u)); \
    INSERT INTO t0 VALUES (1, NULL), (2, NULL), (3, 7);";

const UNIQUE_AGAIN: &[u8] = b"CREATE TABLE t1 (id INT PRIMARY KEY, u INT, UNIQUE KEY k (u)); \
    INSERT INTO t1 VALUES (4, 8), (5, 7);";

const TASK: &[u8] = b"name = \"m\"\n\
    [[source]]\nname = \"a\"\nbinlogs = [\"a.bin\"]\n\
    [[source.table]]\ndb = \"s\"\ntable = \"t0\"\ncreate = \"a.sql\"\n\
    [[source]]\nname = \"b\"\nbinlogs = [\"b.bin\"]\n\
    [[source.table]]\ndb = \"s\"\ntable = \"t1\"\ncreate = \"b.sql\"\n\
    [[route]]\ndb = \"s\"\ntable = \"t*\"\nto_db = \"m\"\nto_table = \"t\"\n";

const LOAD_BOTH: [&str; 3] = ["load", "a.sql", "b.sql"];

#[test]
fn merges_rows_by_key(rt: HostRuntime) -> Result<(), Fail> {
    let want = b"column `id` INT NOT NULL\n\
        column `v` VARCHAR(20) NULL\n\
        primary (`id`)\n\
        rows 3\n\
        row (1,'x')\n\
        row (2,NULL)\n\
        row (11,'it\\'s')\n";
    assert!(rt; ends_with(rt.alloc(), &LOAD_BOTH, files(&[FIRST, SECOND]), 0, want)?);
    Ok(())
}

#[test]
fn fills_a_column_that_a_dump_lacks(rt: HostRuntime) -> Result<(), Fail> {
    let want = b"column `d` INT NULL DEFAULT 5\n\
        column `id` INT NOT NULL\n\
        column `v` VARCHAR(20) NULL\n\
        primary (`id`)\n\
        rows 3\n\
        row (5,1,'x')\n\
        row (5,2,NULL)\n\
        row (6,12,'y')\n";
    assert!(rt;
        ends_with(
            rt.alloc(),
            &LOAD_BOTH,
            files(&[FIRST, FURTHER_COLUMN]),
            0,
            want
        )?
    );
    Ok(())
}

#[test]
fn refuses_schemas_without_a_join(rt: HostRuntime) -> Result<(), Fail> {
    let want = b"fault First `load`.`load` NoJoin `v` Family\n";
    assert!(rt;
        ends_with(
            rt.alloc(),
            &LOAD_BOTH,
            files(&[FIRST, OTHER_FAMILY]),
            13,
            want
        )?
    );
    Ok(())
}

#[test]
fn refuses_rows_with_one_key(rt: HostRuntime) -> Result<(), Fail> {
    let alloc = rt.alloc();
    let want = b"fault Unlawful\n";
    assert!(rt;
        ends_with(
            alloc,
            &["load", "a.sql", "a.sql"],
            files(&[FIRST]),
            10,
            want
        )?
    );
    assert!(rt; ends_with(alloc, &LOAD_BOTH, files(&[UNIQUE, UNIQUE_AGAIN]), 10, want)?);
    Ok(())
}

#[test]
fn takes_any_number_of_nulls_under_a_unique_key(rt: HostRuntime) -> Result<(), Fail> {
    let want = b"column `id` INT NOT NULL\n\
        column `u` INT NULL\n\
        primary (`id`)\n\
        unique `k` (`u`)\n\
        rows 3\n\
        row (1,NULL)\n\
        row (2,NULL)\n\
        row (3,7)\n";
    assert!(rt; ends_with(rt.alloc(), &["load", "a.sql"], files(&[UNIQUE]), 0, want)?);
    Ok(())
}

#[test]
fn finds_a_missing_file_before_it_looks_into_any(rt: HostRuntime) -> Result<(), Fail> {
    let alloc = rt.alloc();
    let words = ["load", "a.sql", "b.sql", "c.sql"];
    let want = b"fault Missing b.sql\n";
    assert!(rt; ends_with(alloc, &words, files(&[b"no dump"]), 11, want)?);
    let want = b"fault Missing -x.sql\n";
    assert!(rt; ends_with(alloc, &["load", "--", "-x.sql"], files(&[]), 11, want)?);
    Ok(())
}

#[test]
fn names_the_byte_at_which_a_file_is_no_dump(rt: HostRuntime) -> Result<(), Fail> {
    let alloc = rt.alloc();
    let want = b"fault Dump a.sql 0 NoCreate\n";
    assert!(rt; ends_with(alloc, &["load", "a.sql"], files(&[b""]), 12, want)?);
    let want = b"fault Dump b.sql 4 Statement\n";
    assert!(rt;
        ends_with(
            alloc,
            &LOAD_BOTH,
            files(&[FIRST, b"-- \nno dump"]),
            12,
            want
        )?
    );
    Ok(())
}

/// All files together have 134,217,728 bytes at most, and a file counts as often as it is named.
#[test]
fn refuses_a_byte_too_much(rt: HostRuntime) -> Result<(), Fail> {
    let alloc = rt.alloc();
    let mut words = ["a.sql"; 65];
    words[0] = "load";
    let mut blanks = Vec::new(alloc);
    blanks.resize(2_097_152, b' ')?;
    let want = b"fault Dump a.sql 2097152 NoCreate\n";
    assert!(rt; ends_with(alloc, &words, files(&[&blanks]), 12, want)?);
    blanks.push(b' ')?;
    assert!(rt; ends_with(alloc, &words, files(&[&blanks]), 9, b"fault Limit Files\n")?);
    Ok(())
}

/// A table with so many rows of one column.
fn rows_of_one(alloc: Global, rows: u32) -> Result<Vec<u8>, AllocError> {
    let mut text = b"CREATE TABLE t (c INT PRIMARY KEY); INSERT INTO t VALUES (1)".to_vec(alloc)?;
    for _ in 1..rows {
        text.extend_from_slice(b",(1)")?;
    }
    Ok(text)
}

/// All dumps together have 4,000,000 rows at most: 64 times 62,500.
#[test]
fn refuses_a_row_too_much(rt: HostRuntime) -> Result<(), Fail> {
    let mut words = ["a.sql"; 65];
    words[0] = "load";
    let dump = rows_of_one(rt.alloc(), 62_501)?;
    assert!(rt;
        ends_with(
            rt.alloc(),
            &words,
            files(&[&dump]),
            9,
            b"fault Limit Items\n"
        )?
    );
    Ok(())
}

fn push_columns(alloc: Global, text: &mut Vec<u8>, columns: u32) -> Result<(), AllocError> {
    for number in 1..columns {
        text.extend_from_slice(format!(in alloc; ", c{number} INT")?.as_bytes())?;
    }
    Ok(())
}

fn push_row(text: &mut Vec<u8>, columns: u32) -> Result<(), AllocError> {
    text.extend_from_slice(b"(1")?;
    for _ in 1..columns {
        text.extend_from_slice(b",1")?;
    }
    text.extend_from_slice(b")")
}

/// A table with so many rows of so many columns.
fn rows_of(alloc: Global, rows: u32, columns: u32) -> Result<Vec<u8>, AllocError> {
    let mut text = b"CREATE TABLE t (k INT PRIMARY KEY".to_vec(alloc)?;
    push_columns(alloc, &mut text, columns)?;
    text.extend_from_slice(b"); INSERT INTO t VALUES ")?;
    push_row(&mut text, columns)?;
    for _ in 1..rows {
        text.push(b',')?;
        push_row(&mut text, columns)?;
    }
    Ok(text)
}

/// All rows together have 64,000,000 values at most: 64 times 4,000 rows of 250 columns.
#[test]
fn refuses_a_value_too_much(rt: HostRuntime) -> Result<(), Fail> {
    let mut words = ["a.sql"; 65];
    words[0] = "load";
    let dump = rows_of(rt.alloc(), 4_001, 250)?;
    assert!(rt;
        ends_with(
            rt.alloc(),
            &words,
            files(&[&dump]),
            9,
            b"fault Limit Values\n"
        )?
    );
    Ok(())
}

#[test]
fn says_where_the_shards_of_a_task_go(rt: HostRuntime) -> Result<(), Fail> {
    let want = b"task m sources 2 shards 2 tables 1\n\
        shard a `s`.`t0` to `m`.`t`\n\
        shard b `s`.`t1` to `m`.`t`\n";
    assert!(rt;
        ends_with(
            rt.alloc(),
            &["check-task", "a.sql"],
            files(&[TASK]),
            0,
            want
        )?
    );
    Ok(())
}

#[test]
fn names_what_is_wrong_in_a_task(rt: HostRuntime) -> Result<(), Fail> {
    let alloc = rt.alloc();
    let mut text = b"window = 0\n".to_vec(alloc)?;
    text.extend_from_slice(TASK)?;
    let want = b"fault Task window Range\n";
    assert!(rt; ends_with(alloc, &["check-task", "a.sql"], files(&[&text]), 2, want)?);
    Ok(())
}

#[test]
fn refuses_words_that_are_no_command(rt: HostRuntime) -> Result<(), Fail> {
    let alloc = rt.alloc();
    let wrong: [&[&str]; 5] = [
        &[],
        &["load"],
        &["merge", "a.sql"],
        &["show", "a.sql"],
        &["check-task", "a.sql", "--limit", "3"],
    ];
    for words in wrong {
        assert!(rt; ends_with(alloc, words, files(&[TASK]), 1, b"fault Usage\n")?);
    }
    Ok(())
}

#[test]
fn says_that_a_read_failed(rt: HostRuntime) -> Result<(), Fail> {
    let outside = Outside {
        failing_reads: &[2],
        ..files(&[FIRST, SECOND])
    };
    assert!(rt; ends_with(rt.alloc(), &LOAD_BOTH, outside, 4, b"fault ReadFault\n")?);
    Ok(())
}

#[test]
fn says_that_a_put_failed(rt: HostRuntime) -> Result<(), Fail> {
    let alloc = rt.alloc();
    let outside = Outside {
        failing_puts: &[1],
        ..files(&[FIRST])
    };
    assert!(rt; ends_with(alloc, &["load", "a.sql"], outside, 5, b"")?);
    assert!(rt; ends_with(alloc, &[], outside, 5, b"")?);
    Ok(())
}

#[test]
fn says_that_the_journal_was_not_loaded(rt: HostRuntime) -> Result<(), Fail> {
    let outside = Outside {
        failing_loads: &[1],
        ..journal(b"")
    };
    assert!(rt; ends_with(rt.alloc(), &["show"], outside, 6, b"fault TargetFault\n")?);
    Ok(())
}

#[test]
fn shows_nothing_of_a_journal_without_records(rt: HostRuntime) -> Result<(), Fail> {
    let alloc = rt.alloc();
    for torn in [b"".as_slice(), b"-- dm 0000000003\nab"] {
        assert!(rt; ends_with(alloc, &["show"], journal(torn), 0, b"")?);
    }
    Ok(())
}

#[test]
fn names_the_byte_at_which_a_journal_is_bad(rt: HostRuntime) -> Result<(), Fail> {
    let want = b"fault JournalBad 0\n";
    assert!(rt; ends_with(rt.alloc(), &["show"], journal(b"hello"), 8, want)?);
    Ok(())
}

/// Two records: a text of two metas, and a CREATE.
const JOURNAL: &[u8] = b"-- dm 0000000233\n\
    BEGIN;\n\
    REPLACE INTO `dm_meta`.`state` (`name`,`text`) VALUES ('lock `m`.`t`','{\"order\":[],\"version\":1}');\n\
    REPLACE INTO `dm_meta`.`state` (`name`,`text`) VALUES ('shard a `s`.`t0`','{\"position\":0,\"version\":1,\"window\":1000}');\n\
    COMMIT;\n\
    -- dm 0000000084\n\
    CREATE TABLE `m`.`t` (`id` INT NOT NULL, `v` VARCHAR(20) NULL, PRIMARY KEY (`id`));\n";

const METAS_SHOWN: &[u8] = b"meta lock `m`.`t` {\"order\":[],\"version\":1}\n\
    meta shard a `s`.`t0` {\"position\":0,\"version\":1,\"window\":1000}\n";

#[test]
fn shows_tables_and_texts(rt: HostRuntime) -> Result<(), Fail> {
    let want = b"table `m`.`t`\n\
        column `id` INT NOT NULL\n\
        column `v` VARCHAR(20) NULL\n\
        primary (`id`)\n\
        rows 0\n\
        meta lock `m`.`t` {\"order\":[],\"version\":1}\n\
        meta shard a `s`.`t0` {\"position\":0,\"version\":1,\"window\":1000}\n";
    assert!(rt; ends_with(rt.alloc(), &["show"], journal(JOURNAL), 0, want)?);
    Ok(())
}

#[test]
fn passes_over_a_torn_record(rt: HostRuntime) -> Result<(), Fail> {
    let alloc = rt.alloc();
    let mut torn = JOURNAL.to_vec(alloc)?;
    torn.pop();
    assert!(rt; ends_with(alloc, &["show"], journal(&torn), 0, METAS_SHOWN)?);
    Ok(())
}

#[test]
fn names_the_byte_behind_whole_records(rt: HostRuntime) -> Result<(), Fail> {
    let alloc = rt.alloc();
    let mut bytes = JOURNAL.to_vec(alloc)?;
    bytes.push(b'x')?;
    assert!(rt;
        ends_with(
            alloc,
            &["show"],
            journal(&bytes),
            8,
            b"fault JournalBad 351\n"
        )?
    );
    Ok(())
}

/// The header of the CREATE tells a byte less than it has.
#[test]
fn names_the_record_whose_length_is_wrong(rt: HostRuntime) -> Result<(), Fail> {
    let alloc = rt.alloc();
    let mut bytes = JOURNAL.to_vec(alloc)?;
    assert_eq!(rt; bytes.len(), 351);
    assert_eq!(rt; bytes[265], b'4');
    bytes[265] = b'3';
    assert!(rt;
        ends_with(
            alloc,
            &["show"],
            journal(&bytes),
            8,
            b"fault JournalBad 250\n"
        )?
    );
    Ok(())
}
