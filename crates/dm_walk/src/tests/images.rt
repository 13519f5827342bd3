//! Rows that end a shard's history.

use super::{begin, no_rules, push_event, write_one};
use std::alloc::Global;
use std::test::Fail;

const TEXTS: &str = "CREATE TABLE t (id INT NOT NULL PRIMARY KEY, v VARCHAR(20))";

const DECIMALS: &str = "CREATE TABLE t (id INT NOT NULL PRIMARY KEY, v DECIMAL(2,0))";

const DATES: &str = "CREATE TABLE t (id INT NOT NULL PRIMARY KEY, v DATE)";

/// Of a table map behind its names: INT NOT NULL and VARCHAR(20) NULL.
const INT_AND_TEXT: &[u8] = b"\x02\x03\x0f\x02\x50\0\x02";

const BIGINT_AND_TEXT: &[u8] = b"\x02\x08\x0f\x02\x50\0\x02";

const INT_AND_DECIMAL: &[u8] = b"\x02\x03\xf6\x02\x02\0\x02";

/// Without the two bytes that tell a VARCHAR's or a DECIMAL's size.
const INT_AND_DATE: &[u8] = b"\x02\x03\x0a\0\x02";

/// A table map at 123, and an event of rows behind it: what stands in them behind the names and the extra data.
fn file_of(alloc: Global, columns: &[u8], rows: &[u8]) -> Result<Vec<u8>, Fail> {
    let mut map = b"\x05\0\0\0\0\0\x01\0\x01s\0\x01t\0".to_vec(alloc)?;
    map.extend_from_slice(columns)?;
    let mut body = b"\x05\0\0\0\0\0\x01\0\x02\0".to_vec(alloc)?;
    body.extend_from_slice(rows)?;
    let mut file = begin(alloc)?;
    push_event(&mut file, 19, &map)?;
    push_event(&mut file, 30, &body)?;
    Ok(file)
}

fn push_case(
    alloc: Global,
    text: &mut String,
    create: &str,
    columns: &[u8],
    rows: &[u8],
) -> Result<(), Fail> {
    let file = file_of(alloc, columns, rows)?;
    write_one(alloc, text, &no_rules(alloc), create, &file)?;
    text.push_str("\n")?;
    Ok(())
}

/// The table map goes to 123 + 19 + 14 + 7 = 163. Behind a row's NULLs stands 1, and then its text.
const HEADS: &str = "\
0 more, Partial at 163
0 more, Count at 163
0 more, TypeDiffers at 163
";

/// The second column isn't present; there is one column; and the first is a BIGINT.
fn heads(alloc: Global) -> Result<String, Fail> {
    let mut text = String::new(alloc);
    let out = &mut text;
    push_case(alloc, out, TEXTS, INT_AND_TEXT, b"\x02\x01\0\x01\0\0\0")?;
    push_case(alloc, out, TEXTS, INT_AND_TEXT, b"\x01\x01\0\x01\0\0\0")?;
    push_case(
        alloc,
        out,
        TEXTS,
        BIGINT_AND_TEXT,
        b"\x02\x03\0\x01\0\0\0\x01x",
    )?;
    Ok(text)
}

/// A row of 7 bytes is there before a bad one, from 163 + 19 + 12 = 194 on. The table map with a DATE is 2 bytes
/// shorter.
const VALUES: &str = "\
Write 194 of 163 by 123; 0 more, Short at 163
0 more, Unfit at 163
0 more, BadDecimal at 163
0 more, BadDate at 161
";

/// A text of 2 bytes of which one is there; NULL in a column that is NOT NULL; 100 in a group of two digits; and the 13th
/// month of 2024, which is 512 * 2024 + 32 * 13 + 1 = 0x0fd1a1.
fn values(alloc: Global) -> Result<String, Fail> {
    let mut text = String::new(alloc);
    let out = &mut text;
    let short = b"\x02\x03\0\x01\0\0\0\x01x\0\x02\0\0\0\x02x";
    push_case(alloc, out, TEXTS, INT_AND_TEXT, short)?;
    push_case(alloc, out, TEXTS, INT_AND_TEXT, b"\x02\x03\x01\x01x")?;
    let great = b"\x02\x03\0\x01\0\0\0\xe4";
    push_case(alloc, out, DECIMALS, INT_AND_DECIMAL, great)?;
    let month = b"\x02\x03\0\x01\0\0\0\xa1\xd1\x0f";
    push_case(alloc, out, DATES, INT_AND_DATE, month)?;
    Ok(text)
}

#[test]
fn ends_at_rows_of_other_columns(rt: HostRuntime) -> Result<(), Fail> {
    assert_eq!(rt; heads(rt.alloc())?.as_str(), HEADS);
    Ok(())
}

#[test]
fn ends_at_rows_without_a_value(rt: HostRuntime) -> Result<(), Fail> {
    assert_eq!(rt; values(rt.alloc())?.as_str(), VALUES);
    Ok(())
}
