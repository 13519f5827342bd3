mod tables;

use crate::{
    Dump, DumpCause, DumpFault, Fault, InsertOrder, Outline, Span, read_dump, read_outline, row_at,
};
use dm_schema::Schema;
use dm_value::{Names, Row, Value};
use std::alloc::{AllocError, Global};
use tables::{DUMPLING, DUMPS, MYSQLDUMP, OUTLINES, WHOLE};

/// Places in a dump have 32 bits.
const MOST_BYTES: usize = 0x1_0000_0000;

fn push_text(out: &mut Vec<u8>, text: &[u8]) -> Result<(), AllocError> {
    out.push(b'<')?;
    out.extend_from_slice(text)?;
    out.push(b'>')?;
    Ok(())
}

fn push_value(alloc: Global, out: &mut Vec<u8>, value: &Value) -> Result<(), AllocError> {
    match value {
        Value::Null => out.extend_from_slice(b"NULL"),
        Value::Int(number) => out.extend_from_slice(format!(in alloc; "{number}")?.as_bytes()),
        Value::Bytes(text) => push_text(out, text.as_slice()),
        _ => out.extend_from_slice(b"?"),
    }
}

/// `(1,<x>)`.
fn push_row(alloc: Global, out: &mut Vec<u8>, row: &Row) -> Result<(), AllocError> {
    let mut before = b'(';
    for value in row.as_slice() {
        out.push(before)?;
        push_value(alloc, out, value)?;
        before = b',';
    }
    out.push(b')')?;
    Ok(())
}

/// The order of the literals at a place: the last that begins there or before.
fn order_at(orders: &[InsertOrder], place: u32) -> Option<&Names> {
    let mut found = None;
    for order in orders {
        if order.first <= place {
            found = Some(&order.order);
        }
    }
    found
}

fn push_row_at(
    alloc: Global,
    out: &mut Vec<u8>,
    text: &[u8],
    place: u32,
    order: &Names,
    schema: &Schema,
) -> Result<(), AllocError> {
    match row_at(alloc, text, place, order, schema)? {
        Some(row) => push_row(alloc, out, &row),
        None => out.extend_from_slice(b"(no row)"),
    }
}

fn push_rows(alloc: Global, out: &mut Vec<u8>, text: &[u8], dump: &Dump) -> Result<(), AllocError> {
    let orders = dump.inserts.orders.as_slice();
    for place in dump.inserts.places.as_slice() {
        if let Some(order) = order_at(orders, *place) {
            push_row_at(alloc, out, text, *place, order, &dump.schema)?;
        }
    }
    Ok(())
}

fn push_fault(
    alloc: Global,
    out: &mut Vec<u8>,
    at: u32,
    cause: DumpCause,
) -> Result<(), AllocError> {
    let shown = format!(in alloc; "fault {at} {cause:?}")?;
    out.extend_from_slice(shown.as_bytes())
}

/// A dump's table and rows, or its fault.
fn push_dump(alloc: Global, out: &mut Vec<u8>, text: &[u8]) -> Result<(), AllocError> {
    if text.len() >= MOST_BYTES {
        return out.extend_from_slice(b"too long");
    }
    match read_dump(alloc, text) {
        Ok(dump) => {
            out.extend_from_slice(dump.table.as_slice())?;
            out.push(b' ')?;
            push_rows(alloc, out, text, &dump)
        }
        Err(DumpFault::At { at, cause }) => push_fault(alloc, out, at, cause),
        Err(DumpFault::Memory) => out.extend_from_slice(b"no memory"),
    }
}

fn push_span(alloc: Global, out: &mut Vec<u8>, span: Span) -> Result<(), AllocError> {
    let Span { from, to } = span;
    out.extend_from_slice(format!(in alloc; "create {from}..{to}")?.as_bytes())
}

fn push_insert(alloc: Global, out: &mut Vec<u8>, at: u32) -> Result<(), AllocError> {
    out.extend_from_slice(format!(in alloc; " insert {at}")?.as_bytes())
}

fn push_end(alloc: Global, out: &mut Vec<u8>, fault: Option<Fault>) -> Result<(), AllocError> {
    match fault {
        Some(Fault { at, cause }) => {
            out.push(b' ')?;
            push_fault(alloc, out, at, cause)
        }
        None => Ok(()),
    }
}

fn push_outline(alloc: Global, out: &mut Vec<u8>, text: &[u8]) -> Result<(), AllocError> {
    if text.len() >= MOST_BYTES {
        return out.extend_from_slice(b"too long");
    }
    let Outline {
        create,
        first_insert,
        fault,
    } = read_outline(alloc, text)?;
    if let Some(span) = create {
        push_span(alloc, out, span)?;
    }
    if let Some(at) = first_insert {
        push_insert(alloc, out, at)?;
    }
    push_end(alloc, out, fault)
}

/// The dump that a line of a table gives.
fn dump_in(line: &str) -> &str {
    match line.split_once(" => ") {
        Some((dump, _)) => dump,
        None => line,
    }
}

fn push_dump_line(alloc: Global, out: &mut Vec<u8>, dump: &str) -> Result<(), AllocError> {
    out.extend_from_slice(dump.as_bytes())?;
    out.extend_from_slice(b" => ")?;
    push_dump(alloc, out, dump.as_bytes())?;
    out.push(b'\n')?;
    Ok(())
}

fn push_outline_line(alloc: Global, out: &mut Vec<u8>, dump: &str) -> Result<(), AllocError> {
    out.extend_from_slice(dump.as_bytes())?;
    out.extend_from_slice(b" => ")?;
    push_outline(alloc, out, dump.as_bytes())?;
    out.push(b'\n')?;
    Ok(())
}

/// The table that the lines' dumps give.
fn dumps_of(alloc: Global, lines: &str) -> Result<Vec<u8>, AllocError> {
    let mut out = Vec::new(alloc);
    for line in lines.lines() {
        push_dump_line(alloc, &mut out, dump_in(line))?;
    }
    Ok(out)
}

fn outlines_of(alloc: Global, lines: &str) -> Result<Vec<u8>, AllocError> {
    let mut out = Vec::new(alloc);
    for line in lines.lines() {
        push_outline_line(alloc, &mut out, dump_in(line))?;
    }
    Ok(out)
}

fn shown(alloc: Global, text: &str) -> Result<Vec<u8>, AllocError> {
    let mut out = Vec::new(alloc);
    push_dump(alloc, &mut out, text.as_bytes())?;
    Ok(out)
}

#[test]
fn reads_dumps(rt: HostRuntime) -> Result<(), AllocError> {
    let found = dumps_of(rt.alloc(), DUMPS)?;
    assert_eq!(rt; found.as_slice(), DUMPS.as_bytes());
    Ok(())
}

#[test]
fn reads_outlines(rt: HostRuntime) -> Result<(), AllocError> {
    let found = outlines_of(rt.alloc(), OUTLINES)?;
    assert_eq!(rt; found.as_slice(), OUTLINES.as_bytes());
    Ok(())
}

#[test]
fn reads_what_dumpling_writes(rt: HostRuntime) -> Result<(), AllocError> {
    let found = shown(rt.alloc(), DUMPLING)?;
    assert_eq!(rt; found.as_slice(), b"t (1,<a>)(2,NULL)".as_slice());
    Ok(())
}

#[test]
fn reads_what_mysqldump_writes(rt: HostRuntime) -> Result<(), AllocError> {
    let found = shown(rt.alloc(), MYSQLDUMP)?;
    assert_eq!(rt; found.as_slice(), b"t (1,<it's>)(2,NULL)".as_slice());
    Ok(())
}

/// A letter for each answer: `o` for a dump, the cause's first letter for a fault.
fn letter_of(alloc: Global, text: &[u8]) -> u8 {
    if text.len() >= MOST_BYTES {
        return b'?';
    }
    match read_dump(alloc, text) {
        Ok(_) => b'o',
        Err(DumpFault::At { cause, .. }) => match cause {
            DumpCause::NoCreate => b'N',
            DumpCause::Create => b'C',
            DumpCause::Statement => b'S',
            _ => b'?',
        },
        Err(DumpFault::Memory) => b'M',
    }
}

fn letters_of_cuts(alloc: Global, text: &[u8]) -> Result<Vec<u8>, AllocError> {
    let mut letters = Vec::new(alloc);
    for at in 0..=text.len() {
        let (front, _) = text.split_at(at);
        letters.push(letter_of(alloc, front))?;
    }
    Ok(letters)
}

fn count(letters: &[u8], letter: u8) -> usize {
    letters.iter().filter(|other| **other == letter).count()
}

// Nothing; `CREATE TABL` and less; up to the CREATE TABLE's last bracket; behind that bracket, its `;`, the blank, each
// row and the last `;`; and all other cuts within the INSERT.
#[test]
fn cuts_are_dumps_or_faults(rt: HostRuntime) -> Result<(), AllocError> {
    let letters = letters_of_cuts(rt.alloc(), WHOLE.as_bytes())?;
    assert_eq!(rt; letters.len(), 80);
    assert_eq!(rt; count(&letters, b'N'), 1);
    assert_eq!(rt; count(&letters, b'C'), 36);
    assert_eq!(rt; count(&letters, b'S'), 11 + 26);
    assert_eq!(rt; count(&letters, b'o'), 6);
    Ok(())
}
