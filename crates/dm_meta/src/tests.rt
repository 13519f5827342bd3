ghost use Rattle.std.specs.Prelude.{All, IsUtf8};

mod tables;

use crate::{
    Checkpoint, LockRecord, MetaFault, checkpoint_name, lock_name, read_checkpoint, read_lock,
    write_checkpoint, write_lock,
};
use dm_list::Bytes;
use dm_schema::TableName;
use dm_value::Name;
use std::alloc::{AllocError, Global};
use tables::{CHECKPOINTS, LOCKS, NAMES};

fn push_checkpoint(
    alloc: Global,
    out: &mut Vec<u8>,
    checkpoint: Checkpoint,
) -> Result<(), AllocError> {
    let position = checkpoint.position;
    let window = checkpoint.window;
    out.extend_from_slice(format!(in alloc; " {position} {window} ")?.as_bytes())?;
    out.extend_from_slice(write_checkpoint(alloc, checkpoint)?.as_slice())
}

fn push_read_checkpoint(alloc: Global, out: &mut Vec<u8>, text: &[u8]) -> Result<(), AllocError> {
    match read_checkpoint(alloc, text) {
        Ok(checkpoint) => push_checkpoint(alloc, out, checkpoint),
        Err(MetaFault::NotMeta) => out.extend_from_slice(b" no"),
        Err(MetaFault::Memory) => out.extend_from_slice(b" no memory"),
    }
}

fn push_entries(alloc: Global, out: &mut Vec<u8>, lock: &LockRecord) -> Result<(), AllocError> {
    for entry in lock.order.as_slice() {
        let item = entry.item;
        out.push(b' ')?;
        out.extend_from_slice(entry.shard.as_slice())?;
        out.extend_from_slice(format!(in alloc; " {item}")?.as_bytes())?;
    }
    Ok(())
}

fn push_lock(alloc: Global, out: &mut Vec<u8>, lock: &LockRecord) -> Result<(), AllocError>
    requires { All (λ entry. IsUtf8 entry.shard) lock.now.order }
{
    push_entries(alloc, out, lock)?;
    out.push(b' ')?;
    out.extend_from_slice(write_lock(alloc, lock)?.as_slice())
}

fn push_read_lock(alloc: Global, out: &mut Vec<u8>, text: &[u8]) -> Result<(), AllocError> {
    match read_lock(alloc, text) {
        Ok(lock) => push_lock(alloc, out, &lock),
        Err(MetaFault::NotMeta) => out.extend_from_slice(b" no"),
        Err(MetaFault::Memory) => out.extend_from_slice(b" no memory"),
    }
}

/// The text that a line of a table gives.
fn text_in(line: &str) -> &str {
    match line.split_once(" =>") {
        Some((text, _)) => text,
        None => line,
    }
}

fn begin_line(out: &mut Vec<u8>, text: &str) -> Result<(), AllocError> {
    out.extend_from_slice(text.as_bytes())?;
    out.extend_from_slice(b" =>")
}

fn push_checkpoint_line(alloc: Global, out: &mut Vec<u8>, text: &str) -> Result<(), AllocError> {
    begin_line(out, text)?;
    push_read_checkpoint(alloc, out, text.as_bytes())?;
    out.push(b'\n')?;
    Ok(())
}

fn push_lock_line(alloc: Global, out: &mut Vec<u8>, text: &str) -> Result<(), AllocError> {
    begin_line(out, text)?;
    push_read_lock(alloc, out, text.as_bytes())?;
    out.push(b'\n')?;
    Ok(())
}

fn checkpoints_with(alloc: Global, lines: &str) -> Result<Vec<u8>, AllocError> {
    let mut out = Vec::new(alloc);
    for line in lines.lines() {
        push_checkpoint_line(alloc, &mut out, text_in(line))?;
    }
    Ok(out)
}

fn locks_with(alloc: Global, lines: &str) -> Result<Vec<u8>, AllocError> {
    let mut out = Vec::new(alloc);
    for line in lines.lines() {
        push_lock_line(alloc, &mut out, text_in(line))?;
    }
    Ok(out)
}

fn names(alloc: Global) -> Result<Vec<u8>, AllocError> {
    let table = TableName {
        db: Name::new(Vec::from_slice(alloc, b"d`b")?),
        table: Name::new(Vec::from_slice(alloc, b"t")?),
    };
    let mut out = lock_name(alloc, &table)?.into_vec();
    out.push(b'\n')?;
    push_checkpoint_name(alloc, &mut out)?;
    Ok(out)
}

fn push_checkpoint_name(alloc: Global, out: &mut Vec<u8>) -> Result<(), AllocError> {
    let shard = Bytes::new(Vec::from_slice(alloc, b"a `s`.`t0`")?);
    out.extend_from_slice(checkpoint_name(alloc, &shard)?.as_slice())?;
    out.push(b'\n')?;
    Ok(())
}

/// What is read of two texts that aren't UTF-8.
fn without_utf8(alloc: Global) -> Result<Vec<u8>, AllocError> {
    let mut out = Vec::new(alloc);
    push_read_checkpoint(
        alloc,
        &mut out,
        b"{\"position\":3,\"version\":1,\"window\":4}\xff",
    )?;
    push_read_lock(alloc, &mut out, b"{\"order\":[[\"\xff\",3]],\"version\":1}")?;
    Ok(out)
}

#[test]
fn reads_and_writes_checkpoints(rt: HostRuntime) -> Result<(), AllocError> {
    let found = checkpoints_with(rt.alloc(), CHECKPOINTS)?;
    assert_eq!(rt; found.as_slice(), CHECKPOINTS.as_bytes());
    Ok(())
}

#[test]
fn reads_and_writes_locks(rt: HostRuntime) -> Result<(), AllocError> {
    let found = locks_with(rt.alloc(), LOCKS)?;
    assert_eq!(rt; found.as_slice(), LOCKS.as_bytes());
    Ok(())
}

#[test]
fn refuses_what_is_not_utf8(rt: HostRuntime) -> Result<(), AllocError> {
    let found = without_utf8(rt.alloc())?;
    assert_eq!(rt; found.as_slice(), b" no no".as_slice());
    Ok(())
}

#[test]
fn names_records(rt: HostRuntime) -> Result<(), AllocError> {
    let found = names(rt.alloc())?;
    assert_eq!(rt; found.as_slice(), NAMES.as_bytes());
    Ok(())
}
