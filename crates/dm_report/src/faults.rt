ghost use Rattle.std.specs.Prelude.{◌≡◌, ◌++◌, IsTrue, IfOk, OnOk};
ghost use Rattle.std.specs.List.{flat_map};
ghost use Rattle.dm_report.specs.Faults.{task_cause_text, dump_cause_text, join_cause_text, which_text, behind_blank, has_line, fault_words, fault_line};

use crate::status::{Status, Which};
use dm_dump::DumpCause;
use dm_join::JoinCause;
use dm_list::Bytes;
use dm_schema::TableName;
use dm_task::TaskCause;
use dm_text::{push_name, push_table_name};
use dm_value::Name;
use std::alloc::{AllocError, Global};

/// The fault line of a status, with its line end; empty where there is none.
pub fn fault_line(alloc: Global, status: &Status) -> Result<Bytes, AllocError>
    ensures { IfOk result (λ line. line ≡ fault_line status.now) }
{
    let mut line = Vec::new(alloc);
    match status {
        Status::Done | Status::WriteFault | Status::Memory => {}
        _ => push_line(alloc, &mut line, status)?,
    }
    Ok(Bytes::new(line))
}

/// Adds the line of a status that has one.
fn push_line(alloc: Global, line: &mut Vec<u8>, status: &Status) -> Result<(), AllocError>
    requires { IsTrue (has_line status.now) }
    ensures { OnOk result (line.new.items ≡ line.old.items ++ fault_line status.now) }
{
    line.extend_from_slice(b"fault")?;
    push_fault(alloc, line, status)?;
    line.extend_from_slice(b"\n")?;
    Ok(())
}

/// Adds the words of a status's line.
fn push_fault(alloc: Global, line: &mut Vec<u8>, status: &Status) -> Result<(), AllocError>
    ensures { OnOk result (line.new.items ≡ line.old.items ++ flat_map behind_blank (fault_words status.now)) }
{
    match status {
        Status::Done | Status::WriteFault | Status::Memory => Ok(()),
        Status::Usage => push_word(line, b"Usage"),
        Status::Task { path, cause } => {
            push_two(line, b"Task", path.as_slice())?;
            push_word(line, task_cause_text(*cause))
        }
        Status::ReadFault => push_word(line, b"ReadFault"),
        Status::TargetFault => push_word(line, b"TargetFault"),
        Status::JournalBad { at } => push_bad(alloc, line, *at),
        Status::Limit { which } => push_two(line, b"Limit", which_text(*which)),
        Status::Unlawful => push_word(line, b"Unlawful"),
        Status::Missing { name } => push_two(line, b"Missing", name.as_slice()),
        Status::Dump { file, at, cause } => push_dump(alloc, line, file, *at, *cause),
        Status::First {
            table,
            column,
            cause,
        } => push_first(line, table, column, *cause),
    }
}

/// Adds a word behind a blank.
pub fn push_word(line: &mut Vec<u8>, word: &[u8]) -> Result<(), AllocError>
    ensures { OnOk result (line.new.items ≡ line.old.items ++ behind_blank word.now) }
{
    line.push(b' ')?;
    line.extend_from_slice(word)
}

/// Adds two words.
pub fn push_two(line: &mut Vec<u8>, first: &[u8], second: &[u8]) -> Result<(), AllocError>
    ensures { OnOk result (line.new.items ≡ line.old.items ++ (behind_blank first.now ++ behind_blank second.now)) }
{
    push_word(line, first)?;
    push_word(line, second)
}

fn push_bad(alloc: Global, line: &mut Vec<u8>, at: u32) -> Result<(), AllocError>
    ensures { OnOk result (line.new.items ≡ line.old.items ++ flat_map behind_blank (fault_words (Status.JournalBad at))) }
{
    let place = at.to_string(alloc)?;
    push_two(line, b"JournalBad", place.as_bytes())
}

fn push_dump(
    alloc: Global,
    line: &mut Vec<u8>,
    file: &Bytes,
    at: u32,
    cause: DumpCause,
) -> Result<(), AllocError>
    ensures { OnOk result (line.new.items ≡ line.old.items ++ flat_map behind_blank (fault_words (Status.Dump file.now at cause))) }
{
    let place = at.to_string(alloc)?;
    push_two(line, b"Dump", file.as_slice())?;
    push_two(line, place.as_bytes(), dump_cause_text(cause))
}

fn push_first(
    line: &mut Vec<u8>,
    table: &TableName,
    column: &Name,
    cause: JoinCause,
) -> Result<(), AllocError>
    ensures { OnOk result (line.new.items ≡ line.old.items ++ flat_map behind_blank (fault_words (Status.First table.now column.now cause))) }
{
    push_word(line, b"First")?;
    line.push(b' ')?;
    push_table_name(line, table)?;
    push_word(line, b"NoJoin")?;
    line.push(b' ')?;
    push_name(line, column)?;
    push_word(line, join_cause_text(cause))
}

fn task_cause_text(cause: TaskCause) -> &'static [u8]
    ensures { result.now ≡ task_cause_text cause }
{
    match cause {
        TaskCause::NotToml => b"NotToml",
        TaskCause::Unknown => b"Unknown",
        TaskCause::Absent => b"Absent",
        TaskCause::Kind => b"Kind",
        TaskCause::Range => b"Range",
        TaskCause::Repeated => b"Repeated",
        TaskCause::Shards => b"Shards",
        TaskCause::Targets => b"Targets",
    }
}

fn dump_cause_text(cause: DumpCause) -> &'static [u8]
    ensures { result.now ≡ dump_cause_text cause }
{
    match cause {
        DumpCause::Lex => b"Lex",
        DumpCause::Statement => b"Statement",
        DumpCause::SecondCreate => b"SecondCreate",
        DumpCause::Table => b"Table",
        DumpCause::Columns => b"Columns",
        DumpCause::Count => b"Count",
        DumpCause::Unfit => b"Unfit",
        DumpCause::NoCreate => b"NoCreate",
        DumpCause::Create => b"Create",
    }
}

fn join_cause_text(cause: JoinCause) -> &'static [u8]
    ensures { result.now ≡ join_cause_text cause }
{
    match cause {
        JoinCause::Primary => b"Primary",
        JoinCause::Family => b"Family",
        JoinCause::KindDiffers => b"KindDiffers",
        JoinCause::DefaultDiffers => b"DefaultDiffers",
        JoinCause::MissingNoFill => b"MissingNoFill",
    }
}

fn which_text(which: Which) -> &'static [u8]
    ensures { result.now ≡ which_text which }
{
    match which {
        Which::Files => b"Files",
        Which::Items => b"Items",
        Which::Values => b"Values",
        Which::Journal => b"Journal",
    }
}
