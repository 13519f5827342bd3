ghost use Rattle.std.specs.Prelude.{◌≡◌, ◌++◌, IfOk, OnOk};
ghost use Rattle.std.specs.List.{flat_map};
ghost use Rattle.dm_report.specs.Tasks.{numbered, shard_line, task_text};

use crate::faults::{push_two, push_word};
use dm_list::Bytes;
use dm_task::{Shard, Task, shards, targets};
use dm_text::push_table_name;
use std::alloc::{AllocError, Global};

/// What is printed of a task: a line of its numbers, and a line for each of its shards, in order.
pub fn task_text(alloc: Global, task: &Task) -> Result<Bytes, AllocError>
    ensures { IfOk result (λ text. text ≡ task_text task.now) }
{
    let shards = shards(alloc, task)?;
    let targets = targets(alloc, task)?;
    let mut text = Vec::new(alloc);
    text.extend_from_slice(b"task")?;
    push_word(&mut text, task.name.as_slice())?;
    push_number(alloc, &mut text, b"sources", task.sources.len())?;
    push_number(alloc, &mut text, b"shards", shards.len() as u64)?;
    push_number(alloc, &mut text, b"tables", targets.len() as u64)?;
    text.extend_from_slice(b"\n")?;
    push_shards(&mut text, &shards)?;
    Ok(Bytes::new(text))
}

/// Adds a number behind its word.
fn push_number(
    alloc: Global,
    text: &mut Vec<u8>,
    word: &[u8],
    number: u64,
) -> Result<(), AllocError>
    ensures { OnOk result (text.new.items ≡ text.old.items ++ numbered word.now number) }
{
    let digits = number.to_string(alloc)?;
    push_two(text, word, digits.as_bytes())
}

fn push_shards(text: &mut Vec<u8>, shards: &[Shard]) -> Result<(), AllocError>
    ensures { OnOk result (text.new.items ≡ text.old.items ++ flat_map shard_line shards.now) }
{
    for shard in shards {
        push_shard(text, shard)?;
    }
    Ok(())
}

fn push_shard(text: &mut Vec<u8>, shard: &Shard) -> Result<(), AllocError>
    ensures { OnOk result (text.new.items ≡ text.old.items ++ shard_line shard.now) }
{
    text.extend_from_slice(b"shard")?;
    push_word(text, shard.source.as_slice())?;
    text.push(b' ')?;
    push_table_name(text, &shard.name)?;
    text.extend_from_slice(b" to ")?;
    push_table_name(text, &shard.target)?;
    text.extend_from_slice(b"\n")?;
    Ok(())
}
