ghost use Rattle.std.specs.Prelude.{◌≡◌, ◌<◌, ◌≤◌, ◌^◌, ◌++◌, Some, IfOk, OnOk};
ghost use Rattle.dm_list.specs.Answer.{Answers};
ghost use Rattle.json.specs.Tree.{json_tokens, HasNumbers};
ghost use Rattle.json.specs.Value.{value_view};
ghost use Rattle.dm_meta.specs.Texts.{checkpoint_json, checkpoint_text, checkpoint_with, checkpoint_in, checkpoint_of, is_memory, or_not_meta};

use crate::MetaFault;
use crate::reading::{is_record, value_of, whole_at};
use crate::writing::{VERSION, put_number};
use dm_list::Bytes;
use json::{Scratch, Value, Writer};
use std::alloc::{AllocError, Global};

/// How far a shard has come: all items up to `position` are applied, and at most `window` more may be.
#[derive(Clone, Copy, Debug, PartialEq, Eq)]
pub struct Checkpoint {
    pub position: u64,
    pub window: u32,
}

/// The text of a checkpoint. One whose window isn't 1 to 100,000 is written too, but can't be read again.
pub fn write_checkpoint(alloc: Global, value: Checkpoint) -> Result<Bytes, AllocError>
    ensures text { IfOk result (λ text. text ≡ checkpoint_text value) }
    ensures read_back { IfOk result (λ text.
        1 ≤ value.window → value.window ≤ 100000 → checkpoint_of text ≡ Some value) }
{
    let mut out = Writer::new(Vec::with_capacity(alloc, 64)?);
    put_checkpoint(&mut out, value)?;
    Ok(Bytes::new(out.into_inner()))
}

fn put_checkpoint(out: &mut Writer, value: Checkpoint) -> Result<(), AllocError>
    ensures tokens { OnOk result (out.new.tokens
        ≡ out.old.tokens ++ json_tokens (checkpoint_json value)) }
    ensures position { OnOk result (value.position < 2 ^ 64) }
    ensures before { out.new.before ≡ out.old.before }
{
    out.begin_object()?;
    put_number(out, "position", value.position)?;
    put_number(out, "version", VERSION)?;
    put_number(out, "window", value.window as u64)?;
    out.end_object()
}

/// The checkpoint that a text says: a JSON object with just these members, in any order, whose window is 1 to 100,000.
pub fn read_checkpoint(alloc: Global, text: &[u8]) -> Result<Checkpoint, MetaFault>
    ensures { Answers is_memory result (or_not_meta (checkpoint_of text.now)) }
{
    let mut scratch = Scratch::new(alloc);
    let value = value_of(alloc, text, &mut scratch)?;
    checkpoint_in(&value).ok_or(MetaFault::NotMeta)
}

fn checkpoint_in(value: &Value<'_>) -> Option<Checkpoint>
    requires { HasNumbers (value_view value.now) }
    ensures { result ≡ checkpoint_in (value_view value.now) }
{
    if !is_record(value, 3) {
        return None;
    }
    let position = whole_at(value, "position")?;
    let window = whole_at(value, "window")?;
    checkpoint_with(position, window)
}

fn checkpoint_with(position: u64, window: u64) -> Option<Checkpoint>
    ensures { result ≡ checkpoint_with position window }
{
    if 1 <= window && window <= 100_000 {
        let window = window as u32;
        Some(Checkpoint { position, window })
    } else {
        None
    }
}
