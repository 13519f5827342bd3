ghost use Rattle.std.specs.Prelude.{◌≡◌, ◌<◌, ◌^◌, ◌++◌, Some, All, IsUtf8, IfOk, OnOk};
ghost use Rattle.dm_list.specs.Answer.{Answers};
ghost use Rattle.json.specs.Tree.{json_tokens, items_tokens, HasNumbers, ItemsHaveNumbers};
ghost use Rattle.json.specs.Value.{value_view, items_view};
ghost use Rattle.dm_meta.specs.Texts.{lock_json, lock_text, entry_json, entries_json};
ghost use Rattle.dm_meta.specs.Texts.{entry_with, entry_of, entry_in, entries_in, order_in, lock_in, lock_of, is_memory, or_not_meta};

use crate::MetaFault;
use crate::reading::{as_array, is_record, value_of, whole};
use crate::writing::{VERSION, put_number};
use dm_list::{Bytes, Sequence};
use json::{Scratch, Value, Writer};
use std::alloc::{AllocError, Global};
use std::str;

/// A statement of a shard's history: the shard's name, and the item's number.
#[derive(Debug, Drop, PartialEq, Eq)]
pub struct Entry {
    pub shard: Bytes,
    pub item: u64,
}

/// The schema changes that a table's lock has taken, in turn.
#[derive(Debug, Drop, PartialEq, Eq)]
pub struct LockRecord {
    pub order: Sequence<Entry>,
}

/// The text of a lock record, whose shards' names are UTF-8.
pub fn write_lock(alloc: Global, value: &LockRecord) -> Result<Bytes, AllocError>
    requires { All (λ entry. IsUtf8 entry.shard) value.now.order }
    ensures text { IfOk result (λ text. text ≡ lock_text value.now) }
    ensures read_back { IfOk result (λ text. lock_of text ≡ Some value.now) }
{
    let mut out = Writer::new(Vec::with_capacity(alloc, 64)?);
    put_lock(&mut out, value)?;
    Ok(Bytes::new(out.into_inner()))
}

fn put_lock(out: &mut Writer, value: &LockRecord) -> Result<(), AllocError>
    requires { All (λ entry. IsUtf8 entry.shard) value.now.order }
    ensures tokens { OnOk result (out.new.tokens
        ≡ out.old.tokens ++ json_tokens (lock_json value.now)) }
    ensures items { OnOk result (All (λ entry. entry.item < 2 ^ 64) value.now.order) }
    ensures before { out.new.before ≡ out.old.before }
{
    out.begin_object()?;
    out.key("order")?;
    out.begin_array()?;
    put_entries(out, value.order.as_slice())?;
    put_number(out, "version", VERSION)?;
    out.end_object()
}

/// The elements of an array that was begun, and its end.
fn put_entries(out: &mut Writer, entries: &[Entry]) -> Result<(), AllocError>
    requires { All (λ entry. IsUtf8 entry.shard) entries.now }
    ensures tokens { OnOk result (out.new.tokens
        ≡ out.old.tokens ++ items_tokens (entries_json entries.now)) }
    ensures items { OnOk result (All (λ entry. entry.item < 2 ^ 64) entries.now) }
    ensures before { out.new.before ≡ out.old.before }
{
    for entry in entries {
        put_entry(out, entry)?;
    }
    out.end_array()
}

fn put_entry(out: &mut Writer, entry: &Entry) -> Result<(), AllocError>
    requires { IsUtf8 entry.now.shard }
    ensures tokens { OnOk result (out.new.tokens
        ≡ out.old.tokens ++ json_tokens (entry_json entry.now)) }
    ensures item { OnOk result (entry.now.item < 2 ^ 64) }
    ensures before { out.new.before ≡ out.old.before }
{
    let shard = str::from_utf8(entry.shard.as_slice()).unwrap();
    out.begin_array()?;
    out.string(shard)?;
    out.u64(entry.item)?;
    out.end_array()
}

/// The lock record that a text says: a JSON object with just these members, in any order, whose entries are arrays of a
/// string and a whole number.
pub fn read_lock(alloc: Global, text: &[u8]) -> Result<LockRecord, MetaFault>
    ensures lock { Answers is_memory result (or_not_meta (lock_of text.now)) }
    ensures text { IfOk result (λ lock. All (λ entry. IsUtf8 entry.shard) lock.order) }
{
    let mut scratch = Scratch::new(alloc);
    let value = value_of(alloc, text, &mut scratch)?;
    lock_in(alloc, &value)
}

fn lock_in(alloc: Global, value: &Value<'_>) -> Result<LockRecord, MetaFault>
    requires { HasNumbers (value_view value.now) }
    ensures value { Answers is_memory result (or_not_meta (lock_in (value_view value.now))) }
    ensures text { IfOk result (λ lock. All (λ entry. IsUtf8 entry.shard) lock.order) }
{
    if !is_record(value, 2) {
        return Err(MetaFault::NotMeta);
    }
    match value.get("order") {
        Some(order) => order_in(alloc, order),
        None => Err(MetaFault::NotMeta),
    }
}

fn order_in(alloc: Global, value: &Value<'_>) -> Result<LockRecord, MetaFault>
    requires { HasNumbers (value_view value.now) }
    ensures value { Answers is_memory result (or_not_meta (order_in (value_view value.now))) }
    ensures text { IfOk result (λ lock. All (λ entry. IsUtf8 entry.shard) lock.order) }
{
    match as_array(value) {
        Some(values) => {
            let order = entries_in(alloc, values)?;
            Ok(LockRecord { order })
        }
        None => Err(MetaFault::NotMeta),
    }
}

fn entries_in(alloc: Global, values: &[Value<'_>]) -> Result<Sequence<Entry>, MetaFault>
    requires { ItemsHaveNumbers (items_view values.now) }
    ensures value { Answers is_memory result (or_not_meta (entries_in (items_view values.now))) }
    ensures text { IfOk result (λ order. All (λ entry. IsUtf8 entry.shard) order) }
{
    let mut entries = Vec::new(alloc);
    for value in values {
        let entry = entry_in(alloc, value)?;
        entries.push(entry)?;
    }
    Ok(Sequence::new(entries))
}

fn entry_in(alloc: Global, value: &Value<'_>) -> Result<Entry, MetaFault>
    requires { HasNumbers (value_view value.now) }
    ensures value { Answers is_memory result (or_not_meta (entry_in (value_view value.now))) }
    ensures text { IfOk result (λ entry. IsUtf8 entry.shard) }
{
    match as_array(value) {
        Some(values) => entry_of(alloc, values),
        None => Err(MetaFault::NotMeta),
    }
}

fn entry_of(alloc: Global, values: &[Value<'_>]) -> Result<Entry, MetaFault>
    requires { ItemsHaveNumbers (items_view values.now) }
    ensures value { Answers is_memory result (or_not_meta (entry_of (items_view values.now))) }
    ensures text { IfOk result (λ entry. IsUtf8 entry.shard) }
{
    if values.len() != 2 {
        return Err(MetaFault::NotMeta);
    }
    entry_with(alloc, &values[0], &values[1])
}

fn entry_with(alloc: Global, first: &Value<'_>, second: &Value<'_>) -> Result<Entry, MetaFault>
    requires { HasNumbers (value_view second.now) }
    ensures value { Answers is_memory result (or_not_meta (entry_with (value_view first.now) (value_view second.now))) }
    ensures text { IfOk result (λ entry. IsUtf8 entry.shard) }
{
    let shard = first.as_str().ok_or(MetaFault::NotMeta)?;
    let item = whole(second).ok_or(MetaFault::NotMeta)?;
    let shard = Bytes::new(Vec::from_slice(alloc, shard.as_bytes())?);
    Ok(Entry { shard, item })
}
