ghost use Rattle.std.specs.Prelude.{◌≡◌, Some, None, Err, IfOk, option_map};
ghost use Rattle.json.specs.Find.{as_array};
ghost use Rattle.json.specs.Tree.{HasNumbers};
ghost use Rattle.json.specs.Value.{value_view, items_view};
ghost use Rattle.dm_meta.specs.Texts.{whole, whole_at, has_members, has_version, is_record, value_of};

use crate::MetaFault;
use crate::writing::VERSION;
use json::{Error, Scratch, Value};
use std::alloc::Global;

/// The value that a text is.
pub(crate) fn value_of<'a>(
    alloc: Global,
    text: &'a [u8],
    scratch: &'a mut Scratch,
) -> Result<Value<'a>, MetaFault>
    ensures value { IfOk result (λ value. value_of text.now ≡ Some (value_view value)) }
    ensures numbers { IfOk result (λ value. HasNumbers (value_view value)) }
    ensures none { result ≡ Err MetaFault.NotMeta → value_of text.now ≡ None }
{
    match Value::from_slice(alloc, text, scratch) {
        Ok(value) => Ok(value),
        Err(Error::Invalid) => Err(MetaFault::NotMeta),
        // Of the others only want of memory comes.
        Err(_) => Err(MetaFault::Memory),
    }
}

/// An object of so many members, whose version is the one that is read.
pub(crate) fn is_record(value: &Value<'_>, count: usize) -> bool
    requires { HasNumbers (value_view value.now) }
    ensures { result ≡ is_record count (value_view value.now) }
{
    has_members(value, count) && has_version(value)
}

fn has_members(value: &Value<'_>, count: usize) -> bool
    ensures { result ≡ has_members count (value_view value.now) }
{
    match value {
        Value::Object(members) => members.len() == count,
        _ => false,
    }
}

fn has_version(value: &Value<'_>) -> bool
    requires { HasNumbers (value_view value.now) }
    ensures { result ≡ has_version (value_view value.now) }
{
    match whole_at(value, "version") {
        Some(version) => version == VERSION,
        None => false,
    }
}

/// The whole number at a key.
pub(crate) fn whole_at(value: &Value<'_>, key: &str) -> Option<u64>
    requires { HasNumbers (value_view value.now) }
    ensures { result ≡ whole_at key.now (value_view value.now) }
{
    match value.get(key) {
        Some(number) => whole(number),
        None => None,
    }
}

/// A whole number, which is written by digits alone.
pub(crate) fn whole(value: &Value<'_>) -> Option<u64>
    requires { HasNumbers (value_view value.now) }
    ensures { result ≡ whole (value_view value.now) }
{
    value.as_u64()
}

/// The elements, where the value is an array.
pub(crate) fn as_array<'v, 'a>(value: &'v Value<'a>) -> Option<&'v [Value<'a>]>
    ensures { option_map (λ values. items_view values.now) result ≡ as_array (value_view value.now) }
{
    match value {
        Value::Array(values) => Some(values.as_slice()),
        _ => None,
    }
}
