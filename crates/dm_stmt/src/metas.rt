ghost use Rattle.std.specs.Prelude.{◌≡◌, ◌++◌, OnOk};
ghost use Rattle.std.specs.List.{flat_map};
ghost use Rattle.dm_text.specs.Values.{string_text};
ghost use Rattle.dm_stmt.specs.Texts.{meta_text, transaction};

use dm_list::{Bytes, Copied};
use dm_schema::Kind;
use dm_target::Meta;
use dm_text::push_value;
use dm_value::Value;
use std::alloc::{AllocError, Global};

/// Adds texts under their names, which are all there or none.
pub fn push_metas(alloc: Global, out: &mut Vec<u8>, pairs: &[Meta]) -> Result<(), AllocError>
    ensures { OnOk result
        (out.new.items ≡ out.old.items ++ transaction (flat_map meta_text pairs.now)) }
{
    out.extend_from_slice(b"BEGIN;\n")?;
    push_each_meta(alloc, out, pairs)?;
    out.extend_from_slice(b"COMMIT;\n")?;
    Ok(())
}

fn push_each_meta(alloc: Global, out: &mut Vec<u8>, pairs: &[Meta]) -> Result<(), AllocError>
    ensures { OnOk result (out.new.items ≡ out.old.items ++ flat_map meta_text pairs.now) }
{
    for pair in pairs {
        push_meta(alloc, out, pair)?;
    }
    Ok(())
}

fn push_meta(alloc: Global, out: &mut Vec<u8>, pair: &Meta) -> Result<(), AllocError>
    ensures { OnOk result (out.new.items ≡ out.old.items ++ meta_text pair.now) }
{
    out.extend_from_slice(b"REPLACE INTO `dm_meta`.`state` (`name`,`text`) VALUES (")?;
    push_string(alloc, out, &pair.name)?;
    out.push(b',')?;
    push_string(alloc, out, &pair.text)?;
    out.extend_from_slice(b");\n")?;
    Ok(())
}

/// Adds a string in single quotes, as a value of a column of texts.
fn push_string(alloc: Global, out: &mut Vec<u8>, bytes: &Bytes) -> Result<(), AllocError>
    ensures { OnOk result (out.new.items ≡ out.old.items ++ string_text bytes.now) }
{
    let value = Value::Bytes(bytes.copy(alloc)?);
    push_value(alloc, out, Kind::Text(4), &value)
}
