ghost use Rattle.std.specs.Prelude.{◌≡◌, ◌∷◌, ◌++◌, map, OnOk};
ghost use Rattle.std.specs.List.{flat_map};
ghost use Rattle.dm_text.specs.Names.{with_commas, doubled, quoted, name_list, table_name_text};

use dm_schema::TableName;
use dm_value::Name;
use std::alloc::{AllocError, Global};

/// Adds a name in backquotes, each backquote in it doubled.
pub fn push_name(out: &mut Vec<u8>, name: &Name) -> Result<(), AllocError>
    ensures { OnOk result (out.new.items ≡ out.old.items ++ quoted name.now) }
{
    out.push(b'`')?;
    push_all_doubled(out, name.as_slice())?;
    out.push(b'`')?;
    Ok(())
}

/// Adds names in brackets, with commas between them.
pub fn push_name_list(out: &mut Vec<u8>, names: &[Name]) -> Result<(), AllocError>
    ensures { OnOk result (out.new.items ≡ out.old.items ++ name_list names.now) }
{
    out.push(b'(')?;
    push_names(out, names)?;
    out.push(b')')?;
    Ok(())
}

/// Adds the name of a table behind its database's.
pub fn push_table_name(out: &mut Vec<u8>, name: &TableName) -> Result<(), AllocError>
    ensures { OnOk result (out.new.items ≡ out.old.items ++ table_name_text name.now) }
{
    push_name(out, &name.db)?;
    out.push(b'.')?;
    push_name(out, &name.table)
}

/// Adds names with commas between them.
fn push_names(out: &mut Vec<u8>, names: &[Name]) -> Result<(), AllocError>
    ensures { OnOk result (out.new.items ≡ out.old.items ++ with_commas (map quoted names.now)) }
{
    match names {
        [] => Ok(()),
        [first, rest @ ..] => {
            push_name(out, first)?;
            push_further_names(out, rest)
        }
    }
}

/// Adds names, each behind a comma.
fn push_further_names(out: &mut Vec<u8>, names: &[Name]) -> Result<(), AllocError>
    ensures { OnOk result
        (out.new.items ≡ out.old.items ++ flat_map (λ n. 44 ∷ quoted n) names.now) }
{
    for name in names {
        out.push(b',')?;
        push_name(out, name)?;
    }
    Ok(())
}

fn push_all_doubled(out: &mut Vec<u8>, name: &[u8]) -> Result<(), AllocError>
    ensures { OnOk result (out.new.items ≡ out.old.items ++ flat_map doubled name.now) }
{
    for byte in name {
        push_doubled(out, *byte)?;
    }
    Ok(())
}

/// Adds a byte, twice where it is a backquote.
fn push_doubled(out: &mut Vec<u8>, byte: u8) -> Result<(), AllocError>
    ensures { OnOk result (out.new.items ≡ out.old.items ++ doubled byte) }
{
    if byte == b'`' {
        out.push(b'`')?;
    }
    out.push(byte)?;
    Ok(())
}
