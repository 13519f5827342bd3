ghost use Rattle.std.specs.Prelude.{◌≡◌, ◌<◌, ◌++◌, ◌∷◌, [], IfOk, not};
ghost use Rattle.dm_schema.specs.Names.{same_name};
ghost use Rattle.std.specs.List.{filter};
ghost use Rattle.dm_schema.specs.Effect.{has_key, is_taken, numbered, free_name, first_column, named_key};

use crate::columns::copied;
use dm_schema::{Copied, Name, UniqueKey};
use std::alloc::{AllocError, Global};

/// Whether a unique key has the name.
pub fn has_key(uniques: &[UniqueKey], name: &Name) -> bool
    ensures { result ≡ has_key uniques.now name.now }
{
    uniques.iter().any(|key| key.name == *name)
}

/// Whether no further key may get the name. The primary key's own name is taken.
fn is_taken(uniques: &[UniqueKey], name: &Name) -> bool
    ensures { result ≡ is_taken uniques.now name.now }
{
    has_key(uniques, name) || name.as_slice() == b"primary".as_slice()
}

/// The name with its number behind it, from the second on.
fn numbered(alloc: Global, name: &Name, number: u8) -> Result<Name, AllocError>
    requires { number < 100 }
    ensures { IfOk result (λ answer. answer ≡ numbered name.now number) }
{
    let mut bytes = name.as_slice().to_vec(alloc)?;
    if number != 1 {
        bytes.push(b'_')?;
        if number >= 10 {
            bytes.push(b'0' + number / 10)?;
        }
        bytes.push(b'0' + number % 10)?;
    }
    Ok(Name::new(bytes))
}

/// The first of a name and its numbered ones that isn't taken.
fn free_name(alloc: Global, uniques: &[UniqueKey], name: &Name) -> Result<Name, AllocError>
    ensures { IfOk result (λ free. free ≡ free_name uniques.now name.now) }
{
    for number in 1..19 {
        let candidate = numbered(alloc, name, number)?;
        if !is_taken(uniques, &candidate) {
            return Ok(candidate);
        }
    }
    name.copy(alloc)
}

fn first_column(alloc: Global, key: &UniqueKey) -> Result<Name, AllocError>
    ensures { IfOk result (λ name. name ≡ first_column key.now) }
{
    match key.columns.as_slice() {
        [first, ..] => first.copy(alloc),
        [] => Ok(Name::new(Vec::new(alloc))),
    }
}

/// The key with its own name, or with the one that it gets where it has none.
pub fn named_key(
    alloc: Global,
    uniques: &[UniqueKey],
    key: &UniqueKey,
    named: bool,
) -> Result<UniqueKey, AllocError>
    ensures { IfOk result (λ answer. answer ≡ named_key uniques.now key.now named) }
{
    if named {
        return key.copy(alloc);
    }
    let base = first_column(alloc, key)?;
    Ok(UniqueKey {
        name: free_name(alloc, uniques, &base)?,
        columns: key.columns.copy(alloc)?,
    })
}

/// The unique keys with a further one.
pub fn with_key(
    alloc: Global,
    uniques: &[UniqueKey],
    key: &UniqueKey,
    named: bool,
) -> Result<Vec<UniqueKey>, AllocError>
    ensures { IfOk result (λ all. all.items ≡ uniques.now ++ named_key uniques.now key.now named ∷ []) }
{
    let mut all = copied(alloc, uniques)?;
    all.push(named_key(alloc, uniques, key, named)?)?;
    Ok(all)
}

/// The unique keys without the one of a name.
pub fn without_key(
    alloc: Global,
    uniques: &[UniqueKey],
    name: &Name,
) -> Result<Vec<UniqueKey>, AllocError>
    ensures { IfOk result (λ rest. rest.items ≡ filter (λ k. not (same_name k.name name.now)) uniques.now) }
{
    let mut rest = Vec::with_capacity(alloc, uniques.len())?;
    for key in uniques {
        if key.name != *name {
            rest.push(key.copy(alloc)?)?;
        }
    }
    Ok(rest)
}
