ghost use Rattle.std.specs.Prelude.{◌≡◌, IfOk};
ghost use Rattle.dm_table.specs.Operations.{names_in_order};

use dm_list::Copied;
use dm_schema::{Named, in_name_order};
use dm_value::Name;
use std::alloc::{AllocError, Global};
use std::marker::Model;

/// A name that an operation says, as a thing that can be put in order.
#[derive(Drop)]
pub struct SaidName {
    name: Name,
}

impl Model for SaidName {
    ghost use Rattle.std.specs.Prelude.{List, ℕ};

    ghost Value = { List ℕ };

    ghost view = { λ said. said.name };
}

impl SaidName {
    pub fn as_name(&self) -> &Name
        ensures { result.now ≡ self.now }
    {
        &self.name
    }
}

impl Copied for SaidName {
    fn copy(&self, alloc: Global) -> Result<SaidName, AllocError> {
        Ok(SaidName {
            name: self.name.copy(alloc)?,
        })
    }
}

impl Named for SaidName {
    ghost name = { λ said. said };

    fn name(&self) -> &Name {
        &self.name
    }
}

/// Names in byte order.
pub fn said_in_order(alloc: Global, names: &[Name]) -> Result<Vec<SaidName>, AllocError>
    ensures { IfOk result (λ said. said.items ≡ names_in_order names.now) }
{
    let said = all_said(alloc, names)?;
    in_name_order(alloc, &said)
}

fn all_said(alloc: Global, names: &[Name]) -> Result<Vec<SaidName>, AllocError>
    ensures { IfOk result (λ said. said.items ≡ names.now) }
{
    let mut said = Vec::with_capacity(alloc, names.len())?;
    for name in names {
        said.push(SaidName {
            name: name.copy(alloc)?,
        })?;
    }
    Ok(said)
}
