use crate::{Column, EffectFault, UniqueKey};
use dm_list::{Bytes, Copied};
use dm_value::Name;
use std::alloc::{AllocError, Global};

/// Where a column stands after a change: where it stood, last, first, or behind another.
#[derive(Debug, Drop, PartialEq, Eq)]
pub enum Spot {
    Keep,
    Last,
    First,
    After(Name),
}

/// One change of an ALTER TABLE.
#[derive(Debug, Drop)]
pub enum Change {
    Add {
        column: Column,
        spot: Spot,
    },
    Drop {
        name: Name,
    },
    /// `null_written`: NULL stands in the column's text, and AUTO_INCREMENT doesn't.
    Modify {
        column: Column,
        spot: Spot,
        null_written: bool,
    },
    /// The literal as it is written, with its minus; empty for DROP DEFAULT.
    SetDefault {
        name: Name,
        text: Bytes,
    },
    /// `named`: the key has a name of its own or a CONSTRAINT's; else its name is empty.
    AddUnique {
        key: UniqueKey,
        named: bool,
    },
    DropKey {
        name: Name,
    },
    RenameKey {
        name: Name,
    },
    Refused {
        cause: EffectFault,
    },
    NoEffect,
}

impl Copied for Spot {
    fn copy(&self, alloc: Global) -> Result<Spot, AllocError> {
        Ok(match self {
            Spot::Keep => Spot::Keep,
            Spot::Last => Spot::Last,
            Spot::First => Spot::First,
            Spot::After(name) => Spot::After(name.copy(alloc)?),
        })
    }
}

impl Copied for Change {
    fn copy(&self, alloc: Global) -> Result<Change, AllocError> {
        Ok(match self {
            Change::Add { column, spot } => Change::Add {
                column: column.copy(alloc)?,
                spot: spot.copy(alloc)?,
            },
            Change::Drop { name } => Change::Drop {
                name: name.copy(alloc)?,
            },
            Change::Modify {
                column,
                spot,
                null_written,
            } => Change::Modify {
                column: column.copy(alloc)?,
                spot: spot.copy(alloc)?,
                null_written: *null_written,
            },
            Change::SetDefault { name, text } => Change::SetDefault {
                name: name.copy(alloc)?,
                text: text.copy(alloc)?,
            },
            Change::AddUnique { key, named } => Change::AddUnique {
                key: key.copy(alloc)?,
                named: *named,
            },
            Change::DropKey { name } => Change::DropKey {
                name: name.copy(alloc)?,
            },
            Change::RenameKey { name } => Change::RenameKey {
                name: name.copy(alloc)?,
            },
            Change::Refused { cause } => Change::Refused { cause: *cause },
            Change::NoEffect => Change::NoEffect,
        })
    }
}
