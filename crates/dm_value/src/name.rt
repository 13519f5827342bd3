ghost use Rattle.std.specs.Prelude.{◌≡◌, ◌<◌, length, slice_get, OnSome};
ghost use Rattle.std.specs.Option.{option_copied};

use dm_list::{Bytes, Copied};
use std::alloc::{AllocError, Global};
use std::marker::Model;

/// The name of a column, a key, a table or a database, as bytes.
#[derive(Debug, Drop, PartialEq, Eq, PartialOrd, Ord)]
pub struct Name {
    bytes: Bytes,
}

impl Model for Name {
    ghost use Rattle.std.specs.Prelude.{List, ℕ};

    ghost Value = { List ℕ };

    ghost view = { λ name. name.bytes };

    ghost inverse = { λ bytes. record { bytes = bytes } };
}

impl Name {
    pub fn new(list: Vec<u8>) -> Self
        ensures { result ≡ list.items }
    {
        Name {
            bytes: Bytes::new(list),
        }
    }

    pub fn as_slice(&self) -> &[u8]
        ensures { result.now ≡ self.now }
    {
        self.bytes.as_slice()
    }

    pub fn len(&self) -> u64
        ensures { result ≡ length self.now }
    {
        self.bytes.len()
    }

    /// The byte at a place, counted from 0.
    pub fn get(&self, place: u64) -> Option<&u8>
        ensures value { option_copied result ≡ slice_get self.now place }
        ensures within { OnSome result (place < length self.now) }
    {
        self.bytes.get(place)
    }
}

impl Copied for Name {
    fn copy(&self, alloc: Global) -> Result<Name, AllocError> {
        Ok(Name {
            bytes: self.bytes.copy(alloc)?,
        })
    }
}
