ghost use Rattle.std.specs.Prelude.{◌≡◌, IfOk, OnOk};
ghost use Rattle.std.specs.Option.{option_copied};
ghost use Rattle.std.specs.FinMap as fin;
ghost use Rattle.dm_target.specs.Contents.{with_metas};

use crate::Meta;
use dm_list::{Bytes, Copied};
use std::alloc::{AllocError, Global};
use std::collections::BTreeMap;
use std::marker::Model;

/// Texts under their names.
#[derive(Debug, Drop)]
pub(crate) struct Texts {
    texts: BTreeMap<Bytes, Bytes>,
}

impl Model for Texts {
    ghost use Rattle.std.specs.FinMap as fin;
    ghost use Rattle.std.specs.BTreeMap.{IsOrdered};
    ghost use Rattle.dm_schema.specs.Names.{name_cmp};
    ghost use Rattle.dm_target.specs.Maps.{TextMap, coded_texts};

    ghost Value = { TextMap };

    ghost coded = { coded_texts };

    ghost view = { λ it. fin.from_entries it.texts.entries };

    ghost invariant = { λ it. IsOrdered name_cmp it.texts };
}

impl Texts {
    pub(crate) fn new(alloc: Global) -> Texts
        ensures { result ≡ fin.empty }
    {
        Texts {
            texts: BTreeMap::new(alloc),
        }
    }

    /// The text of a name; goes over the texts, since a name that isn't owned can't be looked up in the map.
    pub(crate) fn get(&self, name: &[u8]) -> Option<&Bytes>
        ensures { option_copied result ≡ fin.get self.now name.now }
    {
        for (other, text) in self.in_order() {
            if name.cmp(other.as_slice()).is_eq() {
                return Some(text);
            }
        }
        None
    }

    /// The names in byte order.
    pub(crate) fn names(&self, alloc: Global) -> Result<Vec<Bytes>, AllocError>
        ensures { IfOk result (λ names. names.items ≡ fin.keys self.now) }
    {
        let mut names = Vec::new(alloc);
        for (name, _) in self.in_order() {
            names.push(name.copy(alloc)?)?;
        }
        Ok(names)
    }

    /// Copies of the texts, and over them those of the pairs.
    pub(crate) fn with_metas(&self, alloc: Global, pairs: &[Meta]) -> Result<Texts, AllocError>
        ensures { IfOk result (λ made. made ≡ with_metas pairs.now self.now) }
    {
        let mut made = self.copy(alloc)?;
        for pair in pairs {
            made.insert(pair.name.copy(alloc)?, pair.text.copy(alloc)?)?;
        }
        Ok(made)
    }

    fn insert(&mut self, name: Bytes, text: Bytes) -> Result<(), AllocError>
        ensures { OnOk result (self.new ≡ fin.insert self.old name text) }
    {
        self.texts.insert(name, text)?;
        Ok(())
    }

    pub(crate) fn in_order(&self) -> &BTreeMap<Bytes, Bytes>
        ensures { result.now.entries ≡ fin.entries self.now }
    {
        &self.texts
    }
}

impl Copied for Texts {
    fn copy(&self, alloc: Global) -> Result<Texts, AllocError> {
        let mut copy = Texts::new(alloc);
        for (name, text) in self.in_order() {
            copy.insert(name.copy(alloc)?, text.copy(alloc)?)?;
        }
        Ok(copy)
    }
}
