ghost use Rattle.std.specs.Prelude.{◌≡◌, OnOk};
ghost use Rattle.std.specs.Option.{option_copied};
ghost use Rattle.std.specs.FinMap as fin;
ghost use Rattle.dm_table.specs.Indexing.{all_noted};
ghost use Rattle.dm_table.specs.Staging.{rows_behind, changed, removed_all};

use crate::changes::Changes;
use crate::keyed::KeyedRows;
use dm_list::Copied;
use dm_value::Row;
use std::alloc::{AllocError, Global};
use std::marker::Model;

/// A table's rows, or their index, beside what operations have changed of it, so that the table stays as it is until all
/// are taken.
#[derive(Drop)]
pub struct Staged<'a> {
    base: &'a KeyedRows,
    changes: Changes,
}

impl<'a> Model for Staged<'a> {
    ghost use Rattle.dm_table.specs.Staging.{Staging};
    ghost use Rattle.dm_table.specs.Coding.{coded_staging};

    ghost Value = { Staging };

    ghost coded = { coded_staging };

    ghost view = { λ staged. record { base = staged.base.now; changes = staged.changes } };
}

impl<'a> Staged<'a> {
    pub fn new(alloc: Global, base: &'a KeyedRows) -> Staged<'a>
        ensures { result ≡ record { base = base.now; changes = fin.empty } }
    {
        Staged {
            base,
            changes: Changes::new(alloc),
        }
    }

    pub fn into_changes(self) -> Changes
        ensures { result ≡ self.entry.changes }
    {
        self.changes
    }

    pub fn get(&self, key: &Row) -> Option<&Row>
        ensures { option_copied result ≡ fin.get (rows_behind self.now) key.now }
    {
        match self.changes.get(key) {
            Some(change) => change.as_ref(),
            None => self.base.get(key),
        }
    }

    /// Notes that a row was left under a key, or that none is there any more.
    fn note(&mut self, key: Row, change: Option<Row>) -> Result<(), AllocError>
        ensures behind { OnOk result (rows_behind self.new ≡ changed (rows_behind self.old) key change) }
        ensures base { OnOk result (self.new.base ≡ self.old.base) }
    {
        self.changes.put(key, change)
    }

    /// Puts a row under a key, in the place of the one that is there.
    pub fn insert(&mut self, key: Row, row: Row) -> Result<(), AllocError>
        ensures behind { OnOk result (rows_behind self.new ≡ fin.insert (rows_behind self.old) key row) }
        ensures base { OnOk result (self.new.base ≡ self.old.base) }
    {
        self.note(key, Some(row))
    }

    pub fn remove(&mut self, alloc: Global, key: &Row) -> Result<(), AllocError>
        ensures behind { OnOk result (rows_behind self.new ≡ fin.remove (rows_behind self.old) key.now) }
        ensures base { OnOk result (self.new.base ≡ self.old.base) }
    {
        self.note(key.copy(alloc)?, None)
    }

    /// Notes a place under each of the keys.
    pub fn insert_all(
        &mut self,
        alloc: Global,
        keys: Vec<Row>,
        place: &Row,
    ) -> Result<(), AllocError>
        ensures behind { OnOk result (rows_behind self.new ≡ all_noted place.now keys.items (rows_behind self.old)) }
        ensures base { OnOk result (self.new.base ≡ self.old.base) }
    {
        for key in keys {
            self.insert(key, place.copy(alloc)?)?;
        }
        Ok(())
    }

    pub fn remove_all(&mut self, alloc: Global, keys: &[Row]) -> Result<(), AllocError>
        ensures behind { OnOk result (rows_behind self.new ≡ removed_all keys.now (rows_behind self.old)) }
        ensures base { OnOk result (self.new.base ≡ self.old.base) }
    {
        for key in keys {
            self.remove(alloc, key)?;
        }
        Ok(())
    }
}
