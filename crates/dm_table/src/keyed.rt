ghost use Rattle.std.specs.Prelude.{◌≡◌, true, is_some, OnOk, OnErr};
ghost use Rattle.std.specs.Option.{option_copied};
ghost use Rattle.std.specs.FinMap as fin;

use dm_list::Copied;
use dm_value::Row;
use std::alloc::{AllocError, Global};
use std::collections::BTreeMap;
use std::marker::Model;

/// Rows under their keys.
#[derive(Debug, Drop)]
pub struct KeyedRows {
    rows: BTreeMap<Row, Row>,
}

impl Model for KeyedRows {
    ghost use Rattle.std.specs.FinMap as fin;
    ghost use Rattle.std.specs.BTreeMap.{IsOrdered};
    ghost use Rattle.dm_value.specs.Order.{row_cmp, coded_row};
    ghost use Rattle.dm_table.specs.Contents.{RowMap};

    ghost Value = { RowMap };

    ghost coded = { fin.code coded_row coded_row };

    ghost view = { λ keyed. fin.from_entries keyed.rows.entries };

    ghost invariant = { λ keyed. IsOrdered row_cmp keyed.rows };
}

impl KeyedRows {
    pub fn new(alloc: Global) -> KeyedRows
        ensures { result ≡ fin.empty }
    {
        KeyedRows {
            rows: BTreeMap::new(alloc),
        }
    }

    pub fn len(&self) -> u64
        ensures { result ≡ fin.len self.now }
    {
        self.rows.len() as u64
    }

    pub fn get(&self, key: &Row) -> Option<&Row>
        ensures { option_copied result ≡ fin.get self.now key.now }
    {
        self.rows.get(key)
    }

    /// The rows in the order of their keys.
    pub fn in_order(&self) -> &BTreeMap<Row, Row>
        ensures { result.now.entries ≡ fin.entries self.now }
    {
        &self.rows
    }

    /// Puts a row under a key, in the place of the one that is there.
    pub fn insert(&mut self, key: Row, row: Row) -> Result<(), AllocError>
        ensures put { OnOk result (self.new ≡ fin.insert self.old key row) }
        ensures kept { OnErr result (self.new ≡ self.old) }
    {
        self.rows.insert(key, row)?;
        Ok(())
    }

    /// Puts a row in the place of the one that is there, which takes no memory.
    pub fn replace(&mut self, key: Row, row: Row)
        requires { is_some (fin.get self.old key) ≡ true }
        ensures { self.new ≡ fin.insert self.old key row }
    {
        match self.rows.insert(key, row) {
            Ok(_) => (),
            Err(_) => unreachable!(),
        }
    }

    pub fn remove(&mut self, key: &Row)
        ensures { self.new ≡ fin.remove self.old key.now }
    {
        self.rows.remove(key);
    }
}

impl Copied for KeyedRows {
    fn copy(&self, alloc: Global) -> Result<KeyedRows, AllocError> {
        let mut copy = KeyedRows::new(alloc);
        for (key, row) in self.in_order() {
            copy.insert(key.copy(alloc)?, row.copy(alloc)?)?;
        }
        Ok(copy)
    }
}
