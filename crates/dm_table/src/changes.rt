ghost use Rattle.std.specs.Prelude.{◌≡◌, [], ◌∷◌, IfSome, IfNone, OnOk};
ghost use Rattle.std.specs.Option.{option_copied};
ghost use Rattle.std.specs.FinMap as fin;

use dm_value::Row;
use std::alloc::{AllocError, Global};
use std::collections::BTreeMap;
use std::marker::Model;

/// By key, the row that operations left there, or none where they removed it.
#[derive(Drop)]
pub struct Changes {
    rows: BTreeMap<Row, Option<Row>>,
}

impl Model for Changes {
    ghost use Rattle.std.specs.FinMap as fin;
    ghost use Rattle.std.specs.BTreeMap.{IsOrdered};
    ghost use Rattle.dm_value.specs.Order.{row_cmp};
    ghost use Rattle.dm_table.specs.Staging.{ChangeMap};
    ghost use Rattle.dm_table.specs.Coding.{coded_changes};

    ghost Value = { ChangeMap };

    ghost coded = { coded_changes };

    ghost view = { λ changes. fin.from_entries changes.rows.entries };

    ghost invariant = { λ changes. IsOrdered row_cmp changes.rows };
}

impl Changes {
    pub fn new(alloc: Global) -> Changes
        ensures { result ≡ fin.empty }
    {
        Changes {
            rows: BTreeMap::new(alloc),
        }
    }

    pub fn get(&self, key: &Row) -> Option<&Option<Row>>
        ensures { option_copied result ≡ fin.get self.now key.now }
    {
        self.rows.get(key)
    }

    /// The changes in the order of their keys.
    pub fn in_order(&self) -> &BTreeMap<Row, Option<Row>>
        ensures { result.now.entries ≡ fin.entries self.now }
    {
        &self.rows
    }

    /// Notes a change, in the place of the one that is there.
    pub fn put(&mut self, key: Row, change: Option<Row>) -> Result<(), AllocError>
        ensures { OnOk result (self.new ≡ fin.insert self.old key change) }
    {
        self.rows.insert(key, change)?;
        Ok(())
    }

    /// Takes the first change in the order of the keys away.
    pub fn take_first(&mut self) -> Option<(Row, Option<Row>)>
        ensures taken { IfSome result (λ e. fin.entries self.old ≡ e ∷ fin.entries self.new) }
        ensures end { IfNone result (fin.entries self.old ≡ []) }
    {
        self.rows.pop_first()
    }
}
