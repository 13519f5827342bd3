ghost use Rattle.std.specs.Prelude.{◌≡◌, OnOk, OnErr};
ghost use Rattle.std.specs.Option.{option_copied};
ghost use Rattle.std.specs.FinMap as fin;
ghost use Rattle.dm_stmt.specs.Known.{schema_in};

use dm_list::Copied;
use dm_schema::{Schema, TableName};
use std::alloc::{AllocError, Global};
use std::collections::BTreeMap;
use std::marker::Model;

/// The schemas of the tables so far. They tell how the values of operations are written and read.
#[derive(Debug, Drop)]
pub struct Known {
    schemas: BTreeMap<TableName, Schema>,
}

impl Model for Known {
    ghost use Rattle.std.specs.FinMap as fin;
    ghost use Rattle.std.specs.BTreeMap.{IsOrdered};
    ghost use Rattle.dm_target.specs.Contents.{table_name_cmp};
    ghost use Rattle.dm_stmt.specs.Known.{KnownMap, coded_known};

    ghost Value = { KnownMap };

    ghost coded = { coded_known };

    ghost view = { λ it. fin.from_entries it.schemas.entries };

    ghost invariant = { λ it. IsOrdered table_name_cmp it.schemas };
}

impl Known {
    /// No table is known.
    pub fn new(alloc: Global) -> Known
        ensures { result ≡ fin.empty }
    {
        Known {
            schemas: BTreeMap::new(alloc),
        }
    }

    /// Notes the schema of a table, in place of an earlier one. Without memory all stays as it was.
    pub fn put(
        &mut self,
        alloc: Global,
        table: &TableName,
        schema: &Schema,
    ) -> Result<(), AllocError>
        ensures put { OnOk result (self.new ≡ fin.insert self.old table.now schema.now) }
        ensures kept { OnErr result (self.new ≡ self.old) }
    {
        let schema = schema.copy(alloc)?;
        self.schemas.insert(table.copy(alloc)?, schema)?;
        Ok(())
    }

    /// The schema of a table.
    pub fn get(&self, table: &TableName) -> Option<&Schema>
        ensures { option_copied result ≡ schema_in self.now table.now }
    {
        self.schemas.get(table)
    }
}
