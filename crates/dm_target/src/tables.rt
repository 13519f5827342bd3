ghost use Rattle.std.specs.Prelude.{◌≡◌, IfOk, OnOk};
ghost use Rattle.std.specs.Option.{option_copied};
ghost use Rattle.std.specs.FinMap as fin;
ghost use Rattle.dm_table.specs.Operations.{table_applied};
ghost use Rattle.dm_table.specs.Alterations.{altered};
ghost use Rattle.dm_target.specs.Contents.{created, if_there};
ghost use Rattle.dm_target.specs.Maps.{Changes};

use dm_list::Copied;
use dm_schema::{Schema, TableName};
use dm_table::{RowOp, Table, TableFault};
use std::alloc::{AllocError, Global};
use std::collections::BTreeMap;
use std::marker::Model;

/// Tables under their names. A change that is refused, or that lacks memory, leaves them as they were.
#[derive(Debug, Drop)]
pub(crate) struct Tables {
    tables: BTreeMap<TableName, Table>,
}

impl Model for Tables {
    ghost use Rattle.std.specs.FinMap as fin;
    ghost use Rattle.std.specs.BTreeMap.{IsOrdered};
    ghost use Rattle.dm_target.specs.Contents.{table_name_cmp};
    ghost use Rattle.dm_target.specs.Maps.{TableMap, coded_tables};

    ghost Value = { TableMap };

    ghost coded = { coded_tables };

    ghost view = { λ it. fin.from_entries it.tables.entries };

    ghost invariant = { λ it. IsOrdered table_name_cmp it.tables };
}

impl Tables {
    pub(crate) fn new(alloc: Global) -> Tables
        ensures { result ≡ fin.empty }
    {
        Tables {
            tables: BTreeMap::new(alloc),
        }
    }

    pub(crate) fn get(&self, name: &TableName) -> Option<&Table>
        ensures { option_copied result ≡ fin.get self.now name.now }
    {
        self.tables.get(name)
    }

    /// The names in byte order, by database and then by table.
    pub(crate) fn names(&self, alloc: Global) -> Result<Vec<TableName>, AllocError>
        ensures { IfOk result (λ names. names.items ≡ fin.keys self.now) }
    {
        let mut names = Vec::new(alloc);
        for (name, _) in self.in_order() {
            names.push(name.copy(alloc)?)?;
        }
        Ok(names)
    }

    pub(crate) fn create(
        &mut self,
        alloc: Global,
        name: &TableName,
        schema: &Schema,
    ) -> Result<(), TableFault>
        ensures { Changes (created (fin.get self.old name.now) schema.now) name.now self.old self.new result }
    {
        if self.tables.contains_key(name) {
            return Err(TableFault::TableExists);
        }
        let table = Table::new(alloc, schema.copy(alloc)?);
        self.tables.insert(name.copy(alloc)?, table)?;
        Ok(())
    }

    pub(crate) fn alter(
        &mut self,
        alloc: Global,
        name: &TableName,
        schema: &Schema,
    ) -> Result<(), TableFault>
        ensures { Changes (if_there (fin.get self.old name.now) (λ table. altered table schema.now)) name.now self.old self.new result }
    {
        let Some(table) = self.tables.get_mut(name) else {
            return Err(TableFault::NoTable);
        };
        table.alter(alloc, schema)
    }

    pub(crate) fn apply(
        &mut self,
        alloc: Global,
        name: &TableName,
        ops: &[RowOp],
    ) -> Result<(), TableFault>
        ensures { Changes (if_there (fin.get self.old name.now) (λ table. table_applied table ops.now)) name.now self.old self.new result }
    {
        let Some(table) = self.tables.get_mut(name) else {
            return Err(TableFault::NoTable);
        };
        table.apply(alloc, ops)
    }

    fn insert(&mut self, name: TableName, table: Table) -> Result<(), AllocError>
        ensures { OnOk result (self.new ≡ fin.insert self.old name table) }
    {
        self.tables.insert(name, table)?;
        Ok(())
    }

    pub(crate) fn in_order(&self) -> &BTreeMap<TableName, Table>
        ensures { result.now.entries ≡ fin.entries self.now }
    {
        &self.tables
    }
}

impl Copied for Tables {
    fn copy(&self, alloc: Global) -> Result<Tables, AllocError> {
        let mut copy = Tables::new(alloc);
        for (name, table) in self.in_order() {
            copy.insert(name.copy(alloc)?, table.copy(alloc)?)?;
        }
        Ok(copy)
    }
}
