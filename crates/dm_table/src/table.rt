ghost use Rattle.std.specs.Prelude.{◌≡◌, ⊤, false, List, [], ◌∷◌, ◌++◌, Ok, Err, MatchBool, IfOk, IfErr, OnOk, take, drop};
ghost use Rattle.std.specs.Option.{option_copied};
ghost use Rattle.std.specs.FinMap as fin;
ghost use Rattle.dm_value.specs.declared.value.Value.{Value};
ghost use Rattle.dm_table.specs.declared.op.RowOp.{RowOp};
ghost use Rattle.dm_table.specs.Contents.{AreRows, new_table};
ghost use Rattle.dm_table.specs.Operations.{table_applied};
ghost use Rattle.dm_table.specs.Alterations.{altered};
ghost use Rattle.dm_table.specs.Meeting.{meets};
ghost use Rattle.dm_table.specs.Following.{Follows};
ghost use Rattle.dm_table.specs.Judging.{is_memory};

use crate::altering::altered_rows;
use crate::applying::all_applied;
use crate::carrying::carry_over;
use crate::indexing::index_of;
use crate::keyed::KeyedRows;
use crate::{RowOp, TableFault};
use dm_list::Copied;
use dm_schema::Schema;
use dm_value::{Row, Rows};
use std::alloc::{AllocError, Global};
use std::collections::BTreeMap;
use std::marker::Model;

/// A table: its schema, and its rows under their primary keys.
#[derive(Debug, Drop)]
pub struct Table {
    schema: Schema,
    rows: KeyedRows,
    /// Where the rows stand, by their values under the unique keys.
    index: KeyedRows,
}

impl Model for Table {
    ghost use Rattle.dm_table.specs.Contents.{TableContent};
    ghost use Rattle.dm_table.specs.Coding.{coded_table};
    ghost use Rattle.dm_table.specs.Indexing.{AreIndexed};

    ghost Value = { TableContent };

    ghost coded = { coded_table };

    ghost view = { λ table. record { layout = table.schema; rows = table.rows } };

    ghost invariant = { λ table. AreIndexed table.schema table.rows table.index };
}

impl Table {
    /// A table without rows.
    pub fn new(alloc: Global, schema: Schema) -> Table
        ensures { result ≡ new_table schema }
    {
        Table {
            schema,
            rows: KeyedRows::new(alloc),
            index: KeyedRows::new(alloc),
        }
    }

    pub fn schema(&self) -> &Schema
        ensures { result.now ≡ self.now.layout }
    {
        &self.schema
    }

    /// How many rows there are.
    pub fn len(&self) -> u64
        ensures { result ≡ fin.len self.now.rows }
    {
        self.rows.len()
    }

    /// The row of a primary key, whose values stand in the order of the key.
    pub fn get(&self, key: &Row) -> Option<&Row>
        ensures { option_copied result ≡ fin.get self.now.rows key.now }
    {
        self.rows.get(key)
    }

    /// The rows under their primary keys, in the order of the keys.
    pub fn rows(&self) -> &BTreeMap<Row, Row>
        ensures entries { result.now.entries ≡ fin.entries self.now.rows }
        ensures rows { AreRows self.now.layout self.now.rows }
    {
        self.rows.in_order()
    }

    /// Copies of at most `count` rows in the order of their primary keys, behind the first `place` ones.
    pub fn rows_from(&self, alloc: Global, place: u64, count: u32) -> Result<Rows, AllocError>
        ensures { IfOk result (λ rows. rows ≡ take count (drop place (fin.values self.now.rows))) }
    {
        let mut rows = Vec::new(alloc);
        for row in self
            .rows
            .in_order()
            .values()
            .skip(place as usize)
            .take(count as usize)
        {
            rows.push(row.copy(alloc)?)?;
        }
        Ok(Rows::new(rows))
    }

    /// Changes the rows by operations in turn: by all of them, or, where one is refused or memory is wanting, by none.
    /// The changes are noted beside the rows until all operations are taken. An operation costs the logarithm of the rows,
    /// for the primary key and for each unique key.
    pub fn apply(&mut self, alloc: Global, ops: &[RowOp]) -> Result<(), TableFault>
        ensures applied { IfOk result (λ _. table_applied self.old ops.now ≡ Ok self.new) }
        ensures refused { IfErr result (λ f. MatchBool (is_memory f) ⊤ (table_applied self.old ops.now ≡ Err f)) }
        ensures kept { IfErr result (λ _. self.new ≡ self.old) }
        ensures elsewhere { (o : RowOp) (key : List Value) → ops.now ≡ o ∷ [] → meets self.old.layout o self.old.rows key ≡ false → OnOk result (fin.get self.new.rows key ≡ fin.get self.old.rows key) }
        ensures in_turn { (more : List RowOp) → OnOk result (table_applied self.old (ops.now ++ more) ≡ table_applied self.new more) }
    {
        let changed = all_applied(alloc, &self.schema, &self.rows, &self.index, ops)?;
        carry_over(alloc, &mut self.rows, &mut self.index, changed)?;
        Ok(())
    }

    /// Gives the table another schema, whose columns may stand in any order; or leaves it as it is, where that is
    /// refused or memory is wanting. The rows are made anew, and each unique key notes the values of all of them.
    pub fn alter(&mut self, alloc: Global, schema: &Schema) -> Result<(), TableFault>
        ensures altered { IfOk result (λ _. altered self.old schema.now ≡ Ok self.new) }
        ensures refused { IfErr result (λ f. MatchBool (is_memory f) ⊤ (altered self.old schema.now ≡ Err f)) }
        ensures kept { IfErr result (λ _. self.new ≡ self.old) }
        ensures follows { OnOk result (Follows self.old self.new) }
    {
        let rows = altered_rows(alloc, &self.schema, &self.rows, schema)?;
        let index = index_of(alloc, schema, &rows)?;
        let schema = schema.copy(alloc)?;
        self.schema = schema;
        self.rows = rows;
        self.index = index;
        Ok(())
    }
}

impl Copied for Table {
    fn copy(&self, alloc: Global) -> Result<Table, AllocError> {
        Ok(Table {
            schema: self.schema.copy(alloc)?,
            rows: self.rows.copy(alloc)?,
            index: self.index.copy(alloc)?,
        })
    }
}
