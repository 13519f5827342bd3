ghost use Rattle.std.specs.Prelude.{IsTrue};
ghost use Rattle.std.specs.List.{list_all};
ghost use Rattle.dm_schema.specs.Kinds.{is_column};

use crate::fault::Fault;
use crate::heads::{head_fault, order_in};
use crate::inserts::{InsertOrder, Inserts};
use crate::order::{columns_by, stand_so};
use crate::role;
use crate::row::{push_order, row_fault};
use dm_list::Sequence;
use dm_schema::Column;
use dm_syntax::{Piece, has_role};
use dm_value::Name;
use std::alloc::{AllocError, Global};

/// The rows of a dump, as far as it is read.
#[derive(Drop)]
pub struct Gathering {
    /// The columns in the order of the literals.
    pub columns: Vec<Column>,
    /// Whether no row has that order so far.
    pub is_new: bool,
    pub places: Vec<u32>,
    pub orders: Vec<InsertOrder>,
    pub fault: Option<Fault>,
    ghost formed: { IsTrue (list_all is_column columns.items) },
}

impl Gathering {
    ghost use Rattle.std.specs.Prelude.{◌≡◌, ◌<◌, ◌^◌, length, IfOk};
    ghost use Rattle.dm_dump.specs.Rows.{nothing, with_order, with_head, with_place, with_row, with_unit, inserts_of};
    ghost use Rattle.dm_dump.specs.Gatherings.{gathered_in};

    pub fn new(alloc: Global) -> Gathering
        ensures { gathered_in result ≡ nothing }
    {
        Gathering {
            columns: Vec::new(alloc),
            is_new: true,
            places: Vec::new(alloc),
            orders: Vec::new(alloc),
            fault: None,
        }
    }

    /// The literals stand in this order from here on.
    fn set_order(
        &mut self,
        alloc: Global,
        columns: &[Column],
        order: &[Name],
    ) -> Result<(), AllocError>
        requires { IsTrue (list_all is_column columns.now) }
        ensures { IfOk result (λ _. gathered_in self.new ≡ with_order columns.now (gathered_in self.old) order.now) }
    {
        if stand_so(&self.columns, order) {
            return Ok(());
        }
        self.columns = columns_by(alloc, columns, order)?;
        self.is_new = true;
        Ok(())
    }

    fn add_head(
        &mut self,
        alloc: Global,
        text: &[u8],
        table: &Name,
        columns: &[Column],
        unit: &[Piece],
    ) -> Result<(), AllocError>
        requires { IsTrue (list_all is_column columns.now) }
        ensures { IfOk result (λ _. gathered_in self.new ≡ with_head text.now table.now columns.now (gathered_in self.old) unit.now) }
    {
        match head_fault(alloc, text, table, columns, unit)? {
            Some(fault) => {
                self.fault = Some(fault);
                Ok(())
            }
            None => {
                let order = order_in(alloc, text, columns, unit)?;
                self.set_order(alloc, columns, &order)
            }
        }
    }

    fn add_place(&mut self, alloc: Global, at: u32) -> Result<(), AllocError>
        ensures { IfOk result (λ _. gathered_in self.new ≡ with_place (gathered_in self.old) at) }
    {
        push_order(alloc, &mut self.orders, self.is_new, at, &self.columns)?;
        self.places.push(at)?;
        self.is_new = false;
        Ok(())
    }

    fn add_row(
        &mut self,
        alloc: Global,
        text: &[u8],
        at: u32,
        closed: bool,
    ) -> Result<(), AllocError>
        requires { length text.now < 2 ^ 32 }
        ensures { IfOk result (λ _. gathered_in self.new ≡ with_row text.now (gathered_in self.old) at closed) }
    {
        match row_fault(alloc, text, at, closed, &self.columns)? {
            Some(fault) => {
                self.fault = Some(fault);
                Ok(())
            }
            None => {
                if closed {
                    self.add_place(alloc, at)
                } else {
                    Ok(())
                }
            }
        }
    }

    /// Adds a unit; behind a fault nothing.
    pub fn add_unit(
        &mut self,
        alloc: Global,
        text: &[u8],
        table: &Name,
        columns: &[Column],
        unit: &[Piece],
    ) -> Result<(), AllocError>
        requires few { length text.now < 2 ^ 32 }
        requires columns { IsTrue (list_all is_column columns.now) }
        ensures { IfOk result (λ _. gathered_in self.new ≡ with_unit text.now table.now columns.now (gathered_in self.old) unit.now) }
    {
        let [first, ..] = unit else {
            return Ok(());
        };
        if self.fault.is_some() {
            Ok(())
        } else if first.role == role::INSERT {
            self.add_head(alloc, text, table, columns, unit)
        } else if first.role == role::ROW_OPEN {
            self.add_row(
                alloc,
                text,
                first.token.from,
                has_role(unit, role::ROW_CLOSE),
            )
        } else {
            Ok(())
        }
    }

    /// The rows that were gathered.
    pub fn into_inserts(self) -> Inserts
        ensures { result ≡ inserts_of (gathered_in self) }
    {
        let Gathering { places, orders, .. } = self;
        Inserts {
            places: Sequence::new(places),
            orders: Sequence::new(orders),
        }
    }
}
