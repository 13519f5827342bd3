ghost use Rattle.std.specs.Prelude.{◌≡◌};
ghost use Rattle.std.specs.Option.{option_copied};

use dm_value::{Name, Names, Row, Value};

/// An operation on the rows of a table. The values of `row` stand in the order of `columns`, those of a key in the order
/// of the table's primary key.
#[derive(Debug, Drop)]
pub enum RowOp {
    /// A new row; no row may share its primary key or a unique key with it.
    Insert { columns: Names, row: Row },
    /// A new row; rows that share its primary key or a unique key with it go.
    Replace { columns: Names, row: Row },
    /// New values of the row of a key.
    Update { columns: Names, key: Row, row: Row },
    /// The row of a key goes.
    Delete { key: Row },
    /// The row of a key goes, if it is there.
    Erase { key: Row },
}

impl RowOp {
    ghost use Rattle.dm_table.specs.Operations.{columns_of, values_of, asked_key, needs_row, needs_room};

    /// The columns that it names.
    pub(crate) fn columns(&self) -> &[Name]
        ensures { result.now ≡ columns_of self.now }
    {
        match self {
            RowOp::Insert { columns, .. }
            | RowOp::Replace { columns, .. }
            | RowOp::Update { columns, .. } => columns.as_slice(),
            RowOp::Delete { .. } | RowOp::Erase { .. } => &[],
        }
    }

    /// The values of the columns that it names, in their order.
    pub(crate) fn values(&self) -> &[Value]
        ensures { result.now ≡ values_of self.now }
    {
        match self {
            RowOp::Insert { row, .. } | RowOp::Replace { row, .. } | RowOp::Update { row, .. } => {
                row.as_slice()
            }
            RowOp::Delete { .. } | RowOp::Erase { .. } => &[],
        }
    }

    /// The key of the row that it is about, where that row is or may be there.
    pub(crate) fn asked_key(&self) -> Option<&Row>
        ensures { option_copied result ≡ asked_key self.now }
    {
        match self {
            RowOp::Insert { .. } | RowOp::Replace { .. } => None,
            RowOp::Update { key, .. } | RowOp::Delete { key } | RowOp::Erase { key } => Some(key),
        }
    }

    /// Whether its row has to be there.
    pub(crate) fn needs_row(&self) -> bool
        ensures { result ≡ needs_row self.now }
    {
        matches!(self, RowOp::Update { .. } | RowOp::Delete { .. })
    }

    /// Whether another row may not share a key with the one that it leaves.
    pub(crate) fn needs_room(&self) -> bool
        ensures { result ≡ needs_room self.now }
    {
        matches!(self, RowOp::Insert { .. } | RowOp::Update { .. })
    }
}
