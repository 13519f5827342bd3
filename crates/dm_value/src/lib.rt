//! Values of columns, rows and names, with their order.
#![tactic(auto)]

mod name;
#[cfg(test)]
mod tests;
mod value;

use dm_list::Sequence;
pub use name::Name;
pub use value::{Day, Dec, Moment, Stamp, Value};

/// A row: its values in the order of the columns.
pub type Row = Sequence<Value>;
/// Rows in some order.
pub type Rows = Sequence<Row>;
/// Names in some order.
pub type Names = Sequence<Name>;
