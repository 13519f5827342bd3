//! Columns, schemas, their changes, and what values fit a column.
#![tactic(auto)]

mod change;
mod column;
mod fault;
mod filling;
mod fitting;
mod folding;
mod keys;
mod kind_order;
mod named;
mod row_change;
mod rows;
mod schema;
mod table_name;
#[cfg(test)]
mod tests;

pub use change::{Change, Spot};
pub use column::{Column, DefaultRule, Kind, UniqueKey};
pub use dm_list::{Bytes, Copied, Items, Places, Sequence};
pub use dm_value::{Day, Dec, Moment, Name, Names, Row, Rows, Stamp, Value};
pub use fault::{EffectFault, SchemaFault};
pub use filling::{fill, fill_for_missing, has_fill, has_fill_for_missing};
pub use fitting::{fits, fits_kind};
pub use folding::is_folded;
pub use keys::keys_of;
pub use kind_order::{Family, comparable, kind_at_most, same_family};
pub use named::{Named, in_name_order};
pub use row_change::{KeyValue, RowChange};
pub use rows::{key_of, values_at};
pub use schema::{Schema, all_columns, has_column};
pub use table_name::TableName;

/// The changes of one statement, from left to right.
pub type Changes = Sequence<Change>;
/// The values of a row under its keys.
pub type Keys = Sequence<KeyValue>;
