//! Names, kinds, values, columns and tables as SQL. Each call adds a text to bytes; where memory runs out, a part of it
//! may have been added.
#![tactic(auto)]

mod columns;
mod decimals;
mod kinds;
mod names;
#[cfg(test)]
mod tests;
mod values;

pub use columns::{push_column, push_create};
pub use kinds::push_kind;
pub use names::{push_name, push_name_list, push_table_name};
pub use values::{push_tuple, push_value};
