//! The texts of records, read: exactly those that calls write.
#![tactic(auto)]

mod changes;
mod columns;
mod fault;
mod kinds;
mod left;
mod metas;
mod names;
mod ops;
mod record;
#[cfg(test)]
mod tests;
mod types;

pub use fault::RecordFault;
pub use record::read_record;
pub use types::{changes_types, columns_types, ops_types};
