//! Row images of binlog events, read by the schema of their moment.
#![tactic(auto)]

mod decimals;
mod fault;
mod flaw;
mod numbers;
mod rows;
mod times;
mod types;
mod values;

pub use fault::RowFault;
pub use rows::decode_row;

#[cfg(test)]
mod tests;
