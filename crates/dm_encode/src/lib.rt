//! Binlog events, written so that they are read back.
#![tactic(auto)]

mod bitmaps;
mod decimals;
mod events;
mod integers;
mod kinds;
mod maps;
mod numbers;
mod rows;
mod times;
mod values;

pub use events::{write_format, write_query};
pub use maps::write_map;
pub use rows::write_rows;

#[cfg(test)]
mod tests;
