//! The top call: all that the program does for commands that wait for nobody, over files, a journal and an output that
//! are handed in.
#![tactic(auto)]

mod check;
mod files;
mod keys;
mod limits;
mod load;
mod merge;
mod order;
mod places;
mod plain;
mod rows;
mod show;
mod sources;
#[cfg(test)]
mod tests;

pub use dm_report::Status;
pub use plain::dm_plain;
