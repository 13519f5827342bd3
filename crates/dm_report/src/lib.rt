//! What the program prints and how it ends: the text of a table and of all that a target holds, fault lines, statuses.
#![tactic(auto)]

mod faults;
mod shows;
mod status;
mod tasks;
#[cfg(test)]
mod tests;
mod text;

pub use faults::fault_line;
pub use shows::show_text;
pub use status::{Status, Which};
pub use tasks::task_text;
pub use text::push_table;
