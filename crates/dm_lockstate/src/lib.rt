//! The lock of a target table: which schema each shard has recorded, which columns it has dropped, and which changes
//! of schemas it accepts.
#![tactic(auto)]

mod dropping;
mod judging;
mod points;
mod state;
mod stop;
#[cfg(test)]
mod tests;

pub use state::{Dropped, LockState};
pub use stop::Stop;
