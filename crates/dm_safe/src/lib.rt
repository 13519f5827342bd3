//! The operations of a row's change: plain, and safe ones for a change that may have been carried out before.
#![tactic(auto)]

mod mode;
mod ops;
#[cfg(test)]
mod tests;

pub use mode::Mode;
pub use ops::ops_of;
