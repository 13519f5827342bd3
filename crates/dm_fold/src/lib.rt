//! The rows of a shard at a position of its history, by one plain loop: what all that is faster is measured against.
#![tactic(auto)]

mod changes;
mod fault;
mod folding;
#[cfg(test)]
mod tests;

pub use fault::FoldFault;
pub use folding::fold;
