//! A lock that keeps one value under a rule: the value is always over the inputs of the lock's making, and its
//! positions never fall. Threads share the lock by reference. Each has a [`Pass`] of its own, which carries what
//! that thread knows of the value: [`RuleLock::take`] tells it more, and [`RuleLock::give`] asks it of the value
//! that is given back.
#![tactic(auto)]

mod kept;
mod lock;
mod pass;
mod rule;
#[cfg(test)]
mod tests;
mod view;

pub use kept::Kept;
pub use lock::RuleLock;
pub use pass::Pass;
pub use view::View;
