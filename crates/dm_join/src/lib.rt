//! The order of schemas, their join, and the changes that lead from one to another.
#![tactic(auto)]

mod altering;
mod groups;
mod joining;
mod no_join;
mod schema_order;
#[cfg(test)]
mod tests;

pub use altering::alteration;
pub use joining::join;
pub use no_join::{JoinCause, NoJoin};
pub use schema_order::at_most;
