//! The statements that define tables: their heads, and the schemas and changes that they say.
#![tactic(auto)]

mod altering;
mod bounds;
mod columns;
mod creating;
mod defaults;
mod heads;
mod keys;
mod names;
mod statements;
#[cfg(test)]
mod tests;
mod types;

pub use defaults::{effect, effect_joined};
pub use dm_syntax::DdlFault;
pub use heads::{Head, read_head};
pub use names::{Named, Tables};
pub use statements::{Statement, read_statement};
