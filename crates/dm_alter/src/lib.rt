//! The effect of an ALTER TABLE on a schema.
#![tactic(auto)]

mod changed;
mod columns;
mod defaults;
mod effects;
mod refusals;
#[cfg(test)]
mod tests;
mod uniques;

pub use defaults::DefaultReading;
pub use effects::{effect, effect_joined};
pub use uniques::named_key;
