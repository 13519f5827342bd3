//! The histories of a source's shards, as one walk over the source's events.
#![tactic(auto)]

mod beginning;
mod cause;
mod history;
mod item;
mod rows;
mod statement;
#[cfg(test)]
mod tests;
mod track;
mod walking;

pub use beginning::begun;
pub use item::{Item, Place, PlaceKind};
pub use track::Track;
pub use walking::walk;
