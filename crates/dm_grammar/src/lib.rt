//! Grammars as data, and one reader for all of them.
//!
//! A grammar is a constant, a [`Rule`]. The reader goes over the kinds of a text's tokens once, from left to right,
//! with one token of look-ahead (LL(1)), and answers one role for each token: which word of the grammar took it.
//! A meaning is made by a fold over the tokens with their roles.
#![tactic(auto)]

mod reader;
mod rule;
mod stack;
#[cfg(test)]
mod tests;

pub use reader::{Fault, Reader, Reading, read};
pub use rule::{Class, Classes, KIND_LIMIT, Kind, Role, Rule, SKIPPED, UNSUPPORTED};
