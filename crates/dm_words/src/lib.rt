//! What the words of a command line ask for. The words are read with `clap`.
#![tactic(auto)]

mod commands;
mod matching;
mod numbers;
mod order;
#[cfg(test)]
mod tests;

pub use commands::read_words;
pub use order::{Order, WordFault};
