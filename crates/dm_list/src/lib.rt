//! Vectors that contracts see as lists, copies that equal their originals, and words for what a call answers.
#![tactic(auto)]

mod copied;
mod sequence;
#[cfg(test)]
mod tests;

pub use copied::Copied;
pub use sequence::Sequence;

/// Bytes: a text, a file, or a name of a file.
pub type Bytes = Sequence<u8>;
/// Numbers of a history's items, which are counted from 1.
pub type Items = Sequence<u64>;
/// Byte places in a text.
pub type Places = Sequence<u32>;
