//! What lies outside the program: files that are read, an output, and a journal, each behind a trait, and kinds of
//! each that are kept in memory. And a cursor over bytes that were read.
#![tactic(auto)]

mod cursor;
mod journal;
mod memory;
mod shelf;
mod sink;

pub use cursor::Cursor;
pub use journal::{Journal, JournalError};
pub use memory::{MemoryJournal, MemoryShelf, MemorySink};
pub use shelf::{Shelf, ShelfError};
pub use sink::{Sink, SinkError};

#[cfg(test)]
mod tests;
