//! Kinds of shelf, sink and journal that are kept in memory, and whose calls fail where they are told to.

mod calls;
mod front;
mod journal;
mod shelf;
mod sink;

pub use journal::MemoryJournal;
pub use shelf::MemoryShelf;
pub use sink::MemorySink;
