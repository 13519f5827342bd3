//! Dumps as mysqldump, mydumper and dumpling write them: one CREATE TABLE, and INSERTs of its rows.
//!
//! A dump is read token by token, and no token is kept: its outline is two places and a span, and its rows are the
//! places of their brackets. A row is read from its bracket again when it is asked for. The grammar is data, which
//! [`dm_grammar`] reads; `specs/Productions.antt` has it for people to read.
#![tactic(auto)]

mod class;
mod dump;
mod fault;
mod gathering;
mod grammar;
mod heads;
mod inserts;
mod kinds;
mod literal;
mod order;
mod outline;
mod reading_rows;
mod role;
mod row;
mod source;
mod stopping;
mod terminal;
#[cfg(test)]
mod tests;
mod unit;

pub use dump::{Created, Dump, bytes_in, create_fault, lower, read_create, read_dump};
pub use fault::{DumpCause, DumpFault, Fault};
pub use inserts::{InsertOrder, Inserts};
pub use order::row_at;
pub use outline::{Outline, Span, least, read_outline};
pub use reading_rows::{read_rows, refused};
