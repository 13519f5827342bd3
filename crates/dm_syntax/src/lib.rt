//! The grammar of the statements that define tables: from a text to its tokens, and what each of them is for.
//!
//! The grammar is data, which [`dm_grammar`] reads; `specs/Productions.antt` has it for people to read. Each token gets
//! a terminal, which is what the grammar sees of it, and a role. What a statement says is a fold over both.
#![tactic(auto)]

mod class;
mod classes;
mod fault;
mod kinds;
pub mod names;
mod parsing;
mod piece;
mod productions;
mod reading;
pub mod role;
pub mod terminal;
mod words;

pub use fault::DdlFault;
pub use kinds::{bytes_of, terminal_of};
pub use parsing::{Extent, Parsed, parse};
pub use piece::{Piece, first_with, has_role, next_part};
pub use words::in_lower_case;
