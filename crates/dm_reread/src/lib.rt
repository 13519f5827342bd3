//! SQL that is written is read again: the tokens of written texts.
#![tactic(auto)]

mod bytes;
mod reread;

pub use bytes::{column_bytes, row_bytes, rows_bytes, value_bytes};
pub use reread::{law_of_creates, law_of_values};
