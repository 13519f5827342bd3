//! The journal: records of SQL, one behind another, and what they lead to.
#![tactic(auto)]

mod altering;
mod call_texts;
mod carrying;
mod content;
#[cfg(test)]
mod content_tests;
mod doubt;
mod fault;
mod framing;
mod opening;
mod parts;
mod pieces;
mod statement_target;
#[cfg(test)]
mod statement_tests;
#[cfg(test)]
mod tests;

pub use content::{JournalContent, read_content};
pub use fault::ContentFault;
pub use framing::{Front, front_of};
pub use opening::{JournalFault, NotOpened, open_target};
pub use statement_target::StatementTarget;
