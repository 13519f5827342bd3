//! The events of a source's binlogs in turn, each with what it says to the source's shards before any schema is asked.
#![tactic(auto)]

mod cause;
mod event;
mod file;
mod said;
mod stream;

pub use cause::BadCause;
pub use event::{LogFault, LogFile, Logged, Said};
pub use stream::Stream;

#[cfg(test)]
mod tests;
