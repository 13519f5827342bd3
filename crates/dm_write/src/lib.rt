//! A table as a dump in SQL, written so that it is read back.
#![tactic(auto)]

mod dumps;

pub use dumps::write_dump;

#[cfg(test)]
mod tests;
