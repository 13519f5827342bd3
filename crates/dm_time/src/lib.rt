//! Texts of days and moments as MySQL writes them, and civil times in UTC as seconds since 1970.
#![tactic(auto)]

mod days;
mod numbers;
mod reading;
mod stamps;
#[cfg(test)]
mod tests;
mod writing;

pub use reading::{day_of_text, moment_of_text, stamp_of_text};
pub use writing::{push_day, push_moment, push_stamp, text_of_stamp};
