//! Large lawful inputs for tests, benchmarks and first steps: a task and its files, from a number.
#![tactic(auto)]

mod binlog;
mod dumps;
mod live_row;
mod naming;
mod numbers;
mod schemas;
mod task;
mod task_files;
#[cfg(test)]
mod tests;
mod walker;

pub use task_files::{Generated, generate};
