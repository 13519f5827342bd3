//! Task files: what a task says, or the first thing that is wrong in it, and the shards and targets that it has.
//!
//! A task file is TOML in UTF-8, without a byte order mark. Its keys, in the order in which faults are looked for:
//!
//! | key | value | where it is absent |
//! |---|---|---|
//! | `name` | 1 to 32 of a-z, 0-9, `_` and `-` | a fault |
//! | `window` | 1 to 100000 | 1000 |
//! | `batch` | 1 to 1000 | 100 |
//! | `lanes` | 1 to 16 | 4 |
//! | `workers` | 1 to 32 | 4 |
//! | `source` | 1 to 64 tables | a fault |
//! | `route`, `filter`, `allow` | up to 64 tables each | none |
//! | of a source: `name` | as the task's, another for each source | a fault |
//! | `binlogs` | up to 1000 names of files | none |
//! | `start` | 4 to 134217728 | 4 |
//! | `table` | 1 to 64 tables | a fault |
//! | of a source's table: `db`, `table` | names, another pair for each table | a fault |
//! | `create` | the name of a file | a fault |
//! | `rows` | up to 1000 names of files | none |
//! | of a route: `db`, `table`, `to_db`, `to_table` | two patterns, two names | a fault |
//! | of a filter: `db`, `table`, `ignore` | two patterns, the kinds of events | a fault |
//! | of `allow`: `db`, `table` | two patterns | a fault |
//!
//! Names and patterns have 1 to 64 characters, none below U+0020; names of files have 1 to 255 bytes. The table `state`
//! of the database `dm_meta` is the program's own: it is no source's table and no target.
#![tactic(auto)]

mod array;
mod fault;
mod keys;
mod kinds;
mod place;
mod reading;
mod rules;
mod sharding;
mod source;
mod task;
#[cfg(test)]
mod tests;
mod texts;
mod values;

pub use fault::{TaskCause, TaskFault};
pub use reading::read_task;
pub use sharding::{shards, targets};
pub use task::{Shard, Source, SourceTable, Task};
