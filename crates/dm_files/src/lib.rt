//! The files of a task, in its order.
#![tactic(auto)]

mod counts;
mod files;
mod fronts;
mod names;

pub use counts::{source_count, table_count};
pub use files::{Files, NamedFile, are_short, bytes_of};
pub use fronts::are_files;
pub use names::file_names;
