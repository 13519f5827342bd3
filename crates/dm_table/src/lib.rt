//! A table in memory: its rows under their primary keys, and what operations and alterations leave of them.
#![tactic(auto)]

mod altering;
mod applying;
mod carrying;
mod cells;
mod changes;
mod clearing;
mod effect;
mod fault;
mod indexing;
mod judge;
mod keyed;
mod left;
mod op;
mod said;
mod shapes;
mod sharing;
mod staged;
mod table;
#[cfg(test)]
mod tests;

pub use fault::TableFault;
pub use op::RowOp;
pub use shapes::is_shaped;
pub use table::Table;
