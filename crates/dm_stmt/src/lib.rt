//! What the calls of a target write: records, which of them are written, and the one text of each.
#![tactic(auto)]

mod changes;
mod checks;
mod column_checks;
mod known;
mod metas;
mod op_checks;
mod ops;
mod record;
#[cfg(test)]
mod tests;
mod texts;
mod values;

pub use changes::push_alter;
pub use checks::is_record;
pub use known::Known;
pub use metas::push_metas;
pub use ops::push_ops;
pub use record::Record;
pub use texts::text_of;
