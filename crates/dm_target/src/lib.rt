//! The downstream as calls that happen whole or not at all, and kinds of it that are kept in memory.
#![tactic(auto)]

mod blow;
mod call;
mod copies;
mod fuse;
mod memory;
mod ordered;
mod proper;
mod reach;
mod refusal;
mod tables;
mod target;
#[cfg(test)]
mod tests;
mod texts;

pub use blow::Blow;
pub use call::{Call, Meta};
pub use copies::{copy_metas, copy_ops};
pub use fuse::FuseTarget;
pub use memory::MemoryTarget;
pub use ordered::in_order;
pub use proper::is_proper;
pub use target::{Target, TargetError};
