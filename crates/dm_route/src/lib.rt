//! Patterns of names, and the rules by them: which tables are copied, where to, and which of their events are ignored.
#![tactic(auto)]

mod character;
mod event_kind;
mod matching;
mod pattern;
mod routing;
mod rules;
mod sign;
#[cfg(test)]
mod tests;

pub use event_kind::EventKind;
pub use pattern::Pattern;
pub use routing::{ignores, route};
pub use rules::{FilterRule, Pair, Route, RouteRule, Rules};
pub use sign::Sign;
