use crate::Pattern;
use dm_list::Sequence;
use dm_schema::TableName;

/// A pattern of tables.
#[derive(Debug, Drop)]
pub struct Pair {
    pub db: Pattern,
    pub table: Pattern,
}

/// Tables that match go to the target.
#[derive(Debug, Drop)]
pub struct RouteRule {
    pub pair: Pair,
    pub target: TableName,
}

/// Events of these kinds on tables that match are ignored. The lowest bit stands for the first kind.
#[derive(Debug, Drop)]
pub struct FilterRule {
    pub pair: Pair,
    pub kinds: u16,
}

/// The rules of a task. Where `allow` is empty, each table is copied.
#[derive(Debug, Drop)]
pub struct Rules {
    pub allow: Sequence<Pair>,
    pub routes: Sequence<RouteRule>,
    pub filters: Sequence<FilterRule>,
}

/// Where a table goes.
#[derive(Clone, Copy, Debug)]
pub enum Route<'a> {
    /// It isn't copied.
    Skip,
    /// To this table.
    To(&'a TableName),
    /// To the table of its own name.
    Same,
}
