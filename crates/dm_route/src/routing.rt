ghost use Rattle.std.specs.Prelude.{◌≡◌};
ghost use Rattle.std.specs.List.{find, list_any};
ghost use Rattle.std.specs.Option.{option_copied};
ghost use Rattle.dm_route.specs.Rules.{pair_matches, is_admitted, rule_for, is_ignored_by, ignores, route_of, destination};

use crate::event_kind::has_kind;
use crate::{EventKind, FilterRule, Pair, Route, RouteRule, Rules};

/// Where a table goes: nowhere if it isn't admitted, or else where the first rule that matches sends it.
pub fn route<'a>(rules: &'a Rules, db: &[u8], table: &[u8]) -> Route<'a>
    ensures { destination result ≡ route_of rules.now db.now table.now }
{
    if !is_admitted(rules.allow.as_slice(), db, table) {
        return Route::Skip;
    }
    match rule_for(rules.routes.as_slice(), db, table) {
        Some(rule) => Route::To(&rule.target),
        None => Route::Same,
    }
}

/// Whether an event of a kind on a table is ignored.
pub fn ignores(rules: &Rules, db: &[u8], table: &[u8], kind: EventKind) -> bool
    ensures { result ≡ ignores rules.now db.now table.now kind }
{
    rules
        .filters
        .as_slice()
        .iter()
        .any(|filter| is_ignored_by(filter, db, table, kind))
}

fn pair_matches(pair: &Pair, db: &[u8], table: &[u8]) -> bool
    ensures { result ≡ pair_matches pair.now db.now table.now }
{
    pair.db.matches(db) && pair.table.matches(table)
}

fn is_admitted(allow: &[Pair], db: &[u8], table: &[u8]) -> bool
    ensures { result ≡ is_admitted allow.now db.now table.now }
{
    allow.is_empty() || some_matches(allow, db, table)
}

fn some_matches(pairs: &[Pair], db: &[u8], table: &[u8]) -> bool
    ensures { result ≡ list_any (λ pair. pair_matches pair db.now table.now) pairs.now }
{
    pairs.iter().any(|pair| pair_matches(pair, db, table))
}

fn rule_for<'a>(routes: &'a [RouteRule], db: &[u8], table: &[u8]) -> Option<&'a RouteRule>
    ensures { option_copied result ≡ rule_for routes.now db.now table.now }
{
    routes
        .iter()
        .find(|rule| pair_matches(&rule.pair, db, table))
}

fn is_ignored_by(filter: &FilterRule, db: &[u8], table: &[u8], kind: EventKind) -> bool
    ensures { result ≡ is_ignored_by filter.now db.now table.now kind }
{
    pair_matches(&filter.pair, db, table) && has_kind(filter.kinds, kind)
}
