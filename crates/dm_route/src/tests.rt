use crate::{EventKind, FilterRule, Pair, Pattern, Route, RouteRule, Rules, ignores, route};
use dm_list::Sequence;
use dm_schema::{Name, TableName};
use std::alloc::{AllocError, Global};
use std::test::Fail;

fn matches(alloc: Global, pattern: &str, name: &str) -> Result<bool, AllocError> {
    let pattern = Pattern::new(alloc, pattern.as_bytes())?;
    Ok(pattern.matches(name.as_bytes()))
}

/// Patterns that match the name at the line's front, and behind a bar some that don't.
const MATCHES: &str = "t0 t* t? t0 * ** *0 t*0 | t ?t t?? t10 t0? t*1
t10 t*0 t?? *1? ?1* | t? t0 *t
ab *a*b* *a*b a*b *ab* | *b*a a?b b* *a
abab *a*b *ab ?b?b a*b*b | *a*a ab
baab *a*b ba*b | *a*b? a*
\u{e9} ? * *? ?* | ?? *?? \u{e8}
t\u{1f42c}t t?t *?t ??? *\u{1f42c}* | ?? t??t t????t *\u{1f42c}
\u{1f42c}\u{e9}a ??? *a *?a ?*? *\u{e9}? | ???? \u{1f42c}?";

/// The patterns of a line that aren't answered as they stand there.
fn wrong_in(alloc: Global, line: &str) -> Result<u64, AllocError> {
    let mut wrong = 0_u64;
    let mut name = None;
    let mut wanted = true;
    for word in line.split(' ') {
        match name {
            None => name = Some(word),
            Some(name) => {
                if word == "|" {
                    wanted = false;
                } else if matches(alloc, word, name)? != wanted {
                    wrong = wrong.saturating_add(1);
                }
            }
        }
    }
    Ok(wrong)
}

#[test]
fn matches_names(rt: HostRuntime) -> Result<(), AllocError> {
    for line in MATCHES.lines() {
        assert_eq!(rt; wrong_in(rt.alloc(), line)?, 0, "{line}");
    }
    Ok(())
}

#[test]
fn matches_the_empty_name(rt: HostRuntime) -> Result<(), AllocError> {
    let alloc = rt.alloc();
    assert!(rt; matches(alloc, "*", "")?);
    assert!(rt; matches(alloc, "", "")?);
    assert!(rt; !matches(alloc, "?", "")?);
    assert!(rt; !matches(alloc, "", "a")?);
    Ok(())
}

#[test]
fn takes_whole_characters(rt: HostRuntime) -> Result<(), AllocError> {
    let pattern = Pattern::new(rt.alloc(), b"?")?;
    assert!(rt; pattern.matches(b"\xf4\x8f\xbf\xbf"));
    assert!(rt; pattern.matches(b"\xed\x9f\xbf"));
    assert!(rt; !pattern.matches(b"\xc3"));
    assert!(rt; !pattern.matches(b"\xa9"));
    assert!(rt; !pattern.matches(b"\xc0\x80"));
    assert!(rt; !pattern.matches(b"\xed\xa0\x80"));
    assert!(rt; !pattern.matches(b"\xf4\x90\x80\x80"));
    Ok(())
}

/// So many times the text, then the last one.
fn repeated(alloc: Global, count: u32, text: &[u8], last: &[u8]) -> Result<Vec<u8>, AllocError> {
    let mut all = Vec::new(alloc);
    for _ in 0..count {
        all.extend_from_slice(text)?;
    }
    all.extend_from_slice(last)?;
    Ok(all)
}

/// Going back to each run in turn would take more steps than there is time for.
#[test]
fn is_quick(rt: HostRuntime) -> Result<(), AllocError> {
    let alloc = rt.alloc();
    let name = repeated(alloc, 255, b"a", b"b")?;
    let unlike = Pattern::new(alloc, &repeated(alloc, 32, b"*a", b"")?)?;
    assert!(rt; !unlike.matches(&name));
    let like = Pattern::new(alloc, &repeated(alloc, 32, b"*a", b"*b")?)?;
    assert!(rt; like.matches(&name));
    Ok(())
}

/// A pair of patterns, the table's behind a dot.
fn pair(alloc: Global, text: &str) -> Result<Pair, Fail> {
    let (db, table) = text.split_once('.').ok_or("no dot")?;
    Ok(Pair {
        db: Pattern::new(alloc, db.as_bytes())?,
        table: Pattern::new(alloc, table.as_bytes())?,
    })
}

fn pairs(alloc: Global, text: &str) -> Result<Sequence<Pair>, Fail> {
    let mut pairs = Vec::new(alloc);
    for word in text.split_whitespace() {
        pairs.push(pair(alloc, word)?)?;
    }
    Ok(Sequence::new(pairs))
}

/// Routes of these pairs, each to the table `to` and the route's number from 0.
fn routes(alloc: Global, text: &str) -> Result<Sequence<RouteRule>, Fail> {
    let mut routes = Vec::new(alloc);
    let mut number = b'0';
    for word in text.split_whitespace() {
        let target = TableName {
            db: Name::new(b"to".to_vec(alloc)?),
            table: Name::new(vec![in alloc; number]?),
        };
        let pair = pair(alloc, word)?;
        routes.push(RouteRule { pair, target })?;
        number = number.saturating_add(1);
    }
    Ok(Sequence::new(routes))
}

fn filters(alloc: Global, text: &str, kinds: u16) -> Result<Sequence<FilterRule>, Fail> {
    let mut filters = Vec::new(alloc);
    for word in text.split_whitespace() {
        let pair = pair(alloc, word)?;
        filters.push(FilterRule { pair, kinds })?;
    }
    Ok(Sequence::new(filters))
}

/// Where each table goes: its name again, a dash, or the route's number.
fn shown(alloc: Global, rules: &Rules, tables: &str) -> Result<Vec<u8>, Fail> {
    let mut shown = Vec::new(alloc);
    for word in tables.split_whitespace() {
        let (db, table) = word.split_once('.').ok_or("no dot")?;
        match route(rules, db.as_bytes(), table.as_bytes()) {
            Route::Skip => shown.push(b'-')?,
            Route::To(target) => shown.extend_from_slice(target.table.as_slice())?,
            Route::Same => shown.push(b'=')?,
        }
    }
    Ok(shown)
}

/// Where tables go by these lists.
fn routed(alloc: Global, allow: &str, to: &str, tables: &str) -> Result<Vec<u8>, Fail> {
    let rules = Rules {
        allow: pairs(alloc, allow)?,
        routes: routes(alloc, to)?,
        filters: Sequence::new(Vec::new(alloc)),
    };
    shown(alloc, &rules, tables)
}

#[test]
fn routes_tables(rt: HostRuntime) -> Result<(), Fail> {
    let alloc = rt.alloc();
    let tables = "d.t d.t1 d.u d1.t e.t1";
    assert_eq!(rt;
        routed(alloc, "", "", tables)?.as_slice(),
        b"=====".as_slice()
    );
    assert_eq!(rt;
        routed(alloc, "d.t* d?.*", "", tables)?.as_slice(),
        b"==-=-".as_slice()
    );
    assert_eq!(rt;
        routed(alloc, "", "d.t* *.t1 d*.t", tables)?.as_slice(),
        b"00=21".as_slice()
    );
    assert_eq!(rt;
        routed(alloc, "*.t1", "d.t* *.t1", tables)?.as_slice(),
        b"-0--1".as_slice()
    );
    Ok(())
}

const KINDS: [(EventKind, u16); 10] = [
    (EventKind::Insert, 0x1),
    (EventKind::Update, 0x2),
    (EventKind::Delete, 0x4),
    (EventKind::CreateTable, 0x8),
    (EventKind::AlterTable, 0x10),
    (EventKind::CreateIndex, 0x20),
    (EventKind::DropIndex, 0x40),
    (EventKind::DropTable, 0x80),
    (EventKind::Truncate, 0x100),
    (EventKind::Rename, 0x200),
];

/// The kinds that are ignored on a table, where those kinds are on the pairs' tables.
fn ignored(alloc: Global, text: &str, kinds: u16, table: &[u8]) -> Result<u16, Fail> {
    let rules = Rules {
        allow: Sequence::new(Vec::new(alloc)),
        routes: Sequence::new(Vec::new(alloc)),
        filters: filters(alloc, text, kinds)?,
    };
    let mut found = 0;
    for (kind, bit) in KINDS {
        if ignores(&rules, b"d", table, kind) {
            found |= bit;
        }
    }
    Ok(found)
}

#[test]
fn ignores_kinds(rt: HostRuntime) -> Result<(), Fail> {
    let alloc = rt.alloc();
    for kinds in [
        0, 0x1, 0x2, 0x4, 0x8, 0x10, 0x20, 0x40, 0x80, 0x100, 0x200, 0x155,
    ] {
        assert_eq!(rt; ignored(alloc, "d.t", kinds, b"t")?, kinds);
    }
    Ok(())
}

#[test]
fn asks_both_patterns_of_a_filter(rt: HostRuntime) -> Result<(), Fail> {
    let alloc = rt.alloc();
    assert_eq!(rt; ignored(alloc, "", 0x3FF, b"t")?, 0);
    assert_eq!(rt; ignored(alloc, "e.t d.u", 0x3FF, b"t")?, 0);
    assert_eq!(rt; ignored(alloc, "e.t *.t?", 0x3FF, b"t1")?, 0x3FF);
    Ok(())
}
