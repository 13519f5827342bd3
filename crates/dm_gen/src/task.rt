ghost use Rattle.std.specs.Prelude.{◌≡◌, ◌<◌, [], ◌∷◌, map, IfOk};
ghost use Rattle.dm_gen.specs.Tasks.{all_sources, route, rules, source_of, source_table, task};

use crate::naming::{
    binlog_name, create_name, database, rows_name, source_name, table_of, target_name,
};
use dm_list::{Bytes, Sequence};
use dm_route::{Pair, Pattern, RouteRule, Rules};
use dm_task::{Source, SourceTable, Task};
use std::alloc::{AllocError, Global};

/// The number of sources.
pub const SOURCES: u8 = 4;

/// A list of one name.
fn one_name(alloc: Global, name: Bytes) -> Result<Sequence<Bytes>, AllocError>
    ensures { IfOk result (λ names. names ≡ name ∷ []) }
{
    let mut names = Vec::with_capacity(alloc, 1)?;
    names.push(name)?;
    Ok(Sequence::new(names))
}

/// The one table of a source.
fn source_table(alloc: Global, source: u8) -> Result<SourceTable, AllocError>
    requires { source < 4 }
    ensures { IfOk result (λ table. table ≡ source_table source) }
{
    Ok(SourceTable {
        db: database(alloc)?,
        table: table_of(alloc, source)?,
        create: create_name(alloc, source)?,
        rows: one_name(alloc, rows_name(alloc, source)?)?,
    })
}

fn source_of(alloc: Global, source: u8) -> Result<Source, AllocError>
    requires { source < 4 }
    ensures { IfOk result (λ made. made ≡ source_of source) }
{
    let mut tables = Vec::with_capacity(alloc, 1)?;
    tables.push(source_table(alloc, source)?)?;
    Ok(Source {
        name: source_name(alloc, source)?,
        binlogs: one_name(alloc, binlog_name(alloc, source)?)?,
        start: 4,
        tables: Sequence::new(tables),
    })
}

fn sources(alloc: Global) -> Result<Sequence<Source>, AllocError>
    ensures { IfOk result (λ sources. sources ≡ map source_of all_sources) }
{
    let mut sources = Vec::with_capacity(alloc, usize::from(SOURCES))?;
    for source in 0..SOURCES {
        sources.push(source_of(alloc, source)?)?;
    }
    Ok(Sequence::new(sources))
}

/// The tables of all sources go to one.
fn route(alloc: Global) -> Result<RouteRule, AllocError>
    ensures { IfOk result (λ rule. rule ≡ route) }
{
    let pair = Pair {
        db: Pattern::new(alloc, b"g")?,
        table: Pattern::new(alloc, b"t*")?,
    };
    Ok(RouteRule {
        pair,
        target: target_name(alloc)?,
    })
}

fn rules(alloc: Global) -> Result<Rules, AllocError>
    ensures { IfOk result (λ made. made ≡ rules) }
{
    let mut routes = Vec::with_capacity(alloc, 1)?;
    routes.push(route(alloc)?)?;
    Ok(Rules {
        allow: Sequence::new(Vec::new(alloc)),
        routes: Sequence::new(routes),
        filters: Sequence::new(Vec::new(alloc)),
    })
}

/// The same for every number.
pub fn task(alloc: Global) -> Result<Task, AllocError>
    ensures { IfOk result (λ made. made ≡ task) }
{
    Ok(Task {
        name: Bytes::new(b"gen".to_vec(alloc)?),
        window: 1000,
        batch: 100,
        lanes: 4,
        workers: 4,
        sources: sources(alloc)?,
        rules: rules(alloc)?,
    })
}
