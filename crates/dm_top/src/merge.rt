ghost use Rattle.std.specs.Prelude.{◌≡◌, length, map, Ok, IfOk, IfErr, IsTrue};
ghost use Rattle.dm_list.specs.Answer.{Answers};
ghost use Rattle.dm_report.specs.Texts.{table_text};
ghost use Rattle.dm_top.specs.Load.{load_table, merged_over, merged_from, merged_of};
ghost use Rattle.dm_top.specs.Merge.{all_rows};
ghost use Rattle.dm_top.specs.Sources.{said_of};
ghost use Rattle.dm_top.specs.Top.{is_memory, is_own};

use crate::keys::{by_primary_key, share_unique};
use crate::limits::{MOST_ITEMS, MOST_VALUES};
use crate::rows::push_rows;
use crate::sources::{Source, exceed_items, exceed_values, schemas_of};
use dm_join::{NoJoin, join};
use dm_list::Bytes;
use dm_report::{Status, Which, push_table};
use dm_schema::{Schema, TableName};
use dm_value::{Name, Row};
use std::alloc::{AllocError, Global};

/// The rows of all sources, as the join has them, one source after another.
fn rows_of(alloc: Global, joined: &Schema, sources: &[Source]) -> Result<Vec<Row>, AllocError>
    ensures { IfOk result (λ rows. rows.items ≡ all_rows joined.now (said_of sources.now)) }
{
    let mut rows = Vec::new(alloc);
    for source in sources {
        push_rows(alloc, joined, &mut rows, source)?;
    }
    Ok(rows)
}

/// What `load`'s table is called in a fault.
fn load_table(alloc: Global) -> Result<TableName, AllocError>
    ensures { IfOk result (λ table. table ≡ load_table) }
{
    Ok(TableName {
        db: Name::new(Vec::from_slice(alloc, b"load")?),
        table: Name::new(Vec::from_slice(alloc, b"load")?),
    })
}

/// The text of a table.
fn text_of(alloc: Global, schema: &Schema, rows: &[&Row]) -> Result<Bytes, AllocError>
    ensures { IfOk result (λ text. text ≡ table_text schema.now.columns schema.now.primary schema.now.uniques (map (λ row. row.now) rows.now) (length (map (λ row. row.now) rows.now))) }
{
    let mut text = Vec::new(alloc);
    push_table(alloc, &mut text, schema, rows)?;
    Ok(Bytes::new(text))
}

/// The text of the sources' rows over the join of their schemas.
fn merged_over(alloc: Global, joined: &Schema, sources: &[Source]) -> Result<Bytes, Status>
    ensures merged { Answers is_memory result (merged_over (Ok joined.now) (said_of sources.now)) }
    ensures own { IfErr result (λ s. IsTrue (is_own s)) }
{
    let rows = rows_of(alloc, joined, sources)?;
    let Some(sorted) = by_primary_key(alloc, joined, &rows)? else {
        return Err(Status::Unlawful);
    };
    if share_unique(alloc, joined, &sorted)? {
        return Err(Status::Unlawful);
    }
    Ok(text_of(alloc, joined, &sorted)?)
}

/// The text of dumps that are merged, or how it ends: too many rows, too many values, schemas without a join, rows
/// with one key.
pub fn merged_text(alloc: Global, sources: &[Source]) -> Result<Bytes, Status>
    ensures merged { Answers is_memory result (merged_of (said_of sources.now)) }
    ensures own { IfErr result (λ s. IsTrue (is_own s)) }
{
    if exceed_items(sources, MOST_ITEMS) {
        return Err(Status::Limit {
            which: Which::Items,
        });
    }
    if exceed_values(sources, MOST_VALUES) {
        return Err(Status::Limit {
            which: Which::Values,
        });
    }
    merged_from(alloc, sources)
}

/// The text of dumps that aren't too many; empty where there is none.
fn merged_from(alloc: Global, sources: &[Source]) -> Result<Bytes, Status>
    ensures merged { Answers is_memory result (merged_from (said_of sources.now)) }
    ensures own { IfErr result (λ s. IsTrue (is_own s)) }
{
    if sources.is_empty() {
        return Ok(Bytes::new(Vec::new(alloc)));
    }
    let schemas = schemas_of(alloc, sources)?;
    match join(alloc, &schemas) {
        Ok(joined) => merged_over(alloc, &joined, sources),
        Err(NoJoin::At { column, cause }) => Err(Status::First {
            table: load_table(alloc)?,
            column,
            cause,
        }),
        Err(NoJoin::Memory) => Err(Status::Memory),
    }
}
