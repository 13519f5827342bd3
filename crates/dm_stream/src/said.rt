ghost use Rattle.std.specs.Prelude.{◌≡◌, ◌<◌, ◌^◌, IfOk, OnErr, Ok, List, length};
ghost use Rattle.dm_binlog.specs.declared.event.Event.{Event};
ghost use Rattle.dm_binlog.specs.declared.event.TheConstants.{TABLE_MAP};
ghost use Rattle.dm_binlog.specs.Bodies.{query_of, rows_head_of, table_map_of};
ghost use Rattle.dm_syntax.specs.Parsing.{is_memory};
ghost use Rattle.dm_stream.specs.Sayings.{Heads, body_of, head_said, is_rows, map_said, query_said, rows_by, rows_said, said_of};
ghost use Rattle.dm_stream.specs.Logs.{AreHeads};
ghost use Rattle.dm_stream.specs.Views.{seen_said};
ghost use Rattle.dm_stream.specs.TableMaps.{AreLast, AreSame, AreWithin, IsWithin, Notes};

use crate::{BadCause, Said};
use dm_binlog::{
    DELETE_ROWS, DELETE_ROWS_V1, Event, QUERY, Query, RowsHead, TABLE_MAP, UPDATE_ROWS,
    UPDATE_ROWS_V1, WRITE_ROWS, WRITE_ROWS_V1, read_query, read_rows_head, read_table_map,
};
use dm_ddl::{Head, read_head};
use dm_syntax::DdlFault;
use std::alloc::{AllocError, Global};
use std::collections::BTreeMap;

/// PARTIAL_UPDATE_ROWS_EVENT: an update that has parts of JSON values alone.
const PARTIAL_UPDATE_ROWS: u8 = 39;
/// TRANSACTION_PAYLOAD_EVENT: a transaction, compressed.
const TRANSACTION_PAYLOAD: u8 = 40;

fn body_of<'a>(file: &'a [u8], event: Event) -> &'a [u8]
    requires { IsWithin (length file.now) event }
    ensures { result.now ≡ body_of file.now event }
{
    &file[event.body as usize..event.end as usize]
}

/// What a statement says whose head was read.
fn statement_said<'a>(head: Head, query: Query<'a>) -> Said<'a>
    ensures { seen_said result ≡ head_said (record { db = query.entry.db.now; statement = query.entry.statement.now }) (Ok head) }
{
    match head {
        Head::RowStatement => Said::Ends(BadCause::RowStatement),
        Head::NotTable => Said::Nothing,
        head => Said::Statement {
            head,
            db: query.db,
            text: query.statement,
        },
    }
}

fn is_memory(fault: DdlFault) -> bool
    ensures { result ≡ is_memory fault }
{
    matches!(fault, DdlFault::Memory)
}

fn head_said<'a>(alloc: Global, query: Query<'a>) -> Result<Said<'a>, AllocError>
    requires { length query.statement.now < 2 ^ 32 }
    ensures { (heads : Heads) → AreHeads heads → IfOk result (λ said. seen_said said
        ≡ head_said (record { db = query.entry.db.now; statement = query.entry.statement.now }) (heads query.entry.statement.now)) }
{
    match read_head(alloc, query.statement) {
        Ok(head) => Ok(statement_said(head, query)),
        Err(fault) if is_memory(fault) => Err(AllocError),
        Err(fault) => Ok(Said::Ends(BadCause::from(fault))),
    }
}

fn query_said<'a>(alloc: Global, body: &'a [u8]) -> Result<Said<'a>, AllocError>
    requires { length body.now < 2 ^ 32 }
    ensures { (heads : Heads) → AreHeads heads → IfOk result (λ said. seen_said said ≡ query_said heads (query_of body.now)) }
{
    match read_query(body) {
        None => Ok(Said::Ends(BadCause::Body)),
        Some(query) => head_said(alloc, query),
    }
}

/// Notes a table map under its table id, if it is of the grammar.
fn map_said<'a>(
    alloc: Global,
    table_maps: &mut BTreeMap<u64, Event>,
    file: &[u8],
    event: Event,
) -> Result<Said<'a>, AllocError>
    requires kind { event.kind ≡ TABLE_MAP }
    requires within { IsWithin (length file.now) event }
    ensures says { IfOk result (λ said. seen_said said ≡ map_said (table_map_of (body_of file.now event))) }
    ensures notes { IfOk result (λ _. Notes file.now event table_maps.old table_maps.new) }
    ensures unchanged { OnErr result (AreSame table_maps.old table_maps.new) }
{
    match read_table_map(alloc, body_of(file, event))? {
        None => Ok(Said::Ends(BadCause::Body)),
        Some(map) => {
            table_maps.insert(map.id, event)?;
            Ok(Said::Nothing)
        }
    }
}

/// Rows by the event of their table map.
fn rows_by<'a>(
    alloc: Global,
    file: &[u8],
    head: RowsHead,
    map_event: Event,
) -> Result<Said<'a>, AllocError>
    requires { IsWithin (length file.now) map_event }
    ensures { IfOk result (λ said. seen_said said ≡ rows_by file.now head (Some map_event)) }
{
    match read_table_map(alloc, body_of(file, map_event))? {
        None => Ok(Said::Ends(BadCause::NoMap)),
        Some(map) => Ok(Said::Rows {
            map_event,
            map,
            head,
        }),
    }
}

fn rows_said<'a>(
    alloc: Global,
    table_maps: &BTreeMap<u64, Event>,
    file: &[u8],
    event: Event,
) -> Result<Said<'a>, AllocError>
    requires short { length file.now < 2 ^ 32 }
    requires within { IsWithin (length file.now) event }
    requires maps_within { AreWithin (length file.now) table_maps.now }
    ensures { (before : List Event) → AreLast file.now before table_maps.now
        → IfOk result (λ said. seen_said said ≡ rows_said file.now before (rows_head_of event.kind (body_of file.now event))) }
{
    let Some(head) = read_rows_head(event.kind, body_of(file, event)) else {
        return Ok(Said::Ends(BadCause::Body));
    };
    match table_maps.get(&head.id) {
        None => Ok(Said::Ends(BadCause::NoMap)),
        Some(map_event) => rows_by(alloc, file, head, *map_event),
    }
}

fn is_rows(kind: u8) -> bool
    ensures { result ≡ is_rows kind }
{
    matches!(
        kind,
        WRITE_ROWS_V1 | UPDATE_ROWS_V1 | DELETE_ROWS_V1 | WRITE_ROWS | UPDATE_ROWS | DELETE_ROWS
    )
}

/// What an event says, before which the table maps are the last of their table ids.
pub fn said_of<'a>(
    alloc: Global,
    table_maps: &mut BTreeMap<u64, Event>,
    file: &'a [u8],
    event: Event,
) -> Result<Said<'a>, AllocError>
    requires short { length file.now < 2 ^ 32 }
    requires within { IsWithin (length file.now) event }
    requires maps_within { AreWithin (length file.now) table_maps.old }
    ensures says { (heads : Heads) (before : List Event) → AreHeads heads → AreLast file.now before table_maps.old
        → IfOk result (λ said. seen_said said ≡ said_of heads file.now before event) }
    ensures notes { IfOk result (λ _. Notes file.now event table_maps.old table_maps.new) }
    ensures unchanged { OnErr result (AreSame table_maps.old table_maps.new) }
{
    match event.kind {
        QUERY => query_said(alloc, body_of(file, event)),
        TABLE_MAP => map_said(alloc, table_maps, file, event),
        PARTIAL_UPDATE_ROWS => Ok(Said::Ends(BadCause::PartialUpdate)),
        TRANSACTION_PAYLOAD => Ok(Said::Ends(BadCause::Payload)),
        kind if is_rows(kind) => rows_said(alloc, table_maps, file, event),
        _ => Ok(Said::Nothing),
    }
}
