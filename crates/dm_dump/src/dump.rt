ghost use Rattle.std.specs.Prelude.{◌≡◌, ◌<◌, ◌^◌, length, IfOk, IfErr, Some};
ghost use Rattle.dm_dump.specs.declared.fault.DumpFault.TheVariants.{Memory};
ghost use Rattle.dm_dump.specs.Dumps.{OrMemory, bytes_in, lower, precedes, early_insert, without_create, tears, create_fault, without_schema, created_or_memory, SaysCreate, dump_of, HasTable, DumpBy, DumpWith, IsDump};

use crate::fault::{DumpCause, DumpFault, Fault};
use crate::inserts::Inserts;
use crate::outline::{Outline, Span, is_lex, read_outline};
use crate::reading_rows::{read_rows, refused};
use dm_ddl::{Named, Statement, read_statement};
use dm_schema::Schema;
use dm_syntax::DdlFault;
use dm_value::Name;
use std::alloc::Global;

/// A dump of one table: its CREATE TABLE, and then its rows.
#[derive(Debug, Drop)]
pub struct Dump {
    pub table: Name,
    pub schema: Schema,
    pub inserts: Inserts,
}

/// A table as its CREATE TABLE says it.
#[derive(Drop)]
pub struct Created {
    pub table: Name,
    pub schema: Schema,
}

/// The bytes of a span: none, where it isn't within the text.
pub fn bytes_in(text: &[u8], span: Span) -> &[u8]
    ensures { result.now ≡ bytes_in text.now span }
{
    let from = text.len().min(span.from as usize);
    let (_, behind) = text.split_at(from);
    let length = behind
        .len()
        .min((span.to as usize).saturating_sub(span.from as usize));
    let (bytes, _) = behind.split_at(length);
    bytes
}

/// Of two faults the one of the lower place.
pub fn lower(one: Option<Fault>, other: Fault) -> Fault
    ensures { result ≡ lower one other }
{
    match one {
        None => other,
        Some(fault) if other.at < fault.at => other,
        Some(fault) => fault,
    }
}

fn precedes(create: Option<Span>, at: u32) -> bool
    ensures { result ≡ precedes create at }
{
    match create {
        None => false,
        Some(span) => span.from < at,
    }
}

/// The first INSERT, where no CREATE TABLE precedes it.
fn early_insert(outline: &Outline) -> Option<Fault>
    ensures { result ≡ early_insert outline.now }
{
    let at = outline.first_insert?;
    if precedes(outline.create, at) {
        None
    } else {
        Some(Fault {
            at,
            cause: DumpCause::Statement,
        })
    }
}

fn without_create(text: &[u8], outline: &Outline) -> Fault
    requires { length text.now < 2 ^ 32 }
    ensures { result ≡ without_create text.now outline.now }
{
    let none = Fault {
        at: text.len() as u32,
        cause: DumpCause::NoCreate,
    };
    lower(outline.fault, lower(early_insert(outline), none))
}

/// Whether a fault is a lexical one in the span.
fn tears(span: Span, fault: Fault) -> bool
    ensures { result ≡ tears span fault }
{
    is_lex(fault.cause) && span.from <= fault.at && fault.at < span.to
}

/// The fault of a CREATE TABLE that says no schema: a lexical one, where it stands in the statement.
pub fn create_fault(span: Span, fault: Option<Fault>) -> Fault
    ensures { result ≡ create_fault span fault }
{
    let at = span.from;
    let cause = DumpCause::Create;
    match fault {
        None => Fault { at, cause },
        Some(fault) => {
            if tears(span, fault) {
                fault
            } else {
                Fault { at, cause }
            }
        }
    }
}

fn without_schema(outline: &Outline, span: Span) -> Fault
    ensures { result ≡ without_schema outline.now span }
{
    let create = create_fault(span, outline.fault);
    lower(outline.fault, lower(early_insert(outline), create))
}

/// The table that a statement creates, if it does.
fn created_by(said: Result<Statement, DdlFault>) -> Result<Option<Created>, DumpFault>
    ensures { result ≡ created_or_memory said }
{
    match said {
        Ok(Statement::Create { table, schema, .. }) => {
            let Named { table, .. } = table;
            Ok(Some(Created { table, schema }))
        }
        Ok(Statement::Alter { .. }) => Ok(None),
        Ok(Statement::Other) => Ok(None),
        Err(DdlFault::Memory) => Err(DumpFault::Memory),
        Err(DdlFault::Lex { .. }) => Ok(None),
        Err(DdlFault::Syntax { .. }) => Ok(None),
        Err(DdlFault::Unsupported { .. }) => Ok(None),
        Err(DdlFault::Made(_)) => Ok(None),
    }
}

/// The table that a statement creates, if it does.
pub fn read_create(alloc: Global, text: &[u8]) -> Result<Option<Created>, DumpFault>
    requires { length text.now < 2 ^ 32 }
    ensures says { IfOk result (λ created. SaysCreate text.now created) }
    ensures memory { IfErr result (λ fault. fault ≡ Memory) }
{
    created_by(read_statement(alloc, text))
}

/// The rows of a table that was created, unless an INSERT comes before.
fn dump_of(
    early: Option<Fault>,
    created: Created,
    rows: Result<Inserts, DumpFault>,
) -> Result<Dump, DumpFault>
    ensures { result ≡ dump_of early created rows }
{
    match rows {
        Err(DumpFault::Memory) => Err(DumpFault::Memory),
        Err(DumpFault::At { at, cause }) => Err(refused(lower(early, Fault { at, cause }))),
        Ok(inserts) => {
            let Created { table, schema } = created;
            match early {
                Some(fault) => Err(refused(fault)),
                None => Ok(Dump {
                    table,
                    schema,
                    inserts,
                }),
            }
        }
    }
}

fn with_rows(
    alloc: Global,
    text: &[u8],
    early: Option<Fault>,
    created: Created,
) -> Result<Dump, DumpFault>
    requires { length text.now < 2 ^ 32 }
    ensures { OrMemory (HasTable text.now early created) result }
{
    let rows = read_rows(alloc, text, &created.table, &created.schema);
    dump_of(early, created, rows)
}

fn dump_by(
    alloc: Global,
    text: &[u8],
    outline: &Outline,
    span: Span,
    created: Option<Created>,
) -> Result<Dump, DumpFault>
    requires { length text.now < 2 ^ 32 }
    ensures { OrMemory (DumpBy text.now outline.now span created) result }
{
    match created {
        None => Err(refused(without_schema(outline, span))),
        Some(created) => with_rows(alloc, text, early_insert(outline), created),
    }
}

fn dump_in(alloc: Global, text: &[u8], outline: &Outline, span: Span) -> Result<Dump, DumpFault>
    requires { length text.now < 2 ^ 32 }
    ensures { OrMemory (DumpWith text.now outline.now (Some span)) result }
{
    let created = read_create(alloc, bytes_in(text, span))?;
    dump_by(alloc, text, outline, span, created)
}

fn dump_with(
    alloc: Global,
    text: &[u8],
    outline: &Outline,
    create: Option<Span>,
) -> Result<Dump, DumpFault>
    requires { length text.now < 2 ^ 32 }
    ensures { OrMemory (DumpWith text.now outline.now create) result }
{
    match create {
        None => Err(refused(without_create(text, outline))),
        Some(span) => dump_in(alloc, text, outline, span),
    }
}

/// The dump that a text is: one CREATE TABLE, and then its rows. A fault is the one of the least place.
pub fn read_dump(alloc: Global, text: &[u8]) -> Result<Dump, DumpFault>
    requires { length text.now < 2 ^ 32 }
    ensures { OrMemory (IsDump text.now) result }
{
    let outline = read_outline(alloc, text)?;
    dump_with(alloc, text, &outline, outline.create)
}
