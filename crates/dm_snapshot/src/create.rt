//! The file of a table's CREATE TABLE.

ghost use Rattle.std.specs.Prelude.{◌≡◌, ◌<◌, ◌^◌, length};
ghost use Rattle.dm_dump.specs.Outlines.{least};
ghost use Rattle.dm_dump.specs.Dumps.{bytes_in, created_by};
ghost use Rattle.dm_snapshot.specs.Snapshots.{DumpReadings, AreDumpReadings, insert_fault, schema_by, schema_with, schema_in, AnswersFile};

use dm_dump::{
    Created, DumpCause, DumpFault, Fault, Outline, Span, bytes_in, create_fault, least, lower,
    read_create, read_outline, refused,
};
use dm_schema::Schema;
use std::alloc::Global;

/// The fault of an INSERT, which is no statement of such a file.
fn insert_fault(outline: &Outline) -> Option<Fault>
    ensures { result ≡ insert_fault outline.now }
{
    Some(Fault {
        at: outline.first_insert?,
        cause: DumpCause::Statement,
    })
}

/// The fault that the file has beside those of its CREATE TABLE.
fn other_fault(outline: &Outline) -> Option<Fault>
    ensures { result ≡ least (outline.now).fault (insert_fault outline.now) }
{
    least(outline.fault, insert_fault(outline))
}

/// The schema of a CREATE TABLE, unless the file has another fault.
fn schema_by(outline: &Outline, span: Span, created: Option<Created>) -> Result<Schema, DumpFault>
    ensures { AnswersFile result (schema_by outline.now span created) }
{
    let other = other_fault(outline);
    match created {
        None => Err(refused(lower(other, create_fault(span, outline.fault)))),
        Some(created) => match other {
            Some(fault) => Err(refused(fault)),
            None => {
                let Created { schema, .. } = created;
                Ok(schema)
            }
        },
    }
}

fn schema_at(alloc: Global, text: &[u8], outline: &Outline, span: Span) -> Result<Schema, DumpFault>
    requires { length text.now < 2 ^ 32 }
    ensures { (r : DumpReadings) → AreDumpReadings r → AnswersFile result (schema_by outline.now span (created_by (r.statement (bytes_in text.now span)))) }
{
    let created = read_create(alloc, bytes_in(text, span))?;
    schema_by(outline, span, created)
}

fn schema_with(alloc: Global, text: &[u8], outline: &Outline) -> Result<Schema, DumpFault>
    requires { length text.now < 2 ^ 32 }
    ensures { (r : DumpReadings) → AreDumpReadings r → AnswersFile result (schema_with r text.now outline.now) }
{
    match outline.create {
        Some(span) => schema_at(alloc, text, outline, span),
        None => {
            let none = Fault {
                at: text.len() as u32,
                cause: DumpCause::NoCreate,
            };
            Err(refused(lower(other_fault(outline), none)))
        }
    }
}

/// The schema that a file creates, or its fault of the least place.
pub fn read_schema(alloc: Global, text: &[u8]) -> Result<Schema, DumpFault>
    requires { length text.now < 2 ^ 32 }
    ensures { (r : DumpReadings) → AreDumpReadings r → AnswersFile result (schema_in r text.now) }
{
    let outline = read_outline(alloc, text)?;
    schema_with(alloc, text, &outline)
}
