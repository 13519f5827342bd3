//! The files of a table's rows.

ghost use Rattle.std.specs.Prelude.{◌≡◌, ⊤, ℕ, ◌+◌, ◌-◌, ◌<◌, ◌≤◌, ◌^◌, ◌∷◌, List, Ok, Err, length, IfOk, IfErr, IsTrue, MatchBool};
ghost use Rattle.std.specs.List.{list_all};
ghost use Rattle.dm_list.specs.Answer.{Answers};
ghost use Rattle.dm_schema.specs.Names.{Text};
ghost use Rattle.dm_files.specs.Files.{bytes_of, are_short};
ghost use Rattle.dm_dump.specs.declared.fault.DumpFault.TheVariants.{Memory};
ghost use Rattle.dm_dump.specs.Rows.{are_readable};
ghost use Rattle.dm_snapshot.specs.Snapshots.{DumpReadings, AreDumpReadings, create_place, rows_unless, inserts_in, rows_from, is_memory, AnswersFile};
ghost use Rattle.dm_snapshot.specs.Steps.{with_front};

use crate::fault::refusal;
use crate::snapshot::{RowsFile, SnapshotFault};
use dm_dump::{
    DumpCause, DumpFault, Fault, Inserts, Outline, lower, read_outline, read_rows, refused,
};
use dm_files::{NamedFile, bytes_of};
use dm_list::{Bytes, Sequence};
use dm_schema::Schema;
use dm_task::SourceTable;
use dm_value::Name;
use std::alloc::Global;

/// The fault of a CREATE TABLE, which is one too many in a file of rows.
fn create_place(outline: &Outline) -> Option<Fault>
    ensures { result ≡ create_place outline.now }
{
    let span = outline.create?;
    Some(Fault {
        at: span.from,
        cause: DumpCause::SecondCreate,
    })
}

/// The rows, unless a fault comes before theirs.
fn rows_unless(early: Option<Fault>, rows: Result<Inserts, DumpFault>) -> Result<Inserts, DumpFault>
    ensures rows { AnswersFile result (rows_unless early rows) }
    ensures kept { IfOk result (λ inserts. rows ≡ Ok inserts) }
    ensures memory { rows ≡ Err Memory → result ≡ Err Memory }
{
    match rows {
        Err(DumpFault::Memory) => Err(DumpFault::Memory),
        Err(DumpFault::At { at, cause }) => Err(refused(lower(early, Fault { at, cause }))),
        Ok(inserts) => match early {
            Some(fault) => Err(refused(fault)),
            None => Ok(inserts),
        },
    }
}

/// Where the rows of a file stand, or its fault of the least place.
fn read_inserts(
    alloc: Global,
    text: &[u8],
    table: &Name,
    schema: &Schema,
) -> Result<Inserts, DumpFault>
    requires { length text.now < 2 ^ 32 }
    ensures rows { (r : DumpReadings) → AreDumpReadings r → AnswersFile result (inserts_in r text.now table.now schema.now) }
    ensures readable { IfOk result (λ inserts. IsTrue (are_readable text.now schema.now inserts)) }
{
    let outline = read_outline(alloc, text)?;
    let rows = read_rows(alloc, text, table, schema);
    rows_unless(create_place(&outline), rows)
}

/// Reads the rows of the file of this name and number, and puts them behind others.
fn push_file(
    alloc: Global,
    files: &[NamedFile],
    table: &Name,
    schema: &Schema,
    number: u32,
    name: &Bytes,
    read: &mut Vec<RowsFile>,
) -> Result<(), SnapshotFault>
    requires { IsTrue (are_short files.now) }
    ensures rows { IfOk result (λ _. (r : DumpReadings) → AreDumpReadings r → (names : List Text)
        → with_front read.new.items (rows_from r files.now table.now schema.now (number + 1) names)
        ≡ with_front read.old.items (rows_from r files.now table.now schema.now number (name.now ∷ names))) }
    ensures fault { IfErr result (λ e. MatchBool (is_memory e) ⊤ ((r : DumpReadings) → AreDumpReadings r → (names : List Text)
        → rows_from r files.now table.now schema.now number (name.now ∷ names) ≡ Err e)) }
    ensures readable { IfOk result (λ _. IsTrue (list_all (λ f. are_readable (bytes_of files.now f.number) schema.now f.inserts) read.old.items)
        → IsTrue (list_all (λ f. are_readable (bytes_of files.now f.number) schema.now f.inserts) read.new.items)) }
{
    match read_inserts(alloc, bytes_of(files, number), table, schema) {
        Ok(inserts) => {
            read.push(RowsFile { number, inserts })?;
            Ok(())
        }
        Err(fault) => Err(refusal(alloc, name, fault)),
    }
}

/// The rows of a table's files, the first of which has this number.
pub fn read_files(
    alloc: Global,
    files: &[NamedFile],
    table: &SourceTable,
    schema: &Schema,
    number: u32,
) -> Result<Sequence<RowsFile>, SnapshotFault>
    requires short { IsTrue (are_short files.now) }
    requires numbers { number + length (table.now).rows ≤ 2 ^ 32 - 1 }
    ensures rows { (r : DumpReadings) → AreDumpReadings r
        → Answers is_memory result (rows_from r files.now (table.now).table schema.now number (table.now).rows) }
    ensures readable { IfOk result (λ made. IsTrue (list_all (λ f. are_readable (bytes_of files.now f.number) schema.now f.inserts) made)) }
{
    let names = table.rows.as_slice();
    let mut read = Vec::new(alloc);
    let mut next = number;
    for name in names {
        push_file(alloc, files, &table.table, schema, next, name, &mut read)?;
        next += 1;
    }
    Ok(Sequence::new(read))
}
