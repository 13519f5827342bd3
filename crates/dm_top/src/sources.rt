ghost use Rattle.std.specs.Prelude.{◌≡◌, ◌<◌, ◌^◌, length, nat_lt, All, IfOk, IfErr, IsTrue};
ghost use Rattle.dm_top.specs.Reading.{named_of};
ghost use Rattle.dm_top.specs.Sources.{ReadsSource, ReadsSources, said_of, schemas_of};
ghost use Rattle.dm_top.specs.Load.{items_of, values_of};
ghost use Rattle.dm_top.specs.Top.{is_own};

use crate::files::NamedFile;
use dm_dump::{Dump, DumpFault, read_dump};
use dm_list::Copied;
use dm_report::Status;
use dm_schema::Schema;
use std::alloc::{AllocError, Global};

/// A file, and the dump that it is.
#[derive(Debug, Drop)]
pub struct Source {
    pub file: NamedFile,
    pub dump: Dump,
}

fn read_source(alloc: Global, file: NamedFile) -> Result<Source, Status>
    requires { length file.bytes.items < 2 ^ 32 }
    ensures said { ReadsSource (file.name, file.bytes.items) result }
    ensures own { IfErr result (λ s. IsTrue (is_own s)) }
{
    match read_dump(alloc, &file.bytes) {
        Ok(dump) => Ok(Source { file, dump }),
        Err(DumpFault::At { at, cause }) => Err(Status::Dump {
            file: file.name,
            at,
            cause,
        }),
        Err(DumpFault::Memory) => Err(Status::Memory),
    }
}

/// The files with the dumps that they are, or the first that is none.
pub fn read_sources(alloc: Global, files: Vec<NamedFile>) -> Result<Vec<Source>, Status>
    requires { All (λ f. length f.bytes.items < 2 ^ 32) files.items }
    ensures said { ReadsSources (named_of files.items) result }
    ensures own { IfErr result (λ s. IsTrue (is_own s)) }
{
    let mut sources = Vec::with_capacity(alloc, files.len())?;
    for file in files {
        sources.push(read_source(alloc, file)?)?;
    }
    Ok(sources)
}

/// Whether the sources have more rows than there is room for.
pub fn exceed_items(sources: &[Source], room: u64) -> bool
    ensures { result ≡ nat_lt room (items_of (said_of sources.now)) }
{
    match sources {
        [] => false,
        [first, rest @ ..] => {
            let items = first.dump.inserts.places.len();
            items > room || exceed_items(rest, room - items)
        }
    }
}

/// Whether the sources' rows have more values than there is room for.
pub fn exceed_values(sources: &[Source], room: u64) -> bool
    ensures { result ≡ nat_lt room (values_of (said_of sources.now)) }
{
    match sources {
        [] => false,
        [first, rest @ ..] => {
            let items = first.dump.inserts.places.len();
            let columns = first.dump.schema.columns().len() as u64;
            match items.checked_mul(columns) {
                Some(values) if values <= room => exceed_values(rest, room - values),
                _ => true,
            }
        }
    }
}

/// The schemas of the sources' tables.
pub fn schemas_of(alloc: Global, sources: &[Source]) -> Result<Vec<Schema>, AllocError>
    ensures { IfOk result (λ schemas. schemas.items ≡ schemas_of (said_of sources.now)) }
{
    let mut schemas = Vec::with_capacity(alloc, sources.len())?;
    for source in sources {
        schemas.push(source.dump.schema.copy(alloc)?)?;
    }
    Ok(schemas)
}
