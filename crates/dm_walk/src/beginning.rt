ghost use Rattle.std.specs.Prelude.{◌≡◌, ◌++◌, map, IfOk};
ghost use Rattle.std.specs.List.{flat_map};
ghost use Rattle.dm_walk.specs.Walks.{begun, dumped_item, dumped_items};

use crate::{Item, Place, PlaceKind, Track};
use dm_list::Sequence;
use dm_schema::{Schema, TableName};
use dm_snapshot::RowsFile;
use std::alloc::{AllocError, Global};

fn push_dumped(items: &mut Vec<Item>, file: &RowsFile) -> Result<(), AllocError>
    ensures { IfOk result (λ _. items.new.items ≡ items.old.items ++ dumped_items file.now) }
{
    for at in file.inserts.places.as_slice() {
        items.push(Item::Row(Place {
            file: file.number,
            at: *at,
            event: 0,
            map: 0,
            kind: PlaceKind::Dumped,
        }))?;
    }
    Ok(())
}

fn dumped_items(alloc: Global, files: &[RowsFile]) -> Result<Vec<Item>, AllocError>
    ensures { IfOk result (λ items. items.items ≡ flat_map dumped_items files.now) }
{
    let mut items = Vec::new(alloc);
    for file in files {
        push_dumped(&mut items, file)?;
    }
    Ok(items)
}

/// The history of a table with the rows of its dump alone.
pub fn begun(
    alloc: Global,
    own: TableName,
    schema: Schema,
    files: &[RowsFile],
) -> Result<Track, AllocError>
    ensures { IfOk result (λ track. track ≡ begun own (record { schema = schema; files = files.now })) }
{
    let items = dumped_items(alloc, files)?;
    Ok(Track {
        own,
        first: schema,
        later: Sequence::new(Vec::new(alloc)),
        items: Sequence::new(items),
        fault: None,
    })
}
