ghost use Rattle.std.specs.Prelude.{◌≡◌, IfOk};
ghost use Rattle.dm_meta.specs.Texts.{lock_name, checkpoint_name};

use dm_list::Bytes;
use dm_schema::TableName;
use dm_text::push_table_name;
use std::alloc::{AllocError, Global};

/// The name that a table's lock has.
pub fn lock_name(alloc: Global, table: &TableName) -> Result<Bytes, AllocError>
    ensures { IfOk result (λ name. name ≡ lock_name table.now) }
{
    let mut name = Vec::from_slice(alloc, b"lock ")?;
    push_table_name(&mut name, table)?;
    Ok(Bytes::new(name))
}

/// The name that a shard's checkpoint has.
pub fn checkpoint_name(alloc: Global, shard: &Bytes) -> Result<Bytes, AllocError>
    ensures { IfOk result (λ name. name ≡ checkpoint_name shard.now) }
{
    let mut name = Vec::from_slice(alloc, b"shard ")?;
    name.extend_from_slice(shard.as_slice())?;
    Ok(Bytes::new(name))
}
