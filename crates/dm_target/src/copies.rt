ghost use Rattle.std.specs.Prelude.{◌≡◌, IfOk};

use crate::Meta;
use dm_list::{Copied, Sequence};
use dm_table::RowOp;
use std::alloc::{AllocError, Global};

impl Copied for Meta {
    fn copy(&self, alloc: Global) -> Result<Meta, AllocError> {
        Ok(Meta {
            name: self.name.copy(alloc)?,
            text: self.text.copy(alloc)?,
        })
    }
}

/// A copy of texts under names.
pub fn copy_metas(alloc: Global, pairs: &[Meta]) -> Result<Sequence<Meta>, AllocError>
    ensures { IfOk result (λ copies. copies ≡ pairs.now) }
{
    let mut copies = Vec::with_capacity(alloc, pairs.len())?;
    for pair in pairs {
        copies.push(pair.copy(alloc)?)?;
    }
    Ok(Sequence::new(copies))
}

/// A copy of operations.
pub fn copy_ops(alloc: Global, ops: &[RowOp]) -> Result<Sequence<RowOp>, AllocError>
    ensures { IfOk result (λ copies. copies ≡ ops.now) }
{
    let mut copies = Vec::with_capacity(alloc, ops.len())?;
    for op in ops {
        copies.push(copy_op(alloc, op)?)?;
    }
    Ok(Sequence::new(copies))
}

fn copy_op(alloc: Global, op: &RowOp) -> Result<RowOp, AllocError>
    ensures { IfOk result (λ copy. copy ≡ op.now) }
{
    Ok(match op {
        RowOp::Insert { columns, row } => RowOp::Insert {
            columns: columns.copy(alloc)?,
            row: row.copy(alloc)?,
        },
        RowOp::Replace { columns, row } => RowOp::Replace {
            columns: columns.copy(alloc)?,
            row: row.copy(alloc)?,
        },
        RowOp::Update { columns, key, row } => RowOp::Update {
            columns: columns.copy(alloc)?,
            key: key.copy(alloc)?,
            row: row.copy(alloc)?,
        },
        RowOp::Delete { key } => RowOp::Delete {
            key: key.copy(alloc)?,
        },
        RowOp::Erase { key } => RowOp::Erase {
            key: key.copy(alloc)?,
        },
    })
}
