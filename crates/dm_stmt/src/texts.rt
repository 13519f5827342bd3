ghost use Rattle.std.specs.Prelude.{◌≡◌, ◌++◌, IfOk, OnOk};
ghost use Rattle.dm_text.specs.Names.{table_name_text};
ghost use Rattle.dm_stmt.specs.Texts.{record_text};

use crate::changes::push_alter;
use crate::metas::push_metas;
use crate::ops::push_ops;
use crate::{Known, Record};
use dm_schema::TableName;
use dm_text::{push_create, push_table_name};
use std::alloc::{AllocError, Global};

/// The text of a record: SQL, each statement on a line of its own. Operations on a table that isn't known have none.
pub fn text_of(alloc: Global, record: &Record, known: &Known) -> Result<Vec<u8>, AllocError>
    ensures { IfOk result (λ text. text.items ≡ record_text known.now «record».now) }
{
    let mut out = Vec::new(alloc);
    push_record(alloc, &mut out, record, known)?;
    Ok(out)
}

fn push_record(
    alloc: Global,
    out: &mut Vec<u8>,
    record: &Record,
    known: &Known,
) -> Result<(), AllocError>
    ensures { OnOk result (out.new.items ≡ out.old.items ++ record_text known.now «record».now) }
{
    match record {
        Record::Create { table, schema } => {
            let name = table_name_text(alloc, table)?;
            push_create(alloc, out, &name, schema)
        }
        Record::Alter { table, changes } => push_alter(alloc, out, table, changes.as_slice()),
        Record::Apply { table, ops } => match known.get(table) {
            Some(schema) => push_ops(alloc, out, table, schema, ops.as_slice()),
            None => Ok(()),
        },
        Record::Metas { pairs } => push_metas(alloc, out, pairs.as_slice()),
    }
}

fn table_name_text(alloc: Global, table: &TableName) -> Result<Vec<u8>, AllocError>
    ensures { IfOk result (λ text. text.items ≡ table_name_text table.now) }
{
    let mut text = Vec::new(alloc);
    push_table_name(&mut text, table)?;
    Ok(text)
}
