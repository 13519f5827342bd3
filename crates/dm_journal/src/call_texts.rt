ghost use Rattle.std.specs.Prelude.{◌≡◌, None, Err, IfOk, IfSome, IsTrue};
ghost use Rattle.dm_schema.specs.Schemas.{in_order};
ghost use Rattle.dm_target.specs.Asking.{is_proper};
ghost use Rattle.dm_target.specs.Contents.{effect};
ghost use Rattle.dm_target.specs.Memory.{content_of};
ghost use Rattle.dm_target.specs.declared.call.Call.TheVariants.{Create, Alter, Apply, Metas};
ghost use Rattle.dm_table.specs.declared.fault.TableFault.TheVariants as table_fault;
ghost use Rattle.dm_journal.specs.Journaled.{IsTextFor, call_text};

use dm_join::alteration;
use dm_schema::{Schema, TableName};
use dm_stmt::{push_alter, push_metas, push_ops};
use dm_stmt_read::{changes_types, columns_types, ops_types};
use dm_table::RowOp;
use dm_target::{MemoryTarget, Meta, Target};
use dm_text::{push_create, push_table_name};
use std::alloc::{AllocError, Global};

/// The text of the record of a call that makes a table. The schema that is asked for stands in order of names.
pub(crate) fn create_text(
    alloc: Global,
    kept: &MemoryTarget,
    table: &TableName,
    asked: &Schema,
    schema: &Schema,
) -> Result<Vec<u8>, AllocError>
    requires proper { IsTrue (is_proper (Create table.now asked.now) (content_of kept.now)) }
    requires ordered { schema.now ≡ in_order asked.now }
    ensures text { IfOk result (λ text. text.items ≡ call_text (content_of kept.now) (Create table.now schema.now)) }
    ensures does { IfOk result (λ text. IsTextFor (content_of kept.now) (Create table.now schema.now) text.items) }
{
    let _ = asked.columns();
    columns_types(schema.columns());
    let mut name = Vec::new(alloc);
    push_table_name(&mut name, table)?;
    let mut text = Vec::new(alloc);
    push_create(alloc, &mut text, &name, schema)?;
    Ok(text)
}

/// The text of the record of a call that sets texts.
pub(crate) fn metas_text(
    alloc: Global,
    kept: &MemoryTarget,
    pairs: &[Meta],
) -> Result<Vec<u8>, AllocError>
    requires proper { IsTrue (is_proper (Metas pairs.now) (content_of kept.now)) }
    ensures text { IfOk result (λ text. text.items ≡ call_text (content_of kept.now) (Metas pairs.now)) }
    ensures does { IfOk result (λ text. IsTextFor (content_of kept.now) (Metas pairs.now) text.items) }
{
    let mut text = Vec::new(alloc);
    push_metas(alloc, &mut text, pairs)?;
    Ok(text)
}

/// The text of the record of operations. Where the table isn't there, there is none.
pub(crate) fn ops_text(
    alloc: Global,
    kept: &MemoryTarget,
    table: &TableName,
    ops: &[RowOp],
) -> Result<Vec<u8>, AllocError>
    requires proper { IsTrue (is_proper (Apply table.now ops.now) (content_of kept.now)) }
    ensures text { IfOk result (λ text. text.items ≡ call_text (content_of kept.now) (Apply table.now ops.now)) }
    ensures does { IfOk result (λ text. IsTextFor (content_of kept.now) (Apply table.now ops.now) text.items) }
{
    ops_types(ops);
    let mut text = Vec::new(alloc);
    let Some(there) = kept.schema(table) else {
        return Ok(text);
    };
    let _ = there.columns();
    push_ops(alloc, &mut text, table, there, ops)?;
    Ok(text)
}

/// The text of the record of a call that gives a table another schema, unless the primary key is another. The schema that
/// is asked for stands in order of names.
pub(crate) fn alter_text(
    alloc: Global,
    kept: &MemoryTarget,
    table: &TableName,
    asked: &Schema,
    schema: &Schema,
) -> Result<Option<Vec<u8>>, AllocError>
    requires proper { IsTrue (is_proper (Alter table.now asked.now) (content_of kept.now)) }
    requires ordered { schema.now ≡ in_order asked.now }
    ensures text { IfOk result (λ text. IfSome text (λ some. some.items ≡ call_text (content_of kept.now) (Alter table.now schema.now))) }
    ensures does { IfOk result (λ text. IfSome text (λ some. IsTextFor (content_of kept.now) (Alter table.now schema.now) some.items)) }
    ensures refused { IfOk result (λ text. text ≡ None → effect (Alter table.now schema.now) (content_of kept.now) ≡ Err table_fault.PrimaryDiffers) }
{
    let _ = asked.columns();
    let mut text = Vec::new(alloc);
    let Some(there) = kept.schema(table) else {
        push_alter(alloc, &mut text, table, &[])?;
        return Ok(Some(text));
    };
    if *there.primary() != *schema.primary() {
        return Ok(None);
    }
    let _ = there.columns();
    let _ = schema.columns();
    let changes = alteration(alloc, there, schema)?;
    changes_types(changes.as_slice());
    push_alter(alloc, &mut text, table, changes.as_slice())?;
    Ok(Some(text))
}
