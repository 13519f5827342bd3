ghost use Rattle.std.specs.Prelude.{◌≡◌, ◌<◌, ◌++◌, length, IsTrue, IfOk, OnOk};
ghost use Rattle.std.specs.List.{list_any, list_all};
ghost use Rattle.std.specs.List.Sorted.{IsSortedBy};
ghost use Rattle.dm_list.specs.Answer.{Answers};
ghost use Rattle.dm_schema.specs.KindOrder.{same_family, comparable};
ghost use Rattle.dm_schema.specs.Names.{Text};
ghost use Rattle.dm_join.specs.AtMost.{same_default};
ghost use Rattle.dm_join.specs.Join.{each_two, greatest, joined_column, is_memory};
ghost use Rattle.dm_join.specs.Groups.{columns_of, are_formed, comes_before, columns_named, leading, group_joined, columns_joined, cause_of};

use crate::{JoinCause, NoJoin};
use dm_list::Sequence;
use dm_schema::{
    Column, Copied, Kind, Schema, comparable, has_fill_for_missing, kind_at_most, same_family,
};
use dm_value::Name;
use std::alloc::{AllocError, Global};

/// Copies of the columns of all schemas, in byte order of names. Those of one name stand in the order of the schemas.
pub(crate) fn columns_by_name(alloc: Global, schemas: &[Schema]) -> Result<Vec<Column>, AllocError>
    ensures sorted { IfOk result (λ columns. IsSortedBy comes_before columns.items) }
    ensures kept { IfOk result (λ columns. (name : Text) → columns_named columns.items name ≡ columns_named (columns_of schemas.now) name) }
    ensures formed { OnOk result (IsTrue (are_formed schemas.now)) }
{
    let columns = columns_of(alloc, schemas)?;
    sorted_by_name(columns)
}

/// Copies of the columns of all schemas.
fn columns_of(alloc: Global, schemas: &[Schema]) -> Result<Vec<Column>, AllocError>
    ensures columns { IfOk result (λ columns. columns.items ≡ columns_of schemas.now) }
    ensures formed { OnOk result (IsTrue (are_formed schemas.now)) }
{
    let mut columns = Vec::new(alloc);
    for schema in schemas {
        push_copies(alloc, &mut columns, schema.columns())?;
    }
    Ok(columns)
}

fn push_copies(alloc: Global, columns: &mut Vec<Column>, more: &[Column]) -> Result<(), AllocError>
    ensures { OnOk result (columns.new.items ≡ columns.old.items ++ more.now) }
{
    for column in more {
        columns.push(column.copy(alloc)?)?;
    }
    Ok(())
}

/// The columns in byte order of names. Those of one name keep their order.
fn sorted_by_name(mut columns: Vec<Column>) -> Result<Vec<Column>, AllocError>
    ensures sorted { IfOk result (λ sorted. IsSortedBy comes_before sorted.items) }
    ensures kept { IfOk result (λ sorted. (name : Text) → columns_named sorted.items name ≡ columns_named columns.items name) }
{
    columns.sort_by(|one, other| one.name.cmp(&other.name))?;
    Ok(columns)
}

/// The columns that join the groups of these, which stand in byte order of names, or the first reason that there are
/// none.
pub(crate) fn joined_columns(
    alloc: Global,
    schemas: &[Schema],
    columns: &[Column],
) -> Result<Sequence<Column>, NoJoin>
    requires { IsSortedBy comes_before columns.now }
    ensures { Answers is_memory result (columns_joined schemas.now columns.now) }
{
    let mut joined = Vec::new(alloc);
    let mut rest = columns;
    while let Some(first) = rest.first() {
        let (group, behind) = rest.split_at(leading(&first.name, rest));
        joined.push(joined_group(alloc, schemas, group)?)?;
        rest = behind;
    }
    Ok(Sequence::new(joined))
}

/// How many columns at the front of a list have a name.
fn leading(name: &Name, columns: &[Column]) -> usize
    ensures { result ≡ leading name.now columns.now }
{
    columns
        .iter()
        .take_while(|column| column.name == *name)
        .count()
}

/// The column that joins a group, or the first reason that there is none.
fn joined_group(alloc: Global, schemas: &[Schema], group: &[Column]) -> Result<Column, NoJoin>
    requires { 0 < length group.now }
    ensures { Answers is_memory result (group_joined schemas.now group.now) }
{
    let joined = joined_column(alloc, group)?;
    match cause(schemas, group, &joined) {
        None => Ok(joined),
        Some(cause) => Err(NoJoin::At {
            column: joined.name.copy(alloc)?,
            cause,
        }),
    }
}

/// The column of the greatest kind of a group, nullable where any is, with the first one's name and default.
fn joined_column(alloc: Global, group: &[Column]) -> Result<Column, AllocError>
    requires { 0 < length group.now }
    ensures { IfOk result (λ joined. joined_column group.now ≡ Some joined) }
{
    let first = &group[0];
    Ok(Column {
        name: first.name.copy(alloc)?,
        kind: greatest(first.kind, group),
        nullable: is_any_nullable(group),
        default_rule: first.default_rule.copy(alloc)?,
    })
}

/// What speaks against a group's join, if anything does.
fn cause(schemas: &[Schema], group: &[Column], joined: &Column) -> Option<JoinCause>
    ensures { result ≡ cause_of schemas.now group.now joined.now }
{
    if !are_of_one_family(group) {
        Some(JoinCause::Family)
    } else if !are_comparable(group) {
        Some(JoinCause::KindDiffers)
    } else if !have_one_default(group) {
        Some(JoinCause::DefaultDiffers)
    } else if group.len() < schemas.len() && !has_fill_for_missing(joined) {
        Some(JoinCause::MissingNoFill)
    } else {
        None
    }
}

fn are_of_one_family(group: &[Column]) -> bool
    ensures { result ≡ each_two (λ a b. same_family a.kind b.kind) group.now }
{
    group.iter().all(|column| is_of_family(column, group))
}

fn is_of_family(column: &Column, group: &[Column]) -> bool
    ensures { result ≡ list_all (λ b. same_family column.now.kind b.kind) group.now }
{
    group
        .iter()
        .all(|other| same_family(column.kind, other.kind))
}

fn are_comparable(group: &[Column]) -> bool
    ensures { result ≡ each_two (λ a b. comparable a.kind b.kind) group.now }
{
    group.iter().all(|column| is_comparable(column, group))
}

fn is_comparable(column: &Column, group: &[Column]) -> bool
    ensures { result ≡ list_all (λ b. comparable column.now.kind b.kind) group.now }
{
    group
        .iter()
        .all(|other| comparable(column.kind, other.kind))
}

fn have_one_default(group: &[Column]) -> bool
    ensures { result ≡ each_two (λ a b. same_default a.default_rule b.default_rule) group.now }
{
    group.iter().all(|column| has_default(column, group))
}

fn has_default(column: &Column, group: &[Column]) -> bool
    ensures { result ≡ list_all (λ b. same_default column.now.default_rule b.default_rule) group.now }
{
    group
        .iter()
        .all(|other| column.default_rule == other.default_rule)
}

fn is_any_nullable(group: &[Column]) -> bool
    ensures { result ≡ list_any (λ d. d.nullable) group.now }
{
    group.iter().any(|column| column.nullable)
}

/// The greatest of a kind and those of columns that are comparable with it.
fn greatest(top: Kind, columns: &[Column]) -> Kind
    ensures { result ≡ greatest top columns.now }
{
    match columns {
        [] => top,
        [first, rest @ ..] => {
            let greater = if kind_at_most(top, first.kind) {
                first.kind
            } else {
                top
            };
            greatest(greater, rest)
        }
    }
}
