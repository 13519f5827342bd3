ghost use Rattle.std.specs.Prelude.{◌≡◌, if◌then◌else◌};
ghost use Rattle.dm_schema.specs.Names.{same_name};
ghost use Rattle.dm_walk.specs.Walks.{are_named, is_named, statement_kind};

use dm_ddl::{Head, Named, Tables};
use dm_route::EventKind;
use dm_schema::TableName;

pub fn same_text(text: &[u8], other: &[u8]) -> bool
    ensures { result ≡ same_name text.now other.now }
{
    text == other
}

/// Whether a statement's table is this one, where the statement was written in the database `db`.
fn is_named(own: &TableName, db: &[u8], named: &Named) -> bool
    ensures { result ≡ is_named own.now db.now named.now }
{
    let named_db = match &named.db {
        Some(written) => written.as_slice(),
        None => db,
    };
    same_text(named_db, own.db.as_slice())
        && same_text(named.table.as_slice(), own.table.as_slice())
}

fn are_named(own: &TableName, db: &[u8], tables: &Tables) -> bool
    ensures { result ≡ are_named own.now db.now tables.now }
{
    tables
        .as_slice()
        .iter()
        .any(|named| is_named(own, db, named))
}

fn kind_if(is_own: bool, kind: EventKind) -> Option<EventKind>
    ensures { result ≡ (if is_own then Some kind else None) }
{
    if is_own { Some(kind) } else { None }
}

/// What a statement does to a table, if it does anything to it.
pub fn statement_kind(own: &TableName, db: &[u8], head: &Head) -> Option<EventKind>
    ensures { result ≡ statement_kind own.now db.now head.now }
{
    match head {
        Head::Create { table, .. } => kind_if(is_named(own, db, table), EventKind::CreateTable),
        Head::Alter(table) => kind_if(is_named(own, db, table), EventKind::AlterTable),
        Head::CreateIndex(table) => kind_if(is_named(own, db, table), EventKind::CreateIndex),
        Head::DropIndex(table) => kind_if(is_named(own, db, table), EventKind::DropIndex),
        Head::DropTable(tables) => kind_if(are_named(own, db, tables), EventKind::DropTable),
        Head::Truncate(table) => kind_if(is_named(own, db, table), EventKind::Truncate),
        Head::Rename(tables) => kind_if(are_named(own, db, tables), EventKind::Rename),
        Head::RowStatement | Head::NotTable => None,
    }
}
