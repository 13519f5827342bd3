ghost use Rattle.std.specs.Prelude.{◌≡◌, ◌<◌, ◌^◌, ◌&&◌, Ok, fold, length, is_some, IfOk, IsTrue};
ghost use Rattle.std.specs.List.{list_all};
ghost use Rattle.dm_ddl.specs.Defaults.{default_value_of};
ghost use Rattle.dm_ddl.specs.Statements.{are_changes};
ghost use Rattle.dm_schema.specs.Effect.{ddl_effect, is_change};
ghost use Rattle.dm_schema.specs.Layout.{Layout};
ghost use Rattle.dm_schema.specs.Names.{same_name};
ghost use Rattle.dm_route.specs.Rules.{ignores};
ghost use Rattle.dm_stream.specs.Views.{seen};
ghost use Rattle.dm_walk.specs.Steps.{images_of, IsShort};
ghost use Rattle.dm_walk.specs.Walks.{altered, ended, layout_of, with_ddl, with_effect, with_end, with_event, with_images, with_rows, with_said, AreStatements, Statements};

use crate::cause::{ddl_cause, effect_cause};
use crate::rows::{add_changes, bytes_between, place_kind, rows_kind};
use crate::statement::{same_text, statement_kind};
use crate::{Item, Place, PlaceKind, Track};
use dm_binlog::{Event, RowsHead, TableMap};
use dm_ddl::{Head, Statement, effect, read_statement};
use dm_list::Sequence;
use dm_route::{EventKind, Rules, ignores};
use dm_schema::{Change, Schema, TableName};
use dm_stream::{BadCause, LogFault, Logged, Said};
use std::alloc::{AllocError, Global};
use std::marker::Model;

/// A history that grows event by event. Behind an `Err` nothing is said of it.
#[derive(Drop)]
pub struct History {
    own: TableName,
    first: Schema,
    later: Vec<Schema>,
    items: Vec<Item>,
    fault: Option<LogFault>,
}

impl Model for History {
    ghost use Rattle.dm_walk.specs.declared.track.Track.{Track};

    ghost Value = { Track };

    ghost view = { λ h. record { own = h.own; first = h.first; later = h.later.items; items = h.items.items; fault = h.fault } };
}

/// The schema behind the last statement.
fn latest<'a>(first: &'a Schema, later: &'a [Schema]) -> &'a Schema
    ensures { result.now ≡ fold (λ (before after : Layout). after) first.now later.now }
{
    match later.last() {
        Some(schema) => schema,
        None => first,
    }
}

impl History {
    pub fn open(track: Track) -> History
        ensures { result ≡ track }
    {
        History {
            own: track.own,
            first: track.first,
            later: track.later.into_vec(),
            items: track.items.into_vec(),
            fault: track.fault,
        }
    }

    /// The history behind all events of its source, of which this one is the fault.
    pub fn close(self, fault: Option<LogFault>) -> Track
        ensures { result ≡ with_end fault self }
    {
        Track {
            own: self.own,
            first: self.first,
            later: Sequence::new(self.later),
            items: Sequence::new(self.items),
            fault: self.fault.or(fault),
        }
    }

    pub fn has_ended(&self) -> bool
        ensures { result ≡ is_some self.now.fault }
    {
        self.fault.is_some()
    }

    /// Ends it at an event.
    fn end(&mut self, logged: &Logged<'_>, cause: BadCause)
        ensures { self.new ≡ ended cause (seen logged.now) self.old }
    {
        self.fault = Some(LogFault {
            file: logged.file.number,
            at: logged.event.at,
            cause,
        });
    }

    /// The rows of an event on the table, all of whose columns are there.
    fn add_images(
        &mut self,
        alloc: Global,
        logged: &Logged<'_>,
        map_event: Event,
        table: &TableMap,
        head: &RowsHead,
    ) -> Result<(), AllocError>
        requires { length logged.now.file.bytes.now < 2 ^ 32 }
        ensures { IfOk result (λ _. self.new ≡ with_images (seen logged.now) map_event (images_of (seen logged.now) table.now head.now self.old) self.old) }
    {
        let event = logged.event;
        let place = Place {
            file: logged.file.number,
            at: 0,
            event: event.at,
            map: map_event.at,
            kind: place_kind(event.kind),
        };
        let from = event.body as usize + head.rows as usize;
        let bytes = bytes_between(logged.file.bytes, from, event.end as usize);
        let schema = latest(&self.first, &self.later);
        let bad = add_changes(alloc, &mut self.items, place, table, schema, from, bytes)?;
        if let Some(cause) = bad {
            self.end(logged, cause);
        }
        Ok(())
    }

    /// The rows of an event on the table.
    fn add_rows(
        &mut self,
        alloc: Global,
        logged: &Logged<'_>,
        map_event: Event,
        table: &TableMap,
        head: &RowsHead,
    ) -> Result<(), AllocError>
        requires { length logged.now.file.bytes.now < 2 ^ 32 }
        ensures { IfOk result (λ _. self.new ≡ with_rows (seen logged.now) map_event table.now head.now self.old) }
    {
        if !head.full {
            self.end(logged, BadCause::Partial);
            return Ok(());
        }
        if head.count != table.columns.len() {
            self.end(logged, BadCause::Count);
            return Ok(());
        }
        self.add_images(alloc, logged, map_event, table, head)
    }

    /// Changes of a statement on the table.
    fn change(
        &mut self,
        alloc: Global,
        logged: &Logged<'_>,
        changes: &[Change],
    ) -> Result<(), AllocError>
        requires { IsTrue (list_all is_change changes.now) }
        ensures { IfOk result (λ _. self.new ≡ with_effect (seen logged.now) (ddl_effect default_value_of (layout_of self.old) changes.now) self.old) }
    {
        match effect(alloc, latest(&self.first, &self.later), changes) {
            Ok(after) => {
                self.items.push(Item::Ddl(Place {
                    file: logged.file.number,
                    at: logged.event.at,
                    event: logged.event.at,
                    map: 0,
                    kind: PlaceKind::Statement,
                }))?;
                self.later.push(after)?;
                Ok(())
            }
            Err(fault) => {
                self.end(logged, effect_cause(fault)?);
                Ok(())
            }
        }
    }

    /// A statement on the table that was read.
    fn alter_by(
        &mut self,
        alloc: Global,
        logged: &Logged<'_>,
        statement: Statement,
    ) -> Result<(), AllocError>
        requires { IsTrue (are_changes statement) }
        ensures { IfOk result (λ _. self.new ≡ altered (seen logged.now) (Ok statement) self.old) }
    {
        match statement {
            Statement::Alter { changes, .. } => self.change(alloc, logged, changes.as_slice()),
            Statement::Create { .. } | Statement::Other => Ok(()),
        }
    }

    /// A statement that alters the table.
    fn alter(&mut self, alloc: Global, logged: &Logged<'_>, text: &[u8]) -> Result<(), AllocError>
        requires { length text.now < 2 ^ 32 }
        ensures { (statements : Statements) → AreStatements statements → IfOk result (λ _. self.new ≡ altered (seen logged.now) (statements text.now) self.old) }
    {
        match read_statement(alloc, text) {
            Ok(statement) => self.alter_by(alloc, logged, statement),
            Err(fault) => {
                self.end(logged, ddl_cause(fault)?);
                Ok(())
            }
        }
    }

    /// A statement on the table that no filter ignores.
    fn add_ddl(
        &mut self,
        alloc: Global,
        logged: &Logged<'_>,
        head: &Head,
        text: &[u8],
    ) -> Result<(), AllocError>
        requires { length text.now < 2 ^ 32 }
        ensures { (statements : Statements) → AreStatements statements → IfOk result (λ _. self.new ≡ with_ddl statements (seen logged.now) head.now text.now self.old) }
    {
        match head {
            Head::Create { only_new: true, .. } | Head::RowStatement | Head::NotTable => Ok(()),
            Head::Alter(_) | Head::CreateIndex(_) | Head::DropIndex(_) => {
                self.alter(alloc, logged, text)
            }
            Head::Create {
                only_new: false,
                ..
            }
            | Head::DropTable(_)
            | Head::Truncate(_)
            | Head::Rename(_) => {
                self.end(logged, BadCause::Unsupported);
                Ok(())
            }
        }
    }

    fn is_of(&self, table: &TableMap) -> bool
        ensures { result ≡ (same_name table.now.db self.now.own.db && same_name table.now.table self.now.own.table) }
    {
        same_text(table.db.as_slice(), self.own.db.as_slice())
            && same_text(table.table.as_slice(), self.own.table.as_slice())
    }

    fn ignores(&self, rules: &Rules, kind: EventKind) -> bool
        ensures { result ≡ ignores rules.now self.now.own.db self.now.own.table kind }
    {
        ignores(
            rules,
            self.own.db.as_slice(),
            self.own.table.as_slice(),
            kind,
        )
    }

    /// What an event says of the table.
    fn add_said(
        &mut self,
        alloc: Global,
        rules: &Rules,
        logged: &Logged<'_>,
    ) -> Result<(), AllocError>
        requires { IsShort (seen logged.now) }
        ensures { (statements : Statements) → AreStatements statements → IfOk result (λ _. self.new ≡ with_said statements rules.now (seen logged.now) (seen logged.now).said self.old) }
    {
        match &logged.said {
            Said::Nothing => Ok(()),
            Said::Ends(cause) => {
                self.end(logged, *cause);
                Ok(())
            }
            Said::Rows {
                map_event,
                map,
                head,
            } => {
                if !self.is_of(map) || self.ignores(rules, rows_kind(logged.event.kind)) {
                    return Ok(());
                }
                self.add_rows(alloc, logged, *map_event, map, head)
            }
            Said::Statement { head, db, text } => {
                match statement_kind(&self.own, db, head) {
                    None => Ok(()),
                    Some(kind) if self.ignores(rules, kind) => Ok(()),
                    Some(_) => self.add_ddl(alloc, logged, head, text),
                }
            }
        }
    }

    /// One event more, unless the history has ended.
    pub fn add(
        &mut self,
        alloc: Global,
        rules: &Rules,
        logged: &Logged<'_>,
    ) -> Result<(), AllocError>
        requires { IsShort (seen logged.now) }
        ensures { (statements : Statements) → AreStatements statements → IfOk result (λ _. self.new ≡ with_event statements rules.now self.old (seen logged.now)) }
    {
        if self.has_ended() {
            return Ok(());
        }
        self.add_said(alloc, rules, logged)
    }
}
