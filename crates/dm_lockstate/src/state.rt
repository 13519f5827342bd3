ghost use Rattle.std.specs.Prelude.{◌≡◌, ◌<◌, length, slice_set, IfOk};
ghost use Rattle.dm_list.specs.Answer.{Answers};
ghost use Rattle.dm_join.specs.Join.{is_memory};
ghost use Rattle.dm_lockstate.specs.Lock.{first, offer, recorded, is_dropped, is_memory_stop};

use crate::Stop;
use crate::dropping::{dropped_after, is_dropped};
use crate::judging::{Offered, refusal};
use dm_join::{NoJoin, join};
use dm_list::{Copied, Sequence};
use dm_schema::{Name, Schema};
use std::alloc::{AllocError, Global};
use std::marker::Model;

/// A shard of the table, by its place among them from 0, dropped a column that is still downstream.
#[derive(Debug, Drop)]
pub struct Dropped {
    pub member: u32,
    pub column: Name,
}

impl Copied for Dropped {
    fn copy(&self, alloc: Global) -> Result<Dropped, AllocError> {
        Ok(Dropped {
            member: self.member,
            column: self.column.copy(alloc)?,
        })
    }
}

/// What a table's lock knows: the recorded schema of each shard, the dropped columns, and the join of the schemas,
/// which the downstream table is to have.
#[derive(Debug, Drop)]
pub struct LockState {
    schemas: Sequence<Schema>,
    dropped: Sequence<Dropped>,
    joined: Schema,
}

impl Model for LockState {
    ghost use Rattle.dm_lockstate.specs.Lock.{Lock};

    ghost Value = { Lock };

    ghost view = { λ s. record { schemas = s.schemas; dropped = s.dropped; joined = s.joined } };

    ghost inverse = { λ l. record { schemas = l.schemas; dropped = l.dropped; joined = l.joined } };
}

impl LockState {
    /// The lock over the shards' first schemas, in the shards' order.
    #[tactic(auto, unfolding(crate::specs::Lock::first))]
    pub fn first(alloc: Global, schemas: Vec<Schema>) -> Result<LockState, NoJoin>
        requires { 0 < length schemas.items }
        ensures { Answers is_memory result (first schemas.items) }
    {
        let joined = join(alloc, &schemas)?;
        Ok(LockState {
            schemas: Sequence::new(schemas),
            dropped: Sequence::new(Vec::new(alloc)),
            joined,
        })
    }

    /// The join of the recorded schemas.
    pub fn joined(&self) -> &Schema
        ensures { result.now ≡ self.now.joined }
    {
        &self.joined
    }

    /// How many shards the lock is over.
    pub fn members(&self) -> usize
        ensures { result ≡ length self.now.schemas }
    {
        self.schemas.as_slice().len()
    }

    /// The recorded schema of a shard.
    pub fn schema_of(&self, member: u32) -> &Schema
        requires { member < length self.now.schemas }
        ensures { result.now ≡ recorded self.now member }
    {
        &self.schemas.as_slice()[member as usize]
    }

    /// Whether the shard dropped a column of this name that is still downstream.
    pub fn is_dropped(&self, member: u32, column: &Name) -> bool
        ensures { result ≡ is_dropped self.now.dropped member column.now }
    {
        is_dropped(self.dropped.as_slice(), member, column)
    }

    /// The lock after a shard changes to a new schema, or the first reason against it.
    #[tactic(auto, unfolding(crate::specs::Lock::offer))]
    pub fn offer(&self, alloc: Global, member: u32, schema: &Schema) -> Result<LockState, Stop>
        requires { member < length self.now.schemas }
        ensures { Answers is_memory_stop result (offer self.now member schema.now) }
    {
        let schemas = with_schema(alloc, self.schemas.as_slice(), member, schema)?;
        let joined = join(alloc, &schemas)?;
        let dropped = dropped_after(alloc, self, member, schema, &joined)?;
        let offered = Offered {
            lock: self,
            member,
            schema,
            schemas: &schemas,
            joined: &joined,
            dropped: &dropped,
        };
        if let Some(stop) = refusal(alloc, &offered)? {
            return Err(stop);
        }
        Ok(LockState {
            schemas: Sequence::new(schemas),
            dropped: Sequence::new(dropped),
            joined,
        })
    }

    pub(crate) fn schemas(&self) -> &[Schema]
        ensures { result.now ≡ self.now.schemas }
    {
        self.schemas.as_slice()
    }

    pub(crate) fn dropped(&self) -> &[Dropped]
        ensures { result.now ≡ self.now.dropped }
    {
        self.dropped.as_slice()
    }
}

/// Copies of the schemas, with another for one shard.
fn with_schema(
    alloc: Global,
    schemas: &[Schema],
    member: u32,
    schema: &Schema,
) -> Result<Vec<Schema>, AllocError>
    requires { member < length schemas.now }
    ensures { IfOk result (λ after. after.items ≡ slice_set schemas.now member schema.now) }
{
    let mut after = Vec::with_capacity(alloc, schemas.len())?;
    for recorded in schemas {
        after.push(recorded.copy(alloc)?)?;
    }
    after[member as usize] = schema.copy(alloc)?;
    Ok(after)
}
