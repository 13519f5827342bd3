ghost use Rattle.std.specs.Prelude.{◌≡◌};

use dm_join::{JoinCause, NoJoin};
use dm_value::Name;
use std::alloc::AllocError;

/// Why the lock refuses a new schema of a shard, in the order in which it is looked for.
#[derive(Debug, Drop, PartialEq, Eq)]
pub enum Stop {
    /// The schemas have no join any more.
    NoJoin { column: Name, cause: JoinCause },
    /// A column that a shard dropped is still downstream, with the values that the shard's rows had.
    NotFullyDropped { column: Name },
    /// Rows downstream hold another fill than the one that the column now has.
    FillDiffers { column: Name },
    Memory,
}

impl From<AllocError> for Stop {
    ghost use Rattle.dm_lockstate.specs.declared.stop.Stop.TheVariants.{Memory};

    ghost from_gives = { λ _ stop. stop ≡ Memory };

    fn from(_error: AllocError) -> Stop {
        Stop::Memory
    }
}

impl From<NoJoin> for Stop {
    ghost use Rattle.dm_lockstate.specs.Lock.{stopped};

    ghost from_gives = { λ error stop. stop ≡ stopped error };

    fn from(error: NoJoin) -> Stop {
        match error {
            NoJoin::At { column, cause } => Stop::NoJoin { column, cause },
            NoJoin::Memory => Stop::Memory,
        }
    }
}
