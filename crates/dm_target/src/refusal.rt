ghost use Rattle.std.specs.Prelude.{◌≡◌};

use crate::TargetError;
use dm_table::TableFault;

impl From<TableFault> for TargetError {
    ghost use Rattle.dm_target.specs.Refusals.{refused};

    ghost from_gives = { λ fault error. error ≡ refused fault };

    fn from(fault: TableFault) -> TargetError {
        match fault {
            TableFault::Memory => TargetError::Memory,
            fault => TargetError::Rejected(fault),
        }
    }
}
