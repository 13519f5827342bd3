ghost use Rattle.std.specs.Prelude.{◌≡◌, false, IfOk, OnOk};
ghost use Rattle.dm_alter.specs.Answers.{is_memory as lacks_memory};
ghost use Rattle.dm_decode.specs.Rows.{is_memory};
ghost use Rattle.dm_stream.specs.Causes.{ddl_cause};
ghost use Rattle.dm_syntax.specs.Parsing.{is_memory as is_out_of_memory};
ghost use Rattle.dm_walk.specs.Causes.{row_cause, effect_cause};

use dm_ddl::DdlFault;
use dm_decode::RowFault;
use dm_schema::EffectFault;
use dm_stream::BadCause;
use std::alloc::AllocError;

/// Why bytes aren't a row, unless memory lacked.
pub fn row_cause(fault: RowFault) -> Result<BadCause, AllocError>
    ensures cause { IfOk result (λ cause. cause ≡ row_cause fault) }
    ensures known { OnOk result (is_memory fault ≡ false) }
{
    match fault {
        RowFault::Count => Ok(BadCause::Count),
        RowFault::TypeDiffers { .. } => Ok(BadCause::TypeDiffers),
        RowFault::Short => Ok(BadCause::Short),
        RowFault::BadDecimal { .. } => Ok(BadCause::BadDecimal),
        RowFault::BadDate { .. } => Ok(BadCause::BadDate),
        RowFault::Unfit { .. } => Ok(BadCause::Unfit),
        RowFault::Memory => Err(AllocError),
    }
}

/// Why changes have no effect, unless memory lacked.
pub fn effect_cause(fault: EffectFault) -> Result<BadCause, AllocError>
    ensures cause { IfOk result (λ cause. cause ≡ effect_cause fault) }
    ensures known { OnOk result (lacks_memory fault ≡ false) }
{
    match fault {
        EffectFault::Renames => Ok(BadCause::Renames),
        EffectFault::PrimaryChange => Ok(BadCause::PrimaryChange),
        EffectFault::UnknownColumn => Ok(BadCause::UnknownColumn),
        EffectFault::ColumnExists => Ok(BadCause::ColumnExists),
        EffectFault::KeyColumn => Ok(BadCause::KeyColumn),
        EffectFault::Readd => Ok(BadCause::Readd),
        EffectFault::FamilyChange => Ok(BadCause::FamilyChange),
        EffectFault::NoFill => Ok(BadCause::NoFill),
        EffectFault::KeyExists => Ok(BadCause::KeyExists),
        EffectFault::Made(_) => Ok(BadCause::Made),
        EffectFault::Memory => Err(AllocError),
    }
}

/// Why a statement can't be read, unless memory lacked.
pub fn ddl_cause(fault: DdlFault) -> Result<BadCause, AllocError>
    ensures cause { IfOk result (λ cause. cause ≡ ddl_cause fault) }
    ensures known { OnOk result (is_out_of_memory fault ≡ false) }
{
    match fault {
        DdlFault::Memory => Err(AllocError),
        fault => Ok(BadCause::from(fault)),
    }
}
