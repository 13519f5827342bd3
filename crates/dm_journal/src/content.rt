ghost use Rattle.std.specs.Prelude.{◌<◌, ◌^◌, length, IfOk, IfErr};
ghost use Rattle.dm_journal.specs.Answers.{MatchFault};
ghost use Rattle.dm_target.specs.Memory.{calls_of, content_of};
ghost use Rattle.dm_journal.specs.Contents.{Holds, IsBadAt};

use crate::carrying::take_record;
use crate::fault::ContentFault;
use dm_stmt::Known;
use dm_target::MemoryTarget;
use std::alloc::Global;

/// What a journal holds: the target that its whole records lead to, and how many bytes these are.
#[derive(Drop)]
pub struct JournalContent {
    pub target: MemoryTarget,
    pub whole: u32,
}

/// What a journal's bytes hold. A torn rest counts for nothing; it is what a write that broke off leaves.
pub fn read_content(alloc: Global, bytes: &[u8]) -> Result<JournalContent, ContentFault>
    requires { length bytes.now < 2 ^ 32 }
    ensures holds { IfOk result (λ read. Holds bytes.now (content_of read.target) (calls_of read.target) read.whole) }
    ensures bad { IfErr result (λ fault. MatchFault fault (λ at. IsBadAt bytes.now at)) }
{
    let mut target = MemoryTarget::new(alloc);
    let mut known = Known::new(alloc);
    let mut whole = 0;
    'records: loop {
        match take_record(alloc, &mut target, &mut known, &bytes[whole..]) {
            Ok(Some(size)) => whole += size,
            Ok(None) => {
                let whole = whole as u32;
                return Ok(JournalContent { target, whole });
            }
            Err(fault) => return Err(fault.at(whole as u32)),
        }
    }
}
