ghost use Rattle.std.specs.Prelude.{◌≡◌, ◌≤◌, None, length, IfOk, IfErr, IfSome, IsErrOf};
ghost use Rattle.dm_base.specs.Outside.{Rose};
ghost use Rattle.dm_target.specs.Memory.{calls_of, content_of};
ghost use Rattle.dm_journal.specs.Contents.{Holds};
ghost use Rattle.dm_journal.specs.Journaled.{most_bytes};
ghost use Rattle.dm_journal.specs.Opening.{IsLeft, IsOpened, IsUnopened};

use crate::content::{JournalContent, read_content};
use crate::fault::ContentFault;
use crate::parts::MOST_BYTES;
use crate::statement_target::StatementTarget;
use dm_base::{Journal, JournalError};
use std::alloc::Global;

/// Why a journal is not opened.
#[derive(Clone, Copy, Debug, PartialEq, Eq)]
pub enum JournalFault {
    /// It could not be read, or its torn rest not be cut.
    Failed,
    /// It has more than 268,435,456 bytes.
    Long,
    /// What begins at this byte is no record, or one that nothing can be made of.
    Bad { at: u32 },
    Memory,
}

/// A journal that is not opened.
#[derive(Drop)]
pub struct NotOpened<J> {
    pub journal: J,
    pub fault: JournalFault,
}

/// Opens a journal: reads its whole records, and cuts what a write that broke off has left behind them.
pub fn open_target<J: Journal + Drop>(
    alloc: Global,
    mut journal: J,
) -> Result<StatementTarget<J>, NotOpened<J>>
    ensures opened { IfOk result (λ target. IfSome (J.bytes journal) (λ bytes. IsOpened bytes (J.bytes target.journal) target.kept target.size)) }
    ensures sound { IfOk result (λ target. target.doubt ≡ None) }
    ensures unopened { IfErr result (λ not. IfSome (J.bytes journal) (λ bytes. IsUnopened bytes not.fault)) }
    ensures left { IfErr result (λ not. IsLeft (J.bytes journal) (J.bytes not.journal) not.fault) }
    ensures faults { IfOk result (λ target. J.faults journal ≤ J.faults target.journal) }
    ensures faults_left { IfErr result (λ not. J.faults journal ≤ J.faults not.journal) }
    ensures failed { IfErr result (λ not. not.fault ≡ JournalFault.Failed → Rose (J.faults journal) (J.faults not.journal)) }
{
    let bytes = match loaded(alloc, &mut journal) {
        Ok(bytes) => bytes,
        Err(fault) => return Err(NotOpened { journal, fault }),
    };
    match content(alloc, &bytes) {
        Ok(content) => settled(journal, bytes.len(), content),
        Err(fault) => Err(NotOpened { journal, fault }),
    }
}

/// All bytes of a journal that isn't too long.
fn loaded<J: Journal>(alloc: Global, journal: &mut J) -> Result<Vec<u8>, JournalFault>
    ensures bytes { J.bytes journal.new ≡ J.bytes journal.old }
    ensures few { IfOk result (λ bytes. length bytes.items ≤ most_bytes) }
    ensures all { IfOk result (λ bytes. IfSome (J.bytes journal.old) (λ told. bytes.items ≡ told)) }
    ensures unopened { IfErr result (λ fault. IfSome (J.bytes journal.old) (λ told. IsUnopened told fault)) }
    ensures left { IfErr result (λ fault. IsLeft (J.bytes journal.old) (J.bytes journal.new) fault) }
    ensures faults { J.faults journal.old ≤ J.faults journal.new }
    ensures failed { IsErrOf result JournalFault.Failed → Rose (J.faults journal.old) (J.faults journal.new) }
{
    match journal.load(alloc, MOST_BYTES as u32) {
        Ok(bytes) => {
            if bytes.len() > MOST_BYTES {
                return Err(JournalFault::Long);
            }
            Ok(bytes)
        }
        Err(JournalError::Failed) => Err(JournalFault::Failed),
        Err(JournalError::Memory) => Err(JournalFault::Memory),
    }
}

/// What bytes hold.
fn content(alloc: Global, bytes: &[u8]) -> Result<JournalContent, JournalFault>
    requires { length bytes.now ≤ most_bytes }
    ensures holds { IfOk result (λ read. Holds bytes.now (content_of read.target) (calls_of read.target) read.whole) }
    ensures bad { IfErr result (λ fault. IsUnopened bytes.now fault) }
    ensures not_failed { IsErrOf result JournalFault.Failed → ⊥ }
{
    match read_content(alloc, bytes) {
        Ok(content) => Ok(content),
        Err(ContentFault::Bad { at }) => Err(JournalFault::Bad { at }),
        Err(ContentFault::Memory) => Err(JournalFault::Memory),
    }
}

/// The target of a journal with so many bytes, whose torn rest is cut.
fn settled<J: Journal + Drop>(
    mut journal: J,
    size: usize,
    content: JournalContent,
) -> Result<StatementTarget<J>, NotOpened<J>>
    requires few { size ≤ most_bytes }
    requires whole { content.whole ≤ size }
    requires holds { IfSome (J.bytes journal) (λ told. (length told ≡ size) × Holds told (content_of content.target) (calls_of content.target) content.whole) }
    ensures opened { IfOk result (λ target. IfSome (J.bytes journal) (λ bytes. IsOpened bytes (J.bytes target.journal) target.kept target.size)) }
    ensures sound { IfOk result (λ target. target.doubt ≡ None) }
    ensures failed { IfErr result (λ not. (not.fault ≡ JournalFault.Failed) × Rose (J.faults journal) (J.faults not.journal)) }
    ensures left { IfErr result (λ not. IsLeft (J.bytes journal) (J.bytes not.journal) not.fault) }
    ensures faults { IfOk result (λ target. J.faults journal ≤ J.faults target.journal) }
    ensures faults_left { IfErr result (λ not. J.faults journal ≤ J.faults not.journal) }
{
    let JournalContent { target, whole } = content;
    if (whole as usize) < size {
        if let Err(_) = journal.cut(whole as u64) {
            let fault = JournalFault::Failed;
            return Err(NotOpened { journal, fault });
        }
    }
    Ok(StatementTarget::new(journal, target, whole as usize))
}
