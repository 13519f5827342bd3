ghost use Rattle.std.specs.Prelude.{◌≡◌, ◌≢◌, ◌≤◌, ◌+◌, ⊤, Err, length, IfSome, IfErr, MatchBool, IsTrue};
ghost use Rattle.dm_base.specs.Outside.{Rose};
ghost use Rattle.dm_top.specs.Showing.{Shows};
ghost use Rattle.dm_top.specs.Top.{is_free_of_journal, is_missing, is_own, is_read_fault, is_refusal, lacks_memory};

use crate::limits::MOST_JOURNAL;
use dm_base::{Journal, JournalError};
use dm_journal::{ContentFault, read_content};
use dm_list::Bytes;
use dm_report::{Status, Which, show_text};
use std::alloc::Global;

/// What `show` prints of a journal, or how it ends. A torn record at its end is passed over, and stays.
pub fn show<J: Journal>(alloc: Global, journal: &mut J) -> Result<Bytes, Status>
    ensures told { IfSome (J.bytes journal.old) (λ bytes. MatchBool (is_free_of_journal result) ⊤ (Shows bytes result)) }
    ensures refusal { IfErr result (λ s. IsTrue (is_refusal s)) }
    ensures usage { result ≢ Err Status.Usage }
    ensures shelf { IfErr result (λ s. MatchBool (is_read_fault s) ⊥ (MatchBool (is_missing s) ⊥ ⊤)) }
    ensures bytes { J.bytes journal.new ≡ J.bytes journal.old }
    ensures target { result ≡ Err Status.TargetFault → Rose (J.faults journal.old) (J.faults journal.new) }
{
    match journal.load(alloc, MOST_JOURNAL) {
        Ok(bytes) => shown(alloc, &bytes),
        Err(JournalError::Failed) => Err(Status::TargetFault),
        Err(JournalError::Memory) => Err(Status::Memory),
    }
}

/// What is printed of a journal's bytes, of which the limit and one more suffice.
fn shown(alloc: Global, bytes: &[u8]) -> Result<Bytes, Status>
    requires { length bytes.now ≤ MOST_JOURNAL + 1 }
    ensures told { MatchBool (lacks_memory result) ⊤ (Shows bytes.now result) }
    ensures own { IfErr result (λ s. IsTrue (is_own s)) }
{
    if bytes.len() > MOST_JOURNAL as usize {
        return Err(Status::Limit {
            which: Which::Journal,
        });
    }
    match read_content(alloc, bytes) {
        Ok(content) => Ok(show_text(alloc, &content.target)?),
        Err(ContentFault::Bad { at }) => Err(Status::JournalBad { at }),
        Err(ContentFault::Memory) => Err(Status::Memory),
    }
}
