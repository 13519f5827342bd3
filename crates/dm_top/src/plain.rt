ghost use Rattle.std.specs.Prelude.{◌≡◌, ◌≢◌, ⊤, Some, Err, map, string_bytes, All, IfErr, IsErrAnd, MatchBool, IsTrue};
ghost use Rattle.std.specs.Str.{IsUtf8};
ghost use Rattle.std.specs.Result.{ForErr};
ghost use Rattle.dm_base.specs.Outside.{Rose};
ghost use Rattle.dm_words.specs.Words.{order_of, files_of};
ghost use Rattle.dm_top.specs.Top.{lacks_memory, is_known, is_missing, is_refusal, AnswersOrder, AnswersWords, Ends, Runs};

use crate::check::check_task;
use crate::load::load;
use crate::show::show;
use dm_base::{Journal, Shelf, Sink};
use dm_list::Bytes;
use dm_report::{Status, fault_line};
use dm_words::{Order, WordFault, read_words};
use std::alloc::Global;

/// All that the program does for commands that wait for nobody: `load`, `check-task` and `show`. It answers how the
/// command ended, and hands back the journal.
pub fn dm_plain<F: Shelf, J: Journal, S: Sink>(
    alloc: Global,
    words: &[String],
    shelf: &mut F,
    mut journal: J,
    out: &mut S,
) -> (Status, J)
    ensures runs { Runs (map string_bytes words.now) (record { files = F.files shelf.old; journal = J.bytes journal }) result.0 (S.taken out.old) (S.taken out.new) }
    ensures journal { J.bytes result.1 ≡ J.bytes journal }

    ensures read { result.0 ≡ Status.ReadFault → Rose (F.faults shelf.old) (F.faults shelf.new) }
    ensures missing { IsTrue (is_missing result.0) → Rose (F.misses shelf.old) (F.misses shelf.new) }
    ensures write { result.0 ≡ Status.WriteFault → Rose (S.faults out.old) (S.faults out.new) }
    ensures target { result.0 ≡ Status.TargetFault → Rose (J.faults journal) (J.faults result.1) }
    ensures files { F.files shelf.new ≡ F.files shelf.old }
{
    let answer = answer(alloc, words, shelf, &mut journal);
    let status = finish(alloc, answer, out);
    (status, journal)
}

/// What a command prints, or how it ends, before anything is put.
fn answer<F: Shelf, J: Journal>(
    alloc: Global,
    words: &[String],
    shelf: &mut F,
    journal: &mut J,
) -> Result<Bytes, Status>
    ensures told { AnswersWords (record { files = F.files shelf.old; journal = J.bytes journal.old }) (map string_bytes words.now) result }
    ensures usage { MatchBool (is_known (order_of (map string_bytes words.now))) (result ≢ Err Status.Usage) (MatchBool (lacks_memory result) ⊤ (result ≡ Err Status.Usage)) }
    ensures refusal { IfErr result (λ s. IsTrue (is_refusal s)) }

    ensures files { F.files shelf.new ≡ F.files shelf.old }
    ensures read { result ≡ Err Status.ReadFault → Rose (F.faults shelf.old) (F.faults shelf.new) }
    ensures missing { IsErrAnd result (λ s. IsTrue (is_missing s)) → Rose (F.misses shelf.old) (F.misses shelf.new) }
    ensures bytes { J.bytes journal.new ≡ J.bytes journal.old }
    ensures target { result ≡ Err Status.TargetFault → Rose (J.faults journal.old) (J.faults journal.new) }
{
    match read_words(alloc, words) {
        Ok(order) => carry_out(alloc, order, shelf, journal),
        Err(WordFault::Usage) => Err(Status::Usage),
        Err(WordFault::Memory) => Err(Status::Memory),
    }
}

/// What an order prints, or how it ends.
fn carry_out<F: Shelf, J: Journal>(
    alloc: Global,
    order: Order,
    shelf: &mut F,
    journal: &mut J,
) -> Result<Bytes, Status>
    requires { All IsUtf8 (files_of order) }
    ensures told { AnswersOrder (record { files = F.files shelf.old; journal = J.bytes journal.old }) (Some order) result }
    ensures usage { MatchBool (is_known (Some order)) (result ≢ Err Status.Usage) (MatchBool (lacks_memory result) ⊤ (result ≡ Err Status.Usage)) }
    ensures refusal { IfErr result (λ s. IsTrue (is_refusal s)) }

    ensures files { F.files shelf.new ≡ F.files shelf.old }
    ensures read { result ≡ Err Status.ReadFault → Rose (F.faults shelf.old) (F.faults shelf.new) }
    ensures missing { IsErrAnd result (λ s. IsTrue (is_missing s)) → Rose (F.misses shelf.old) (F.misses shelf.new) }
    ensures bytes { J.bytes journal.new ≡ J.bytes journal.old }
    ensures target { result ≡ Err Status.TargetFault → Rose (J.faults journal.old) (J.faults journal.new) }
{
    match order {
        Order::Load { files } => load(alloc, shelf, files.as_slice()),
        Order::CheckTask { file } => check_task(alloc, shelf, file),
        Order::Show => show(alloc, journal),
        Order::Run { .. } | Order::Gen { .. } => Err(Status::Usage),
    }
}

fn finish<S: Sink>(alloc: Global, answer: Result<Bytes, Status>, out: &mut S) -> Status
    requires { ForErr answer (λ s. IsTrue (is_refusal s)) }
    ensures put { Ends answer result (S.taken out.old) (S.taken out.new) }
    ensures read { result ≡ Status.ReadFault → answer ≡ Err Status.ReadFault }
    ensures missing { IsTrue (is_missing result) → IsErrAnd answer (λ s. IsTrue (is_missing s)) }
    ensures write { result ≡ Status.WriteFault → Rose (S.faults out.old) (S.faults out.new) }
    ensures target { result ≡ Status.TargetFault → answer ≡ Err Status.TargetFault }
{
    match answer {
        Ok(text) => match out.put(text.as_slice()) {
            Ok(()) => Status::Done,
            Err(_) => Status::WriteFault,
        },
        Err(status) => put_fault(alloc, status, out),
    }
}

fn put_fault<S: Sink>(alloc: Global, status: Status, out: &mut S) -> Status
    requires { IsTrue (is_refusal status) }
    ensures put { Ends (Err status) result (S.taken out.old) (S.taken out.new) }
    ensures read { result ≡ Status.ReadFault → status ≡ Status.ReadFault }
    ensures missing { IsTrue (is_missing result) → IsTrue (is_missing status) }
    ensures write { result ≡ Status.WriteFault → Rose (S.faults out.old) (S.faults out.new) }
    ensures target { result ≡ Status.TargetFault → status ≡ Status.TargetFault }
{
    if let Status::Memory = status {
        return Status::Memory;
    }
    let Ok(line) = fault_line(alloc, &status) else {
        return Status::Memory;
    };
    match out.put(line.as_slice()) {
        Ok(()) => status,
        Err(_) => Status::WriteFault,
    }
}
