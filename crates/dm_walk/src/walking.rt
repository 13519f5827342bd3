ghost use Rattle.std.specs.Prelude.{◌≡◌, map, All, IfOk, IsTrue, Option};
ghost use Rattle.std.specs.Option.{option_map};
ghost use Rattle.dm_stream.specs.declared.event.LogFault.{LogFault};
ghost use Rattle.dm_stream.specs.Logs.{AreHeads, log_of};
ghost use Rattle.dm_stream.specs.Rests.{is_behind, left};
ghost use Rattle.dm_stream.specs.Sayings.{Heads};
ghost use Rattle.dm_stream.specs.Views.{seen, seen_file, IsShort as IsShortFile};
ghost use Rattle.dm_walk.specs.declared.track.Track.{Track};
ghost use Rattle.dm_walk.specs.Steps.{have_ended, AreShort, IsShort};
ghost use Rattle.dm_walk.specs.Walks.{walked, with_end, with_event, AreStatements, Statements};

use crate::Track;
use crate::history::History;
use dm_route::Rules;
use dm_stream::{LogFault, LogFile, Logged, Stream};
use std::alloc::{AllocError, Global};

fn opened(alloc: Global, tracks: Vec<Track>) -> Result<Vec<History>, AllocError>
    ensures { IfOk result (λ histories. histories.items ≡ tracks.items) }
{
    tracks.into_iter().map(History::open).collect(alloc)
}

fn closed(
    alloc: Global,
    histories: Vec<History>,
    fault: Option<LogFault>,
) -> Result<Vec<Track>, AllocError>
    ensures { IfOk result (λ tracks. tracks.items ≡ map (with_end fault) histories.items) }
{
    histories
        .into_iter()
        .map(|history| history.close(fault))
        .collect(alloc)
}

fn have_ended(histories: &[History]) -> bool
    ensures { result ≡ have_ended histories.now }
{
    histories.iter().all(|history| history.has_ended())
}

/// An event more for each history.
fn add_event(
    alloc: Global,
    rules: &Rules,
    histories: &mut [History],
    logged: &Logged<'_>,
) -> Result<(), AllocError>
    requires { IsShort (seen logged.now) }
    ensures { (statements : Statements) → AreStatements statements → IfOk result (λ _. histories.new ≡ map (λ t. with_event statements rules.now t (seen logged.now)) histories.old) }
{
    for history in histories.iter_mut() {
        history.add(alloc, rules, logged)?;
    }
    Ok(())
}

/// The same of an event that is let go of.
fn add_taken(
    alloc: Global,
    rules: &Rules,
    histories: &mut [History],
    logged: Logged<'_>,
) -> Result<(), AllocError>
    requires { IsShort (seen logged) }
    ensures { (statements : Statements) → AreStatements statements → IfOk result (λ _. histories.new ≡ map (λ t. with_event statements rules.now t (seen logged.entry)) histories.old) }
{
    add_event(alloc, rules, histories, &logged)
}

/// The events that are left, for each history, until all have ended.
fn add_events(
    alloc: Global,
    rules: &Rules,
    histories: &mut [History],
    stream: &mut Stream<'_>,
) -> Result<(), AllocError>
    requires { (heads : Heads) → AreHeads heads → AreShort (left heads stream.old).events }
    // Where all have ended before the log does, any fault of the log will do.
    ensures { (heads : Heads) (statements : Statements) (fault : Option LogFault) → AreHeads heads → AreStatements statements
        → (IsTrue (is_behind stream.new) → fault ≡ (left heads stream.new).fault)
        → IfOk result (λ _. map (with_end fault) histories.new ≡ map (walked statements rules.now (left heads stream.old)) histories.old) }
{
    while let Some(logged) = stream.next_event()? {
        add_taken(alloc, rules, histories, logged)?;
        if have_ended(histories) {
            return Ok(());
        }
    }
    Ok(())
}

/// Walks over a source's events, and adds to each history what they say of its table.
pub fn walk(
    alloc: Global,
    rules: &Rules,
    tracks: Vec<Track>,
    files: &[LogFile<'_>],
    start: u32,
) -> Result<Vec<Track>, AllocError>
    requires { All IsShortFile files.now }
    ensures walked { IfOk result (λ new. (heads : Heads) (statements : Statements) → AreHeads heads → AreStatements statements
        → new.items ≡ map (walked statements rules.now (log_of heads start (map seen_file files.now))) tracks.items) }
    // What a statement says by its grammar is one thing for each text, so a clause on all such statements says something.
    ensures exist { (heads : Heads) × (statements : Statements) × AreHeads heads × AreStatements statements }
{
    let mut stream = Stream::new(alloc, files, start)?;
    let mut histories = opened(alloc, tracks)?;
    add_events(alloc, rules, &mut histories, &mut stream)?;
    closed(alloc, histories, stream.fault())
}
