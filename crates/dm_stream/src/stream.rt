ghost use Rattle.std.specs.Prelude.{◌≡◌, ◌<◌, map, All, IfOk, IfSome, IfNone, IsTrue, MatchBool, length};
ghost use Rattle.std.specs.Option.{option_map};
ghost use Rattle.dm_stream.specs.Sayings.{Heads};
ghost use Rattle.dm_stream.specs.Logs.{AreHeads, log_of};
ghost use Rattle.dm_stream.specs.Views.{seen, seen_file, IsShort};
ghost use Rattle.dm_stream.specs.Rests.{IsNext, events_left, is_behind, is_passed, is_ready, left};

use crate::file::OpenFile;
use crate::{LogFault, LogFile, Logged};
use std::alloc::{AllocError, Global};
use std::marker::Model;

/// What is left of a source's log, which is read event by event. What an `Err` leaves isn't said.
#[derive(Drop)]
pub struct Stream<'a> {
    alloc: Global,
    front: OpenFile<'a>,
    files: &'a [LogFile<'a>],
    start: u32,
}

impl<'a> Model for Stream<'a> {
    ghost use Rattle.std.specs.Prelude.{map, All};
    ghost use Rattle.dm_stream.specs.Rests.{Rest};
    ghost use Rattle.dm_stream.specs.Views.{IsShort, seen_file};

    ghost Value = { Rest };

    ghost view = { λ stream. record { front = stream.front; files = map seen_file stream.files.now; start = stream.start } };

    ghost invariant = { λ stream. All IsShort stream.files.now };
}

impl<'a> Stream<'a> {
    /// The log of files in turn, of which the first is read from the byte `start` on.
    pub fn new(
        alloc: Global,
        files: &'a [LogFile<'a>],
        start: u32,
    ) -> Result<Stream<'a>, AllocError>
        requires { All IsShort files.now }
        ensures log { IfOk result (λ stream. (heads : Heads) → left heads stream ≡ log_of heads start (map seen_file files.now)) }
        // Each text says something by the grammar of heads, so what the clauses say of such heads isn't empty.
        ensures exist { (heads : Heads) × AreHeads heads }
    {
        let mut stream = Stream {
            alloc,
            front: OpenFile::none(alloc),
            files,
            start,
        };
        stream.advance()?;
        Ok(stream)
    }

    /// Opens the next file; false where there is none.
    fn open_next(&mut self) -> Result<bool, AllocError>
        requires { IsTrue (is_passed self.old.front) }
        ensures same { IfOk result (λ _. (heads : Heads) → left heads self.new ≡ left heads self.old) }
        ensures fewer { IfOk result (λ found. MatchBool found (length self.new.files < length self.old.files) (IsTrue (is_ready self.new))) }
    {
        let [first, rest @ ..] = self.files else {
            return Ok(false);
        };
        self.front
            .go_on(self.alloc, *first, self.start, rest.is_empty())?;
        self.files = rest;
        // The first event of a file stands at its byte 4.
        self.start = 4;
        Ok(true)
    }

    /// Opens files until one has an event or a fault.
    fn advance(&mut self) -> Result<(), AllocError>
        ensures same { IfOk result (λ _. (heads : Heads) → left heads self.new ≡ left heads self.old) }
        ensures ready { IfOk result (λ _. IsTrue (is_ready self.new)) }
    {
        while self.front.is_passed() {
            if !self.open_next()? {
                return Ok(());
            }
        }
        Ok(())
    }

    /// The next event; `None` where no more can be read.
    pub fn next_event(&mut self) -> Result<Option<Logged<'a>>, AllocError>
        ensures gives { (heads : Heads) → AreHeads heads → IfOk result (λ next. IsNext (left heads self.old) (option_map seen next) (left heads self.new)) }
        ensures fault { (heads : Heads) → IfOk result (λ _. (left heads self.new).fault ≡ (left heads self.old).fault) }
        ensures fewer { IfOk result (λ next. IfSome next (λ _. events_left self.new < events_left self.old)) }
        ensures behind { IfOk result (λ next. IfNone next (IsTrue (is_behind self.new))) }
    {
        self.advance()?;
        self.front.next_event(self.alloc)
    }

    /// Behind the last event: why the log can't be read any further.
    pub fn fault(&self) -> Option<LogFault>
        ensures { (heads : Heads) → IsTrue (is_behind self.now) → result ≡ (left heads self.now).fault }
    {
        self.front.fault()
    }
}
