ghost use Rattle.std.specs.Prelude.{◌≡◌, [], None, IfOk};
ghost use Rattle.std.specs.Option.{option_map};
ghost use Rattle.dm_binlog.specs.Framing.{events_of, no_events};
ghost use Rattle.dm_stream.specs.Sayings.{Heads};
ghost use Rattle.dm_stream.specs.Logs.{AreHeads, log_fault};
ghost use Rattle.dm_stream.specs.Views.{seen, seen_file, IsShort};
ghost use Rattle.dm_stream.specs.Rests.{opened, moved, next_of, is_passed};

use crate::said::said_of;
use crate::{BadCause, LogFault, LogFile, Logged};
use dm_binlog::{BinlogFault, Event, Fault, read_events};
use std::alloc::{AllocError, Global};
use std::collections::BTreeMap;
use std::marker::Model;

/// A file whose events are read in turn.
#[derive(Drop)]
pub struct OpenFile<'a> {
    file: LogFile<'a>,
    events: Vec<Event>,
    /// How many of the events were read.
    place: usize,
    /// The last table map of each table id among the events that were read.
    table_maps: BTreeMap<u64, Event>,
    fault: Option<Fault>,
}

impl<'a> Model for OpenFile<'a> {
    ghost use Rattle.std.specs.Prelude.{take, drop};
    ghost use Rattle.dm_stream.specs.Rests.{FileRest};
    ghost use Rattle.dm_stream.specs.Views.{seen_file};
    ghost use Rattle.dm_stream.specs.TableMaps.{IsKept};

    ghost Value = { FileRest };

    ghost view = { λ open_file. record {
      file = seen_file open_file.file;
      before = take open_file.place open_file.events.items;
      behind = drop open_file.place open_file.events.items;
      fault = open_file.fault;
    } };

    ghost invariant = { λ open_file. IsKept open_file.file.bytes.now open_file.events.items open_file.place open_file.table_maps };
}

impl<'a> OpenFile<'a> {
    /// A file without events, which stands before the first.
    pub fn none(alloc: Global) -> OpenFile<'a>
        ensures { result ≡ opened (record { number = 0; bytes = [] }) (no_events None) }
    {
        let file = LogFile {
            number: 0,
            bytes: &[],
        };
        OpenFile {
            file,
            events: Vec::new(alloc),
            place: 0,
            table_maps: BTreeMap::new(alloc),
            fault: None,
        }
    }

    /// Goes on at a file's first event. Where memory is wanting nothing changes.
    pub fn go_on(
        &mut self,
        alloc: Global,
        file: LogFile<'a>,
        start: u32,
        last: bool,
    ) -> Result<(), AllocError>
        requires { IsShort file }
        ensures { IfOk result (λ _. self.new ≡ opened (seen_file file.entry) (events_of file.entry.bytes.now start last)) }
    {
        match read_events(alloc, file.bytes, start, last) {
            Err(BinlogFault::Memory) => Err(AllocError),
            Ok(events) => {
                self.file = file;
                self.events = events.list.into_vec();
                self.place = 0;
                // A table id stands for its table up to the file's end.
                self.table_maps.clear();
                self.fault = events.fault;
                Ok(())
            }
        }
    }

    /// Whether the log goes on in the file behind this one.
    pub fn is_passed(&self) -> bool
        ensures { result ≡ is_passed self.now }
    {
        self.fault.is_none() && self.place == self.events.len()
    }

    pub fn fault(&self) -> Option<LogFault>
        ensures { result ≡ option_map (log_fault self.now.file) self.now.fault }
    {
        let fault = self.fault?;
        Some(LogFault {
            file: self.file.number,
            at: fault.at,
            cause: BadCause::from(fault.cause),
        })
    }

    pub fn next_event(&mut self, alloc: Global) -> Result<Option<Logged<'a>>, AllocError>
        ensures gives { (heads : Heads) → AreHeads heads → IfOk result (λ next. option_map seen next ≡ next_of heads self.old) }
        ensures moves { IfOk result (λ _. self.new ≡ moved self.old) }
    {
        if self.place == self.events.len() {
            return Ok(None);
        }
        let event = self.events[self.place];
        let said = said_of(alloc, &mut self.table_maps, self.file.bytes, event)?;
        self.place += 1;
        Ok(Some(Logged {
            file: self.file,
            event,
            said,
        }))
    }
}
