ghost use Rattle.std.specs.Prelude.{◌≡◌, ◌≤◌, ◌<◌, ◌^◌, ◌+◌, drop, length, nat_eq, take, IfOk, IsTrue};
ghost use Rattle.std.specs.Cmp.Lexicographic.{pointwise};
ghost use Rattle.dm_binlog.specs.Framing.{checked, framed, event_at, events_of, is_open_magic, magic, no_events};
ghost use Rattle.dm_binlog.specs.Order.{AreInOrder};

use crate::event::{BinlogFault, Event, Events, Fault, SourceCause};
use crate::format::format_fault;
use crate::front::{Front, HEADER_LENGTH, front_of};
use crate::start::started;
use dm_list::Sequence;
use std::alloc::Global;

const MAGIC: [u8; 4] = [0xfe, b'b', b'i', b'n'];

fn no_events(alloc: Global, fault: Option<Fault>) -> Events
    ensures { result ≡ no_events fault }
{
    Events {
        list: Sequence::new(Vec::new(alloc)),
        fault,
    }
}

/// Whether a file ends before its first four bytes do.
fn is_open_magic(file: &[u8]) -> bool
    ensures { result ≡ is_open_magic file.now }
{
    file.len() < MAGIC.len() && MAGIC.starts_with(file)
}

fn has_magic(file: &[u8]) -> bool
    ensures value { result ≡ pointwise nat_eq (take 4 file.now) magic }
    ensures bound { IsTrue result → 4 ≤ length file.now }
{
    file.starts_with(&MAGIC)
}

/// An event whose end is within a file.
fn event_at(kind: u8, size: u32, at: u32) -> Event
    requires whole { 19 ≤ size }
    requires within { at + size < 2 ^ 32 }
    ensures { result ≡ event_at kind size at }
{
    Event {
        kind,
        at,
        body: at + HEADER_LENGTH as u32,
        end: at + size,
    }
}

fn events_up_to(list: Vec<Event>, fault: Option<Fault>) -> Events
    ensures { result ≡ record { list = list.items; fault = fault } }
{
    Events {
        list: Sequence::new(list),
        fault,
    }
}

/// The events behind the first four bytes, up to the first fault.
fn framed(alloc: Global, file: &[u8], last: bool) -> Result<Events, BinlogFault>
    requires begun { 4 ≤ length file.now }
    requires short { length file.now < 2 ^ 32 }
    ensures value { IfOk result (λ events. events ≡ framed last 4 0 (drop 4 file.now)) }
    ensures in_order { IfOk result (λ events. AreInOrder 4 events.list (length file.now)) }
{
    let mut list = Vec::new(alloc);
    let mut at = MAGIC.len();
    while at < file.len() {
        match front_of(last, &file[at..]) {
            Front::Whole { kind, size } => {
                list.push(event_at(kind, size, at as u32))?;
                at += size as usize;
            }
            Front::Tail => return Ok(events_up_to(list, None)),
            Front::Damage => {
                let (at, cause) = (at as u32, SourceCause::Size);
                return Ok(events_up_to(list, Some(Fault { at, cause })));
            }
        }
    }
    Ok(events_up_to(list, None))
}

/// The events, unless the first of them isn't the format that is read.
fn checked(alloc: Global, file: &[u8], events: Events) -> Events
    requires { AreInOrder 4 events.list (length file.now) }
    ensures { result ≡ checked file.now events }
{
    let Some(first) = events.list.as_slice().first() else {
        return events;
    };
    let at = first.at;
    match format_fault(file, *first) {
        None => events,
        Some(cause) => no_events(alloc, Some(Fault { at, cause })),
    }
}

/// The first event of a file and those from `start` on, up to the first fault. `last`: whether the file may end in an
/// event that isn't whole.
pub fn read_events(
    alloc: Global,
    file: &[u8],
    start: u32,
    last: bool,
) -> Result<Events, BinlogFault>
    requires { length file.now < 2 ^ 32 }
    ensures value { IfOk result (λ events. events ≡ events_of file.now start last) }
    ensures in_order { IfOk result (λ events. AreInOrder 0 events.list (length file.now)) }
{
    if last && is_open_magic(file) {
        return Ok(no_events(alloc, None));
    }
    if !has_magic(file) {
        let fault = Fault {
            at: 0,
            cause: SourceCause::Magic,
        };
        return Ok(no_events(alloc, Some(fault)));
    }
    let events = framed(alloc, file, last)?;
    Ok(started(start, checked(alloc, file, events)))
}
