ghost use Rattle.std.specs.Prelude.{◌≡◌, ◌==◌, filter};
ghost use Rattle.std.specs.List.{list_any};
ghost use Rattle.dm_binlog.specs.Framing.{from_start, is_boundary, is_before, started};

use crate::event::{Event, Events, Fault, SourceCause};
use dm_list::Sequence;

/// Whether an event ends there.
fn is_end(place: u32, events: &[Event]) -> bool
    ensures { result ≡ list_any (λ e. e.end == place) events.now }
{
    events.iter().any(|event| event.end == place)
}

fn is_boundary(start: u32, events: &[Event]) -> bool
    ensures { result ≡ is_boundary start events.now }
{
    start == 4 || is_end(start, events)
}

fn is_before(fault: Option<Fault>, start: u32) -> bool
    ensures { result ≡ is_before fault start }
{
    match fault {
        None => false,
        Some(fault) => fault.at < start,
    }
}

/// The first event and those from the start on.
fn from_start(start: u32, mut events: Vec<Event>) -> Vec<Event>
    ensures { result.items ≡ from_start start events.items }
{
    events.retain(|event| event.at == 4 || start <= event.at);
    events
}

fn first_alone(mut events: Vec<Event>) -> Vec<Event>
    ensures { result.items ≡ filter (λ e. e.at == 4) events.items }
{
    events.retain(|event| event.at == 4);
    events
}

/// The events that are asked for, and the fault of the lower place.
pub fn started(start: u32, events: Events) -> Events
    ensures { result ≡ started start events }
{
    let Events { list, fault } = events;
    let list = list.into_vec();
    if is_boundary(start, &list) || is_before(fault, start) {
        let list = Sequence::new(from_start(start, list));
        return Events { list, fault };
    }
    let list = Sequence::new(first_alone(list));
    let at = start;
    let cause = SourceCause::Start;
    Events {
        list,
        fault: Some(Fault { at, cause }),
    }
}
