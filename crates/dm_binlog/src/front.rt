ghost use Rattle.std.specs.Prelude.{◌≡◌, ◌≤◌, length};
ghost use Rattle.dm_binlog.specs.Framing.{event_size, front_of, unfinished};
ghost use Rattle.dm_binlog.specs.Fronts.{seen};

use byteorder::{ByteOrder, LittleEndian};

/// How many bytes an event's header has.
pub const HEADER_LENGTH: usize = 19;

/// What the bytes from a place on begin with.
#[derive(Clone, Copy, Debug, PartialEq, Eq)]
pub enum Front {
    /// An event that is there to its end.
    Whole { kind: u8, size: u32 },
    /// The open end of the last file.
    Tail,
    Damage,
}

/// An event that isn't there to its end.
fn unfinished(last: bool) -> Front
    ensures { seen result ≡ unfinished last }
{
    if last { Front::Tail } else { Front::Damage }
}

/// The size in an event's header.
fn event_size(bytes: &[u8]) -> u32
    requires { 19 ≤ length bytes.now }
    ensures { result ≡ event_size bytes.now }
{
    LittleEndian::read_u32(&bytes[9..13])
}

pub fn front_of(last: bool, bytes: &[u8]) -> Front
    ensures { seen result ≡ front_of last bytes.now }
{
    if bytes.len() < HEADER_LENGTH {
        return unfinished(last);
    }
    let size = event_size(bytes);
    if (size as usize) < HEADER_LENGTH {
        return Front::Damage;
    }
    if bytes.len() < size as usize {
        return unfinished(last);
    }
    Front::Whole {
        kind: bytes[4],
        size,
    }
}
