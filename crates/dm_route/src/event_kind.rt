ghost use Rattle.std.specs.Prelude.{◌≡◌, ◌<◌};
ghost use Rattle.dm_route.specs.Rules.{place_of, has_kind};

/// What an event does, as filters tell events apart.
#[derive(Clone, Copy, Debug, PartialEq, Eq)]
pub enum EventKind {
    Insert,
    Update,
    Delete,
    CreateTable,
    AlterTable,
    CreateIndex,
    DropIndex,
    DropTable,
    Truncate,
    Rename,
}

/// The kind's bit in a set of kinds, from the lowest.
fn place_of(kind: EventKind) -> u16
    ensures place { result ≡ place_of kind }
    ensures small { result < 10 }
{
    match kind {
        EventKind::Insert => 0,
        EventKind::Update => 1,
        EventKind::Delete => 2,
        EventKind::CreateTable => 3,
        EventKind::AlterTable => 4,
        EventKind::CreateIndex => 5,
        EventKind::DropIndex => 6,
        EventKind::DropTable => 7,
        EventKind::Truncate => 8,
        EventKind::Rename => 9,
    }
}

/// Whether a set of kinds has this one.
pub fn has_kind(kinds: u16, kind: EventKind) -> bool
    ensures { result ≡ has_kind kinds kind }
{
    (kinds >> place_of(kind)) % 2 == 1
}
