ghost use Rattle.std.specs.Prelude.{◌≡◌, ◌≤◌, ◌^◌};
ghost use Rattle.dm_route.specs.Rules.{place_of};
ghost use Rattle.dm_task.specs.Texts.{kind_of, bit_among, set_of};

use crate::texts::same_text;
use dm_route::EventKind;

/// The kind of events that a word stands for.
pub(crate) fn kind_of(text: &[u8]) -> Option<EventKind>
    ensures { result ≡ kind_of text.now }
{
    if same_text(text, b"insert") {
        Some(EventKind::Insert)
    } else if same_text(text, b"update") {
        Some(EventKind::Update)
    } else if same_text(text, b"delete") {
        Some(EventKind::Delete)
    } else if same_text(text, b"create table") {
        Some(EventKind::CreateTable)
    } else if same_text(text, b"alter table") {
        Some(EventKind::AlterTable)
    } else if same_text(text, b"create index") {
        Some(EventKind::CreateIndex)
    } else if same_text(text, b"drop index") {
        Some(EventKind::DropIndex)
    } else if same_text(text, b"drop table") {
        Some(EventKind::DropTable)
    } else if same_text(text, b"truncate table") {
        Some(EventKind::Truncate)
    } else if same_text(text, b"rename table") {
        Some(EventKind::Rename)
    } else {
        None
    }
}

/// The set of these kinds. The lowest bit stands for the first kind.
pub(crate) fn set_of(kinds: &[EventKind]) -> u16
    ensures { result ≡ set_of kinds.now }
{
    bit_among(kinds, EventKind::Insert)
        + bit_among(kinds, EventKind::Update)
        + bit_among(kinds, EventKind::Delete)
        + bit_among(kinds, EventKind::CreateTable)
        + bit_among(kinds, EventKind::AlterTable)
        + bit_among(kinds, EventKind::CreateIndex)
        + bit_among(kinds, EventKind::DropIndex)
        + bit_among(kinds, EventKind::DropTable)
        + bit_among(kinds, EventKind::Truncate)
        + bit_among(kinds, EventKind::Rename)
}

/// The kind's bit, if the kind is among these.
fn bit_among(kinds: &[EventKind], kind: EventKind) -> u16
    ensures bit { result ≡ bit_among kinds.now kind }
    ensures small { result ≤ 512 }
{
    if kinds.contains(&kind) {
        bit_of(kind)
    } else {
        0
    }
}

fn bit_of(kind: EventKind) -> u16
    ensures bit { result ≡ 2 ^ place_of kind }
    ensures small { result ≤ 512 }
{
    match kind {
        EventKind::Insert => 0x1,
        EventKind::Update => 0x2,
        EventKind::Delete => 0x4,
        EventKind::CreateTable => 0x8,
        EventKind::AlterTable => 0x10,
        EventKind::CreateIndex => 0x20,
        EventKind::DropIndex => 0x40,
        EventKind::DropTable => 0x80,
        EventKind::Truncate => 0x100,
        EventKind::Rename => 0x200,
    }
}
