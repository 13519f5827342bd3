use dm_target::MemoryTarget;
use http_server::Log;

/// A call whose append failed. It took its effect where its record is whole.
#[derive(Drop)]
pub struct Doubt {
    /// What was kept before the call, for contracts alone: it has no bytes.
    pub before: Log<MemoryTarget, ()>,
    /// How many bytes the journal has if the record is whole.
    pub whole: usize,
}
