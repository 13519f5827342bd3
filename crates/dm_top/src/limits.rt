/// How many bytes all files that a command reads have together at most.
pub const MOST_BYTES: u32 = 134_217_728;

/// How many bytes a journal has at most.
pub const MOST_JOURNAL: u32 = 268_435_456;

/// How many rows there are at most.
pub const MOST_ITEMS: u64 = 4_000_000;

/// How many values all rows have together at most.
pub const MOST_VALUES: u64 = 64_000_000;
