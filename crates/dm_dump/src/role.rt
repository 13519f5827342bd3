//! What a token is for in a dump. 0 and 1 are the grammar engine's own.

use dm_grammar::Role;

/// What isn't kept.
pub const FILLER: Role = 2;

/// The `;` behind a statement.
pub const END: Role = 3;

/// The first word of a statement that is passed over.
pub const PASSED: Role = 4;

pub const CREATE: Role = 5;

/// TABLE behind CREATE.
pub const TABLE: Role = 6;

pub const INSERT: Role = 7;

/// Each part of the table's name.
pub const NAME: Role = 8;

/// The bracket of a list of names.
pub const NAMES_OPEN: Role = 9;

/// A name in that list.
pub const COLUMN: Role = 10;

pub const NAMES_CLOSE: Role = 11;

pub const VALUES: Role = 12;

/// The bracket of a row.
pub const ROW_OPEN: Role = 13;

pub const ROW_CLOSE: Role = 14;
