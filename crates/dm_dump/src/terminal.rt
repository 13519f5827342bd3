//! What the grammar sees of a token. 1, 2 and 3 are the grammar engine's own.

use dm_grammar::Kind;

pub const OPENING: Kind = 1;

pub const CLOSING: Kind = 2;

pub const COMMA: Kind = 3;

pub const SEMICOLON: Kind = 4;

pub const POINT: Kind = 5;

pub const MINUS: Kind = 6;

pub const OTHER_MARK: Kind = 7;

pub const STRING: Kind = 8;

pub const HEXADECIMAL: Kind = 9;

/// A number, with a point or without.
pub const NUMBER: Kind = 10;

/// A name in backquotes. The words have the kinds behind it.
pub const QUOTED: Kind = 11;

/// SET, DROP, LOCK, UNLOCK.
pub const PASSED: Kind = 12;

pub const CREATE: Kind = 13;

pub const TABLE: Kind = 14;

pub const INSERT: Kind = 15;

pub const INTO: Kind = 16;

pub const VALUES: Kind = 17;

/// NULL, TRUE, FALSE.
pub const TRUTH: Kind = 18;

/// The character set before a string.
pub const INTRODUCER: Kind = 19;

pub const OTHER_WORD: Kind = 20;
