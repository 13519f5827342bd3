//! The classes of terminals that the grammar names. A class below 128 has the one terminal of its number.

use dm_grammar::Class;

/// A word or a name in backquotes.
pub const NAME: Class = 128;

/// Any token but `;`.
pub const ANY: Class = 129;
