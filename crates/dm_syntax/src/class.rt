//! The classes of terminals that the grammar names. A class below 128 has the one terminal of its number.

use dm_grammar::Class;

/// A word or a name in backquotes.
pub const NAME: Class = 128;

/// Any word.
pub const WORD: Class = 129;

/// A name but the words that begin a definition or a change of the table.
pub const COLUMN_NAME: Class = 130;

/// The same without USING.
pub const KEY_NAME: Class = 131;

/// A name but IF.
pub const TABLE_NAME: Class = 132;

/// A name but TABLE.
pub const TRUNCATED: Class = 133;

/// A name but what may stand behind RENAME.
pub const RENAMED: Class = 134;

pub const INTEGER: Class = 135;

/// CHAR and BINARY.
pub const SHORT_STRING: Class = 136;

/// VARCHAR and VARBINARY.
pub const LONG_STRING: Class = 137;

/// The TEXT and BLOB types.
pub const LOB: Class = 138;

/// DATETIME and TIMESTAMP.
pub const TIME: Class = 139;

/// A word that is no type.
pub const OTHER_TYPE: Class = 140;

/// A word that is none of the character sets that are read.
pub const OTHER_SET: Class = 141;

pub const NUMBER: Class = 142;

/// A literal of one token.
pub const PLAIN_LITERAL: Class = 143;

pub const KEY_OR_INDEX: Class = 144;

/// A word that begins a key that is passed over.
pub const PLAIN_KEY: Class = 145;

/// LIKE and SELECT, which make a table of another.
pub const ANOTHER_TABLE: Class = 146;

/// A word behind which a table is made of another, or is split into partitions.
pub const QUERY: Class = 147;

/// What may stand in a table's options, but character sets.
pub const TABLE_OPTION: Class = 148;

/// An option of the table that may stand among changes.
pub const OPTION_WORD: Class = 149;

pub const OPTION_VALUE: Class = 150;

/// A word that begins no change.
pub const OTHER_CHANGE: Class = 151;

/// The first word of a statement on rows.
pub const ROW: Class = 152;

/// Any token.
pub const ANY: Class = 153;

/// Any token that doesn't continue a name.
pub const BEHIND_NAME: Class = 154;

/// The same, but for NOT: behind IF it begins NOT EXISTS.
pub const BEHIND_CREATED: Class = 155;

/// Any token that doesn't continue a list of names.
pub const BEHIND_NAMES: Class = 156;

/// The same, but for EXISTS: behind IF it makes that no name.
pub const BEHIND_DROPPED: Class = 157;

/// Any token that begins none of the statements that are read.
pub const OTHER_STATEMENT: Class = 158;

/// Any token behind CREATE but TABLE and the words of an index.
pub const NOT_CREATED: Class = 159;

/// Any token behind DROP but TABLE and INDEX.
pub const NOT_DROPPED: Class = 160;

/// Any token but TABLE.
pub const NOT_TABLE: Class = 161;

/// Any token but INDEX.
pub const NOT_INDEX: Class = 162;
