//! What a token is for in a statement. 0 and 1 are the grammar engine's own.

use dm_grammar::Role;

/// What says nothing by itself.
pub const FILLER: Role = 2;

/// The first part of a table's name.
pub const NAME_PART: Role = 3;

/// The second part of a table's name, behind its database.
pub const NAME_SECOND: Role = 4;

/// IF EXISTS or IF NOT EXISTS: the word IF before it is no name.
pub const EXISTS: Role = 5;

pub const CREATE_TABLE: Role = 6;

pub const ALTER_TABLE: Role = 7;

/// INDEX in CREATE UNIQUE INDEX.
pub const UNIQUE_INDEX: Role = 8;

/// INDEX in another CREATE INDEX.
pub const PLAIN_INDEX: Role = 9;

pub const DROP_INDEX: Role = 10;

pub const DROP_TABLE: Role = 11;

pub const TRUNCATE: Role = 12;

pub const RENAME_TABLE: Role = 13;

pub const ROW_STATEMENT: Role = 14;

/// The bracket or comma before a definition of a CREATE TABLE.
pub const DEFINITION: Role = 15;

/// The name of a column in its definition.
pub const COLUMN_NAME: Role = 16;

pub const TYPE: Role = 17;

pub const UNSIGNED: Role = 18;

/// The length of a CHAR or BINARY.
pub const CHAR_LENGTH: Role = 19;

/// The length of a VARCHAR or VARBINARY.
pub const STRING_LENGTH: Role = 20;

pub const PRECISION: Role = 21;

pub const SCALE: Role = 22;

pub const YEAR_WIDTH: Role = 23;

/// The digits of a type's fraction.
pub const FRACTION: Role = 24;

/// The digits of a moment's fraction.
pub const NOW_FRACTION: Role = 25;

pub const NOT_NULL: Role = 26;

pub const NULL_WRITTEN: Role = 27;

pub const AUTO_INCREMENT: Role = 28;

/// UNIQUE in a column's definition.
pub const UNIQUE_COLUMN: Role = 29;

/// KEY in a column's definition: behind UNIQUE it belongs to it, else the column is the primary key.
pub const KEY_COLUMN: Role = 30;

pub const DEFAULT: Role = 31;

/// CURRENT_TIMESTAMP as a default.
pub const NOW: Role = 32;

/// The minus of a literal.
pub const MINUS: Role = 33;

pub const LITERAL: Role = 34;

pub const PRIMARY_KEY: Role = 35;

pub const UNIQUE_KEY: Role = 36;

pub const PLAIN_KEY: Role = 37;

pub const CONSTRAINT_NAME: Role = 38;

pub const KEY_NAME: Role = 39;

/// The name of a column in a key.
pub const KEY_PART: Role = 40;

pub const ADD: Role = 41;

/// The bracket or comma before a column, where several are added in brackets.
pub const ADD_MORE: Role = 42;

pub const MODIFY: Role = 43;

pub const CHANGE: Role = 44;

/// The name that a changed column had.
pub const OLD_NAME: Role = 45;

pub const FIRST: Role = 46;

/// The column that another is put behind.
pub const AFTER_NAME: Role = 47;

pub const DROP: Role = 48;

pub const DROPPED_COLUMN: Role = 49;

pub const DROPPED_KEY: Role = 50;

pub const ALTER: Role = 51;

/// The column whose default is set or dropped.
pub const ALTERED: Role = 52;

pub const RENAME: Role = 53;

pub const RENAMED_KEY: Role = 54;

pub const NO_EFFECT: Role = 55;
