//! What the grammar sees of a token: its kind. Several words of one use share a kind; kinds of words that one rule takes
//! stand together, so that a class of them is a range.

use dm_grammar::Kind;

/// A bracket that opens.
pub const OPENING: Kind = 1;

/// A bracket that closes.
pub const CLOSING: Kind = 2;

pub const COMMA: Kind = 3;

pub const POINT: Kind = 4;

pub const EQUALS: Kind = 5;

pub const MINUS: Kind = 6;

pub const OTHER_MARK: Kind = 7;

/// A name in backquotes.
pub const QUOTED: Kind = 8;

pub const STRING: Kind = 9;

pub const HEXADECIMAL: Kind = 10;

/// A number without a point.
pub const WHOLE: Kind = 11;

/// A number with a point.
pub const FRACTIONAL: Kind = 12;

/// The character set of the string behind it.
pub const INTRODUCER: Kind = 13;

/// A word that the grammar has no use for but as a name.
pub const OTHER_WORD: Kind = 14;

pub const CONSTRAINT: Kind = 15;

pub const PRIMARY: Kind = 16;

pub const UNIQUE: Kind = 17;

pub const KEY: Kind = 18;

pub const INDEX: Kind = 19;

/// FULLTEXT, SPATIAL.
pub const FULLTEXT: Kind = 20;

pub const CHECK: Kind = 21;

pub const FOREIGN: Kind = 22;

pub const COLUMN: Kind = 23;

pub const PARTITION: Kind = 24;

pub const LIKE: Kind = 25;

pub const SELECT: Kind = 26;

pub const TINYINT: Kind = 27;

pub const SMALLINT: Kind = 28;

pub const MEDIUMINT: Kind = 29;

/// INT, INTEGER.
pub const INT: Kind = 30;

pub const BIGINT: Kind = 31;

/// BOOL, BOOLEAN.
pub const BOOL: Kind = 32;

/// DECIMAL, DEC, NUMERIC.
pub const DECIMAL: Kind = 33;

pub const CHAR: Kind = 34;

pub const BINARY: Kind = 35;

pub const VARCHAR: Kind = 36;

pub const VARBINARY: Kind = 37;

pub const TINYTEXT: Kind = 38;

pub const TEXT: Kind = 39;

pub const MEDIUMTEXT: Kind = 40;

pub const LONGTEXT: Kind = 41;

pub const TINYBLOB: Kind = 42;

pub const BLOB: Kind = 43;

pub const MEDIUMBLOB: Kind = 44;

pub const LONGBLOB: Kind = 45;

pub const DATE: Kind = 46;

pub const YEAR: Kind = 47;

pub const DATETIME: Kind = 48;

pub const TIMESTAMP: Kind = 49;

pub const CREATE: Kind = 50;

pub const TRUNCATE: Kind = 51;

pub const ALTER: Kind = 52;

pub const DROP: Kind = 53;

pub const RENAME: Kind = 54;

pub const ADD: Kind = 55;

pub const MODIFY: Kind = 56;

pub const CHANGE: Kind = 57;

pub const FORCE: Kind = 58;

/// ENGINE, ALGORITHM, LOCK.
pub const OPTION: Kind = 59;

pub const COMMENT: Kind = 60;

pub const AUTO_INCREMENT: Kind = 61;

pub const SIGNED: Kind = 62;

/// UNSIGNED, ZEROFILL.
pub const UNSIGNED: Kind = 63;

pub const NOT: Kind = 64;

pub const NULL: Kind = 65;

/// TRUE, FALSE.
pub const TRUTH: Kind = 66;

pub const DEFAULT: Kind = 67;

/// The moment of the statement.
pub const NOW: Kind = 68;

pub const ON: Kind = 69;

pub const UPDATE: Kind = 70;

pub const COLLATE: Kind = 71;

pub const CHARSET: Kind = 72;

pub const CHARACTER: Kind = 73;

pub const SET: Kind = 74;

/// A character set whose strings are read.
pub const CHARACTER_SET: Kind = 75;

/// COLUMN_FORMAT, STORAGE.
pub const STORAGE: Kind = 76;

/// VISIBLE, INVISIBLE.
pub const VISIBLE: Kind = 77;

/// GENERATED, REFERENCES.
pub const GENERATED: Kind = 78;

pub const AS: Kind = 79;

pub const USING: Kind = 80;

/// BTREE, HASH.
pub const BTREE: Kind = 81;

/// ASC, DESC.
pub const ASC: Kind = 82;

pub const FIRST: Kind = 83;

pub const AFTER: Kind = 84;

pub const TO: Kind = 85;

pub const TABLE: Kind = 86;

/// The first word of a statement on rows, beside UPDATE.
pub const ROW_WORD: Kind = 87;

pub const IF: Kind = 88;

pub const EXISTS: Kind = 89;
