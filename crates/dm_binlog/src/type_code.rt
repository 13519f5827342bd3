//! The type codes of columns that have metadata in a table map.

pub const FLOAT: u8 = 4;

pub const DOUBLE: u8 = 5;

pub const VARCHAR: u8 = 15;

pub const BIT: u8 = 16;

pub const TIMESTAMP2: u8 = 17;

pub const DATETIME2: u8 = 18;

pub const TIME2: u8 = 19;

pub const VECTOR: u8 = 242;

pub const JSON: u8 = 245;

pub const NEWDECIMAL: u8 = 246;

pub const ENUM: u8 = 247;

pub const SET: u8 = 248;

pub const BLOB: u8 = 252;

pub const VAR_STRING: u8 = 253;

pub const STRING: u8 = 254;

pub const GEOMETRY: u8 = 255;
