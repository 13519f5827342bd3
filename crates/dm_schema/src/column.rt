use dm_list::Copied;
use dm_value::{Name, Names, Value};
use std::alloc::{AllocError, Global};

/// What values a column can have, as MySQL's manual names the types. Integers are given by their bytes (1, 2, 3,
/// 4 or 8), texts and blobs by the bytes of their length prefix (1 to 4), decimals by precision (1 to 38) and
/// scale (at most the precision), moments by the digits of their fraction (at most 6), and the other kinds by
/// their greatest length, in characters for CHAR and VARCHAR and in bytes for BINARY and VARBINARY.
#[derive(Clone, Copy, Debug, PartialEq, Eq, PartialOrd, Ord)]
pub enum Kind {
    Signed(u8),
    Unsigned(u8),
    Decimal(u8, u8),
    Char(u16),
    Varchar(u16),
    Text(u8),
    Binary(u16),
    Varbinary(u16),
    Blob(u8),
    Date,
    Year,
    Datetime(u8),
    Timestamp(u8),
}

/// What a column has where a row doesn't say it. `DEFAULT NULL` is `Nothing`, and `Now` is CURRENT_TIMESTAMP.
#[derive(Debug, Drop, PartialEq, Eq, PartialOrd, Ord)]
pub enum DefaultRule {
    Nothing,
    Const(Value),
    Now,
}

/// A column of a table. Its name has no ASCII capital letter.
#[derive(Debug, Drop, PartialEq, Eq, PartialOrd, Ord)]
pub struct Column {
    pub name: Name,
    pub kind: Kind,
    pub nullable: bool,
    pub default_rule: DefaultRule,
}

/// A unique key of a table: one column or more, in order.
#[derive(Debug, Drop, PartialEq, Eq, PartialOrd, Ord)]
pub struct UniqueKey {
    pub name: Name,
    pub columns: Names,
}

impl Copied for Kind {
    fn copy(&self, _alloc: Global) -> Result<Kind, AllocError> {
        Ok(*self)
    }
}

impl Copied for DefaultRule {
    fn copy(&self, alloc: Global) -> Result<DefaultRule, AllocError> {
        Ok(match self {
            DefaultRule::Nothing => DefaultRule::Nothing,
            DefaultRule::Const(value) => DefaultRule::Const(value.copy(alloc)?),
            DefaultRule::Now => DefaultRule::Now,
        })
    }
}

impl Copied for Column {
    fn copy(&self, alloc: Global) -> Result<Column, AllocError> {
        Ok(Column {
            name: self.name.copy(alloc)?,
            kind: self.kind,
            nullable: self.nullable,
            default_rule: self.default_rule.copy(alloc)?,
        })
    }
}

impl Copied for UniqueKey {
    fn copy(&self, alloc: Global) -> Result<UniqueKey, AllocError> {
        Ok(UniqueKey {
            name: self.name.copy(alloc)?,
            columns: self.columns.copy(alloc)?,
        })
    }
}
