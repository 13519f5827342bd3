/// What stands at an item's place.
#[derive(Clone, Copy, Debug, PartialEq, Eq)]
pub enum PlaceKind {
    /// A row of a dump.
    Dumped,
    /// A row of a WRITE_ROWS_EVENT.
    Write,
    /// A row of an UPDATE_ROWS_EVENT: its old image, and behind that the new one.
    Update,
    /// A row of a DELETE_ROWS_EVENT.
    Delete,
    /// A statement.
    Statement,
}

/// Where an item stands in the task's files.
#[derive(Clone, Copy, Debug, PartialEq, Eq)]
pub struct Place {
    /// The file's number among the task's files.
    pub file: u32,
    /// The first byte of a dumped row's bracket, of a row's image, or of a statement's event.
    pub at: u32,
    /// Where the event begins; 0 for a dumped row.
    pub event: u32,
    /// Where the event of a row's table map begins; 0 where there is none.
    pub map: u32,
    pub kind: PlaceKind,
}

/// An item of a history: a change of a row, or a statement that alters the table.
#[derive(Clone, Copy, Debug, PartialEq, Eq)]
pub enum Item {
    Row(Place),
    Ddl(Place),
}
