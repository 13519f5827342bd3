use dm_list::Sequence;
use dm_value::Names;

/// A text's columns in the order of its literals, from the row at `first` on.
#[derive(Debug, Drop)]
pub struct InsertOrder {
    pub first: u32,
    pub order: Names,
}

/// The rows of a dump: the place of each one's bracket, and for the first INSERT and each whose order of columns isn't
/// that of the INSERT before, the place of its first row and that order.
#[derive(Debug, Drop)]
pub struct Inserts {
    pub places: Sequence<u32>,
    pub orders: Sequence<InsertOrder>,
}
