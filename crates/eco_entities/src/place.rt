//! Where a living entity is kept.

/// A row of a table, both counted from 0. A table is named by its slot in the list of tables.
#[derive(Clone, Copy, Debug, PartialEq, Eq)]
pub struct Place {
    pub table: usize,
    pub row: usize,
}
