//! Where a table stands.

/// The number of the slot in which a table stands: a plain number, which counts from 0 and means nothing beyond the tables
/// that gave it. It is the table's as long as that lives.
pub type TableSlot = usize;
