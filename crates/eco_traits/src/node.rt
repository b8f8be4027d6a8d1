//! What a search for the doomed finds.
use eco_ids::{Entity, TableSlot};

/// An entity or a table that a search for the doomed came to. Whoever dies with a table is no node: its place tells.
#[derive(Clone, Copy, Debug, PartialEq, Eq, Hash)]
pub enum Node {
    /// The delete begins with the death of this entity.
    Root(Entity),
    /// All who stand in the table of this slot die.
    Falling(TableSlot),
    /// The type of this slot's table names one who dies, and is not doomed by that.
    Named(TableSlot),
}
