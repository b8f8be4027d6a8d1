//! What a delete takes.
ghost use Rattle.std.specs.Prelude.{◌≡◌, ◌||◌};
ghost use Rattle.eco_traits.specs.Nodes.{is_falling, is_root};

use crate::node::Node;
use eco_ids::{Entity, TableSlot};
use indexmap::IndexSet;

/// The roots, the tables all of whose rows die, and the tables that name one who dies. Whoever dies is a root or stands in a
/// table that falls.
pub struct Doomed {
    pub nodes: IndexSet<Node>,
}

// By hand, so that dropping it is one call: a derived drop is proved anew at each early return of whoever holds it.
impl Drop for Doomed {
    fn drop(self) {
        let Doomed { nodes: _ } = self;
    }
}

impl Doomed {
    /// Whether the delete begins with the death of the entity.
    pub fn has_root(&self, entity: Entity) -> bool
        ensures { result ≡ is_root self.now.nodes.keys entity }
    {
        self.nodes.contains(&Node::Root(entity))
    }

    /// Whether an entity that stands in the table of a slot dies: as a root, or with that table.
    pub fn takes(&self, entity: Entity, slot: TableSlot) -> bool
        ensures { result ≡ (is_root self.now.nodes.keys entity || is_falling self.now.nodes.keys slot) }
    {
        self.has_root(entity) || self.falls(slot)
    }

    /// Whether all who stand in the table of a slot die.
    pub fn falls(&self, slot: TableSlot) -> bool
        ensures { result ≡ is_falling self.now.nodes.keys slot }
    {
        self.nodes.contains(&Node::Falling(slot))
    }
}
