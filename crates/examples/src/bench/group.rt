//! Entities and ids that take turns.
use eco_ids::Entity;

/// Entities that were made one after the other while no index was free, so that their indices follow each other. They take
/// turns: after the last one comes the first.
#[derive(Clone, Copy)]
pub struct Group {
    first: u32,
    count: u32,
    // How many turns each has, one after the other, and how many of these are left out at the beginning.
    turns: u32,
    skipped: u32,
}

impl Group {
    /// So many entities from this index on. Each has one turn, and the first entity the first.
    pub fn new(first: u32, count: u32) -> Group {
        Group {
            first,
            count,
            turns: 1,
            skipped: 0,
        }
    }

    /// One entity, which has each turn.
    pub fn alone(entity: Entity) -> Group {
        Group::new(entity.index, 1)
    }

    /// The last entity alone.
    pub fn last(self) -> Group {
        Group::new(self.first.wrapping_add(self.count.saturating_sub(1)), 1)
    }

    /// The same entities, of which each has so many turns.
    pub fn with_turns(self, turns: u32) -> Group {
        Group {
            first: self.first,
            count: self.count,
            turns,
            skipped: self.skipped,
        }
    }

    /// The same entities without the first turn: where each has one, the second entity comes first.
    pub fn from_second(self) -> Group {
        Group {
            first: self.first,
            count: self.count,
            turns: self.turns,
            skipped: 1,
        }
    }

    /// Whether one entity has each turn.
    pub fn is_alone(self) -> bool {
        self.count <= 1
    }

    /// Whose turn it is.
    pub fn at(self, turn: u32) -> Entity {
        let round = turn.wrapping_add(self.skipped) / self.turns.max(1);
        let place = round % self.count.max(1);
        Entity {
            index: self.first.wrapping_add(place),
            generation: 0,
        }
    }
}

/// Ids of entities that take turns.
#[derive(Clone, Copy)]
pub enum Ids {
    /// Tags or components.
    Ones(Group),
    /// Pairs, of relationships and targets.
    Twos(Group, Group),
}
