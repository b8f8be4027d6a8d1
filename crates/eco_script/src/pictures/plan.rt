//! Where the named entities of a world and their pairs are drawn.

use crate::svg::width_of;
use eco_ids::entity::BUILTIN_COUNT;
use eco_ids::{Entity, Id};
use eco_world::World;
use std::alloc::{AllocError, Global};

/// How high the line of an entity is, in pixels.
pub(crate) const HIGH: u64 = 26;

/// How high the line of a pair is, in pixels.
pub(crate) const LOW: u64 = 18;

/// Where entities and pairs are drawn: who has a pair or is the target of one, ascending, the middle of the line of each, in
/// pixels, the targets alone, ascending, and where their lanes begin.
pub(crate) struct Plan {
    pub nodes: Vec<Entity>,
    pub middles: Vec<u64>,
    pub targets: Vec<Entity>,
    pub lanes: u64,
}

// By hand, as a pen's.
impl Drop for Plan {
    fn drop(self) {
        let Plan {
            nodes: _,
            middles: _,
            targets: _,
            lanes: _,
        } = self;
    }
}

/// The name of an entity, which is drawn only where it has one.
pub(crate) fn shown(world: &World, entity: Entity) -> &str {
    world.name_of(entity).unwrap_or("")
}

/// The ids of an entity of which the pairs are drawn: those of a named one that is not built in.
pub(crate) fn drawn_ids(world: &World, entity: Entity) -> &[Id] {
    if entity.is_among_first(world.edition().builtin_count()) || world.name_of(entity).is_none() {
        &[]
    } else {
        world.ids_of(entity)
    }
}

/// The relationship and the target of a pair of named entities.
pub(crate) fn named_pair(world: &World, id: Id) -> Option<(Entity, Entity)> {
    match id {
        Id::Two(relationship, target)
            if world.name_of(relationship).is_some() && world.name_of(target).is_some() => {
            Some((relationship, target))
        }
        _ => None,
    }
}

/// The place of an entity in an ascending list, 0 where it is not there.
pub(crate) fn place_of(list: &[Entity], entity: Entity) -> usize {
    list.binary_search(&entity).unwrap_or(0)
}

// Puts the entities of a list in order, ascending and each once.
fn sort_once(list: &mut Vec<Entity>) {
    list.sort_unstable();
    list.dedup();
}

impl Plan {
    // Notes who is at the ends of an entity's pairs.
    fn note_pairs(&mut self, world: &World, entity: Entity) -> Result<(), AllocError> {
        for id in drawn_ids(world, entity) {
            if let Some((_, target)) = named_pair(world, *id) {
                self.nodes.push(entity)?;
                self.nodes.push(target)?;
                self.targets.push(target)?;
            }
        }
        Ok(())
    }

    // Makes room for a text of an entity that begins so far from the left, in pixels.
    fn make_room(&mut self, left: u64, world: &World, entity: Entity) {
        let end = width_of(shown(world, entity)).saturating_add(left);
        self.lanes = self.lanes.max(end);
    }

    // How high the line of an id is, 0 where it is no pair that is drawn. Makes room for its text.
    fn measure_pair(&mut self, world: &World, id: Id) -> u64 {
        match named_pair(world, id) {
            Some((relationship, _)) => {
                self.make_room(60, world, relationship);
                LOW
            }
            None => 0,
        }
    }

    // How high the lines of an entity and its pairs are. Makes room for their texts.
    fn measure(&mut self, world: &World, entity: Entity) -> u64 {
        self.make_room(50, world, entity);
        let mut height = HIGH;
        for id in drawn_ids(world, entity) {
            height = height.saturating_add(self.measure_pair(world, *id));
        }
        height
    }

    // Finds the middle of the line of the entity at a place, which is so far from the top; how far the next one is.
    fn place_node(&mut self, world: &World, place: usize, top: u64) -> Result<u64, AllocError> {
        self.middles.push(top.saturating_add(HIGH / 2))?;
        match self.nodes.get(place).copied() {
            Some(entity) => Ok(top.saturating_add(self.measure(world, entity))),
            None => Ok(top),
        }
    }

    // Finds the middles of the lines of the entities, the first of which are so far from the top.
    fn place_nodes(&mut self, world: &World, top: u64) -> Result<(), AllocError> {
        let mut top = top;
        for place in 0..self.nodes.len() {
            top = self.place_node(world, place, top)?;
        }
        Ok(())
    }

    // Plans all.
    fn fill(&mut self, world: &World, top: u64) -> Result<(), AllocError> {
        let living = world.living()?;
        for entity in living.as_slice() {
            self.note_pairs(world, *entity)?;
        }
        sort_once(&mut self.nodes);
        sort_once(&mut self.targets);
        self.place_nodes(world, top)
    }

    /// The plan of a world, which begins so many pixels from the top.
    pub fn of(alloc: Global, world: &World, top: u64) -> Result<Plan, AllocError> {
        let mut plan = Plan {
            nodes: Vec::new(alloc),
            middles: Vec::new(alloc),
            targets: Vec::new(alloc),
            lanes: 0,
        };
        plan.fill(world, top)?;
        Ok(plan)
    }

    /// The middle of the line of an entity.
    pub fn middle_of(&self, entity: Entity) -> u64 {
        let place = place_of(self.nodes.as_slice(), entity);
        self.middles.get(place).copied().unwrap_or(0)
    }

    /// The number of the lane to a target, and where it is.
    pub fn lane_to(&self, target: Entity) -> (usize, u64) {
        let lane = place_of(self.targets.as_slice(), target);
        (
            lane,
            (lane as u64).saturating_mul(12).saturating_add(self.lanes),
        )
    }
}
