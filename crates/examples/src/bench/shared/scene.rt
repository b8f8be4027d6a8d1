//! Worlds to share, and stages to merge into them.
use crate::bench::setting::LIMIT;
use eco_bodies::record_command;
use eco_ids::{Entity, Id, Refusal, Value};
use eco_stages::{Command, Stage};
use eco_world::World;
use std::alloc::Global;

// The component that all entities have, and the first of these.
const PLACE: Entity = Entity {
    index: 9,
    generation: 0,
};

const FIRST: u32 = 13;

// So many commands has each merge.
const COMMANDS: u32 = 100;

// Makes so many entities with a component of two fields, in two groups by a pair.
fn fill(world: &mut World, count: u32) -> Result<(), Refusal> {
    let place = world.component(Some("Place"), 2)?;
    let group = world.create(Some("Group"))?;
    let left = world.create(Some("Left"))?;
    let right = world.create(Some("Right"))?;
    for k in 0..count {
        let entity = world.create(None)?;
        let side = if k % 2 == 0 { left } else { right };
        world.set(entity, Id::One(place), Value::of([i64::from(k), 1]))?;
        world.add(entity, Id::Two(group, side))?;
    }
    Ok(())
}

/// A world of so many entities with a component of two fields, in two groups by a pair.
pub fn opening(alloc: Global, count: u32) -> Result<World, Refusal> {
    let mut world = World::new(alloc, LIMIT)?;
    fill(&mut world, count)?;
    Ok(world)
}

// Sets the component of a hundred entities of `count`, others at each turn.
fn record(stage: &mut Stage, count: u32, turn: u32) -> Result<(), Refusal> {
    for k in 0..COMMANDS {
        let entity = Entity {
            index: FIRST + (turn % 1024 * 977 + k * 131) % count.clamp(1, 1_000_000),
            generation: 0,
        };
        let value = Value::of([i64::from(turn), i64::from(k)]);
        record_command(stage, Command::Set(entity, Id::One(PLACE), value))?;
    }
    Ok(())
}

/// A stage that sets the component of a hundred entities of `count`, others at each turn.
pub fn stage_of(alloc: Global, count: u32, turn: u32) -> Result<Stage, Refusal> {
    let mut stage = Stage::new(alloc);
    record(&mut stage, count, turn)?;
    Ok(stage)
}
