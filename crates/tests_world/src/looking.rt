//! A world of tagged entities, merges that add one each, and what an entry finds.
ghost use Rattle.std.specs.Prelude.{◌≤◌};

use crate::handles::at;
use crate::layout::agrees;
use eco_ids::{Entity, Id, Refusal};
use eco_shared::{Merger, Naming};
use eco_stages::{Command, Stage};
use eco_world::{Query, World};
use std::alloc::Global;
use std::sync::Wait;

/// The first index that is free when the merges begin: nine built-ins and the tag are there.
pub const BEGIN: u32 = 10;

const TAG: Entity = Entity {
    index: 9,
    generation: 0,
};

/// A world in which the tag lives.
pub fn opening(alloc: Global, limit: u32) -> Result<World, Refusal>
    requires at_least { 9 ≤ limit }
    requires at_most { limit ≤ 1048576 }
{
    let mut world = World::new(alloc, limit)?;
    let _tag = world.create(Some("T"))?;
    Ok(world)
}

fn recorded(stage: &mut Stage, command: Command) -> Result<(), Refusal> {
    match stage.record(command) {
        Ok(()) => Ok(()),
        Err(_) => Err(Refusal::OutOfMemory),
    }
}

// Records that an entity lives, and that it has the tag.
fn record_both(stage: &mut Stage, entity: Entity) -> Result<(), Refusal> {
    recorded(stage, Command::Create(entity))?;
    recorded(stage, Command::Add(entity, Id::One(TAG)))
}

/// Merges one entity with the tag, of this index.
pub fn merge_one<J: Naming, R: Wait + Drop>(
    merger: &mut Merger<J, R>,
    alloc: Global,
    index: u32,
) -> Result<(), Refusal> {
    let mut stage = Stage::new(alloc);
    record_both(&mut stage, at(index))?;
    merger.merge(1, &[stage])?;
    Ok(())
}

/// Merges one such entity for each index of a range, and tells whether all were merged.
pub fn merge_each<J: Naming, R: Wait + Drop>(
    merger: &mut Merger<J, R>,
    alloc: Global,
    from: u32,
    to: u32,
) -> bool {
    let mut are_merged = true;
    for index in from..to {
        are_merged &= merge_one(merger, alloc, index).is_ok();
    }
    are_merged
}

// How many live.
fn count_living(world: &World) -> Option<usize> {
    match world.living() {
        Ok(living) => Some(living.len()),
        Err(_) => None,
    }
}

// How many answer the query.
fn count_rows(world: &World, query: &Query) -> Option<usize> {
    match world.query(query) {
        Ok(rows) => Some(rows.len()),
        Err(_) => None,
    }
}

// How many have the tag.
fn count_tagged(world: &World) -> Option<usize> {
    match world.read_query("T") {
        Ok(query) => count_rows(world, &query),
        Err(_) => None,
    }
}

/// How many have the tag, where the world is whole: those are all but the first ten, and the tables list each living entity once.
pub fn tagged(world: &World) -> Option<usize> {
    let found = count_tagged(world)?;
    let count = count_living(world)?;
    let is_whole = agrees(world) && count == found.saturating_add(BEGIN as usize);
    is_whole.then_some(found)
}
