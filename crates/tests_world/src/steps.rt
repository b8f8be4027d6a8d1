//! Steps that look random, with all kinds of deletes: the histories of worlds.
use crate::draws::RandomDraws;
use crate::handles::at;
use eco_ids::entity::{
    ACYCLIC, CHILD_OF, DELETE, EXCLUSIVE, ON_DELETE, ON_DELETE_TARGET, PANIC, WITH,
};
use eco_ids::{Entity, Id, Value};
use eco_world::{Command, Stage, World};
use std::alloc::Global;

// One of the living who is no built-in, or one who may be dead.
fn draw_entity(draws: &mut RandomDraws, living: &[Entity]) -> Entity {
    let place = 9 + draws.below(14);
    match living.get(place as usize) {
        Some(entity) => *entity,
        None => at(place),
    }
}

// One of four relationships, as they happen to live.
fn draw_relationship(draws: &mut RandomDraws, living: &[Entity]) -> Entity {
    let place = 8 + draws.below(4);
    match living.get(place as usize) {
        Some(entity) if place > 8 => *entity,
        _ => CHILD_OF,
    }
}

// A trait, a policy, or what comes with an entity.
fn draw_trait(draws: &mut RandomDraws, living: &[Entity]) -> Id {
    match draws.below(6) {
        0 => Id::One(EXCLUSIVE),
        1 => Id::One(ACYCLIC),
        2 => Id::Two(ON_DELETE, DELETE),
        3 => Id::Two(ON_DELETE_TARGET, DELETE),
        4 => Id::Two(ON_DELETE, PANIC),
        _ => Id::Two(WITH, draw_entity(draws, living)),
    }
}

/// A tag, a pair or now and then a trait.
pub fn draw_id(draws: &mut RandomDraws, living: &[Entity]) -> Id {
    match draws.below(12) {
        0 => draw_trait(draws, living),
        1..=5 => Id::One(draw_entity(draws, living)),
        _ => Id::Two(draw_relationship(draws, living), draw_entity(draws, living)),
    }
}

// A command about the living.
fn draw_command(draws: &mut RandomDraws, living: &[Entity]) -> Command {
    let entity = draw_entity(draws, living);
    let id = draw_id(draws, living);
    match draws.below(20) {
        0..=8 => Command::Add(entity, id),
        9..=10 => Command::Set(entity, id, Value::of([i64::from(entity.index), 7])),
        11..=14 => Command::Remove(entity, id),
        15 => Command::Clear(entity),
        16 => Command::RemoveAll(id),
        17 => Command::DeleteWith(id),
        _ => Command::Delete(entity),
    }
}

// Records up to three commands about the living.
fn record_some(
    stage: &mut Stage,
    draws: &mut RandomDraws,
    living: &[Entity],
) -> Result<(), Command> {
    for _ in 0..1 + draws.below(3) {
        stage.record(draw_command(draws, living))?;
    }
    Ok(())
}

// A stage of such commands.
fn draw_stage(alloc: Global, draws: &mut RandomDraws, living: &[Entity]) -> Stage {
    let mut stage = Stage::new(alloc);
    let _last_that_found_no_memory = record_some(&mut stage, draws, living);
    stage
}

// Merges it, and tells whether that was done. Each of its commands may be refused.
fn merge(world: &mut World, stage: Stage) -> bool {
    world.merge(0, &[stage]).is_ok()
}

/// One step: somebody is made, or some are changed or die. Tells whether it was done.
pub fn take_step(
    alloc: Global,
    world: &mut World,
    draws: &mut RandomDraws,
    living: &[Entity],
) -> bool {
    match draws.below(24) {
        0..=3 => world.create(None).is_ok(),
        4 => world.component(None, 2).is_ok(),
        _ => merge(world, draw_stage(alloc, draws, living)),
    }
}
