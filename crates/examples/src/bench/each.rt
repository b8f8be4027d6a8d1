//! Calls of a world or of a stage, one for each entity of some work at its turn, and what the yardstick does so often.
//!
//! Each loop is a function of its own, as it is in a program that has it: put into the choice of calls, it would have to share
//! the processor's registers with all others.
use crate::bench::work::Work;
use eco_bodies::record_command;
use eco_ids::{Entity, Id, Refusal, Value};
use eco_world::{Command, Query, Stage, Values, World};
use std::alloc::Global;

/// Makes so many entities.
#[inline(never)]
pub fn create_each(world: &mut World, count: u32) -> Result<(), Refusal> {
    for _ in 0..count {
        world.create(None)?;
    }
    Ok(())
}

/// Makes an entity of each of the names.
#[inline(never)]
pub fn create_named_each(world: &mut World, names: &[String]) -> Result<(), Refusal> {
    for name in names {
        world.create(Some(name.as_str()))?;
    }
    Ok(())
}

/// Adds each id to its entity. One that all calls have is handed over as it stands: to look for it in each turn would be timed
/// with the call. So with the other calls.
pub fn add_each(world: &mut World, work: &Work) -> Result<(), Refusal> {
    match work.same_id() {
        Some(id) => add_to_all(world, work.entities(), id),
        None => add_own(world, work),
    }
}

// Adds the id to each entity.
#[inline(never)]
fn add_to_all(world: &mut World, entities: &[Entity], id: Id) -> Result<(), Refusal> {
    for entity in entities {
        world.add(*entity, id)?;
    }
    Ok(())
}

// Adds to each entity the id of its turn.
#[inline(never)]
fn add_own(world: &mut World, work: &Work) -> Result<(), Refusal> {
    for (turn, entity) in work.entities().iter().enumerate() {
        if let Some(id) = work.id(turn) {
            world.add(*entity, id)?;
        }
    }
    Ok(())
}

/// Removes each id from its entity.
pub fn remove_each(world: &mut World, work: &Work) -> Result<(), Refusal> {
    match work.same_id() {
        Some(id) => remove_from_all(world, work.entities(), id),
        None => remove_own(world, work),
    }
}

// Removes the id from each entity.
#[inline(never)]
fn remove_from_all(world: &mut World, entities: &[Entity], id: Id) -> Result<(), Refusal> {
    for entity in entities {
        world.remove(*entity, id)?;
    }
    Ok(())
}

// Removes from each entity the id of its turn.
#[inline(never)]
fn remove_own(world: &mut World, work: &Work) -> Result<(), Refusal> {
    for (turn, entity) in work.entities().iter().enumerate() {
        if let Some(id) = work.id(turn) {
            world.remove(*entity, id)?;
        }
    }
    Ok(())
}

/// Adds the ids to their entities and removes them, so many times.
pub fn toggle_each(world: &mut World, work: &Work, times: u32) -> Result<(), Refusal> {
    for _ in 0..times {
        add_each(world, work)?;
        remove_each(world, work)?;
    }
    Ok(())
}

/// Sets the id of each turn to the value, at the entity of that turn.
pub fn set_each(world: &mut World, work: &Work, value: Value) -> Result<(), Refusal> {
    match work.same_id() {
        Some(id) => set_at_all(world, work.entities(), id, value),
        None => set_own(world, work, value),
    }
}

// Sets the id to the value at each entity.
#[inline(never)]
fn set_at_all(world: &mut World, entities: &[Entity], id: Id, value: Value) -> Result<(), Refusal> {
    for entity in entities {
        world.set(*entity, id, value)?;
    }
    Ok(())
}

// Sets the id of each turn to the value, at the entity of that turn.
#[inline(never)]
fn set_own(world: &mut World, work: &Work, value: Value) -> Result<(), Refusal> {
    for (turn, entity) in work.entities().iter().enumerate() {
        if let Some(id) = work.id(turn) {
            world.set(*entity, id, value)?;
        }
    }
    Ok(())
}

/// Deletes each entity.
#[inline(never)]
pub fn delete_each(world: &mut World, work: &Work) -> Result<(), Refusal> {
    for entity in work.entities() {
        world.delete(*entity)?;
    }
    Ok(())
}

// What is recorded of an entity and an id: an add where there is no value.
fn command_of(entity: Entity, id: Id, value: Option<Value>) -> Command {
    match value {
        Some(value) => Command::Set(entity, id, value),
        None => Command::Add(entity, id),
    }
}

/// The stage adds each id to its entity, or sets it to the value.
#[inline(never)]
pub fn record_each(stage: &mut Stage, work: &Work, value: Option<Value>) -> Result<(), Refusal> {
    for (turn, entity) in work.entities().iter().enumerate() {
        if let Some(id) = work.id(turn) {
            record_command(stage, command_of(*entity, id, value))?;
        }
    }
    Ok(())
}

/// A fresh entity lives, gets the tag and a value of the component, and dies.
pub fn record_life(
    stage: &mut Stage,
    entity: Entity,
    tag: Id,
    component: Id,
) -> Result<(), Refusal> {
    let value = Value::of([1, 2]);
    record_command(stage, Command::Create(entity))?;
    record_command(stage, Command::Add(entity, tag))?;
    record_command(stage, Command::Set(entity, component, value))?;
    record_command(stage, Command::Delete(entity))
}

/// The sum of the first fields of the first id's values, entity by entity.
#[inline(never)]
pub fn sum_each(world: &World, work: &Work) -> i64 {
    let Some(id) = work.id(0) else {
        return 0;
    };
    let mut sum: i64 = 0;
    for entity in work.entities() {
        if let Some(value) = world.get(*entity, id) {
            sum = sum.wrapping_add(value.0[0]);
        }
    }
    sum
}

/// The sum of the first fields. Apart: written out in a loop over columns, what finds the next one keeps its parts in memory.
#[inline(never)]
pub fn sum_first(rows: &[[i64; 2]]) -> i64 {
    let mut sum: i64 = 0;
    for row in rows {
        sum = sum.wrapping_add(row[0]);
    }
    sum
}

/// The sum of the first fields of the id's values, column by column.
#[inline(never)]
pub fn sum_columns(world: &World, id: Id) -> i64 {
    let mut sum: i64 = 0;
    for column in world.columns(id) {
        if let Values::Two(rows) = column.values {
            sum = sum.wrapping_add(sum_first(rows));
        }
    }
    sum
}

/// The same, of all tables of the query.
pub fn sum_tables(world: &World, query: &Query, id: Id) -> Result<i64, Refusal> {
    let mut sum: i64 = 0;
    for table in &world.tables_of(query)? {
        if let Some(Values::Two(rows)) = table.values(id) {
            sum = sum.wrapping_add(sum_first(rows));
        }
    }
    Ok(sum)
}

// How many results a query has, which is read first.
fn count_by_text(world: &World, text: &str) -> Result<usize, Refusal> {
    let query = world.read_query(text)?;
    Ok(world.results(&query)?.len())
}

/// How many results queries for each of the ids have together.
pub fn count_each(world: &World, alloc: Global, work: &Work) -> Result<usize, Refusal> {
    let mut found = 0usize;
    for turn in 0..work.entities().len() {
        if let Some(id) = work.id(turn) {
            let text = format!(in alloc; "{id}")?;
            found = found.saturating_add(count_by_text(world, &text)?);
        }
    }
    Ok(found)
}
