//! Worlds as texts.
use crate::layout::agrees;
use eco_ids::{Entity, Value};
use eco_world::World;
use std::alloc::{AllocError, Global};

// What an entity has, behind a text.
fn describe(text: &mut String, world: &World, entity: Entity) -> Result<(), AllocError> {
    for id in world.ids_of(entity) {
        let value = world.get(entity, *id).unwrap_or(Value::ZERO);
        let fields = value.fields(4);
        write!(text, " {id}={fields}")?;
    }
    Ok(())
}

// A line of an entity: a fresh one, from the index `known` on, has no handle in it.
fn push_line(
    text: &mut String,
    world: &World,
    entity: Entity,
    known: u32,
) -> Result<(), AllocError> {
    if entity.index < known {
        let name = world.name_of(entity).unwrap_or("-");
        let arity = world.arity_of(entity).unwrap_or(0);
        write!(text, "{entity} {name} {arity}")?;
    }
    describe(text, world, entity)
}

// The same as a text of its own.
fn line(alloc: Global, world: &World, entity: Entity, known: u32) -> Result<String, AllocError> {
    let mut text = String::new(alloc);
    push_line(&mut text, world, entity, known)?;
    Ok(text)
}

// Puts the lines of these behind others.
fn push_lines(
    lines: &mut Vec<String>,
    alloc: Global,
    world: &World,
    entities: &[Entity],
    known: u32,
) -> Result<(), AllocError> {
    for entity in entities {
        lines.push(line(alloc, world, *entity, known)?)?;
    }
    Ok(())
}

/// The lines of all who live, in order.
pub fn lines(alloc: Global, world: &World, known: u32) -> Result<Vec<String>, AllocError> {
    let living = world.living()?;
    let mut lines = Vec::new(alloc);
    push_lines(&mut lines, alloc, world, &living, known)?;
    lines.sort_unstable();
    Ok(lines)
}

/// Whether the world has these lines.
pub fn has_lines(alloc: Global, world: &World, known: u32, expected: &[String]) -> bool {
    match lines(alloc, world, known) {
        Ok(lines) => lines.as_slice() == expected,
        Err(_) => false,
    }
}

// Whether another world has the lines of this one.
fn share_lines(alloc: Global, world: &World, other: &World, known: u32) -> bool {
    match lines(alloc, world, known) {
        Ok(lines) => has_lines(alloc, other, known, &lines),
        Err(_) => false,
    }
}

/// Whether both worlds are the same, but for which index from `known` on is whose.
pub fn are_same(alloc: Global, world: &World, other: &World, known: u32) -> bool {
    world.high() == other.high() && agrees(world) && share_lines(alloc, world, other, known)
}
