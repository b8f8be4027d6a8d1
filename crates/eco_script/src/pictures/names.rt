//! How entities and patterns are called.

use crate::named::Named;
use eco_ids::{Entity, Part, Pattern};
use eco_world::World;
use std::alloc::AllocError;

/// Adds the name of an entity, or its handle where it has none.
pub(crate) fn push_entity(
    text: &mut String,
    world: &World,
    entity: Entity,
) -> Result<(), AllocError> {
    let named = Named { world, entity };
    write!(text, "{named}")
}

// Adds how a part is written.
fn push_part(text: &mut String, world: &World, part: Part) -> Result<(), AllocError> {
    match part {
        Part::Is(entity) => push_entity(text, world, entity),
        Part::Each => text.push_str("*"),
        Part::Any => text.push_str("_"),
    }
}

// Adds how a pair of parts is written.
fn push_pair(
    text: &mut String,
    world: &World,
    relationship: Part,
    target: Part,
) -> Result<(), AllocError> {
    text.push_str("(")?;
    push_part(text, world, relationship)?;
    text.push_str(", ")?;
    push_part(text, world, target)?;
    text.push_str(")")
}

/// Adds how a pattern is written, with names in place of handles.
pub(crate) fn push_pattern(
    text: &mut String,
    world: &World,
    pattern: Pattern,
) -> Result<(), AllocError> {
    match pattern {
        Pattern::One(entity) => push_entity(text, world, entity),
        Pattern::Two(relationship, target) => push_pair(text, world, relationship, target),
    }
}
