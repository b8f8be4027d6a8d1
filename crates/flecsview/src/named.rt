//! Lines with names in place of handles.

use eco_ids::Entity;
use eco_world::World;
use std::alloc::AllocError;

// The entity that digits with a dot between them are the handle of.
fn entity_of(digits: &str) -> Option<Entity> {
    let (index, generation) = digits.split_once('.')?;
    Some(Entity {
        index: index.parse::<u32>().ok()?,
        generation: generation.parse::<u16>().ok()?,
    })
}

// The name that the living entity of these digits has.
fn name_of<'a>(world: &'a World, digits: &str) -> Option<&'a str> {
    world.name_of(entity_of(digits)?)
}

// Adds what stands behind a `#`.
fn push_behind(text: &mut String, world: &World, behind: &str) -> Result<(), AllocError> {
    let rest = behind.trim_start_matches(|c: char| c.is_ascii_digit() || c == '.');
    let digits = behind.strip_suffix(rest).unwrap_or(behind);
    match name_of(world, digits) {
        Some(name) => text.push_str(name)?,
        None => write!(text, "#{digits}")?,
    }
    text.push_str(rest)
}

/// Adds a line, with names in place of the handles of the living who have one.
pub fn push_named(text: &mut String, world: &World, line: &str) -> Result<(), AllocError> {
    for (place, piece) in line.split('#').enumerate() {
        if place == 0 {
            text.push_str(piece)?;
        } else {
            push_behind(text, world, piece)?;
        }
    }
    Ok(())
}
