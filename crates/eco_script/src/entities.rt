//! The lines of entities.
ghost use Rattle.std.specs.Prelude.{◌≡◌, ◌++◌, OnOk, codes, flat_map, string_bytes};
ghost use Rattle.std.specs.Option.{option_copied};
ghost use Rattle.eco_ids.specs.Data.{arity, value_of};
ghost use Rattle.eco_ids.specs.Text.{entity_text};
ghost use Rattle.eco_script.specs.Printed.{arity_behind, entity_lines, held_line, name_behind, value_behind};

use crate::named::NamedId;
use eco_ids::{Entity, Id};
use eco_world::World;
use std::alloc::AllocError;

// Adds a handle, and a name behind it.
fn push_handle(text: &mut String, entity: Entity, name: Option<&str>) -> Result<(), AllocError>
    ensures { OnOk result (string_bytes text.new
        ≡ string_bytes text.old ++ entity_text entity ++ name_behind (option_copied name.entry)) }
{
    match name {
        Some(name) => write!(text, "{entity} {name}"),
        None => write!(text, "{entity}"),
    }
}

// Adds how many fields the values of a component have, and ends the line.
fn push_arity(text: &mut String, arity: Option<u8>) -> Result<(), AllocError>
    ensures { OnOk result (string_bytes text.new
        ≡ string_bytes text.old ++ arity_behind arity ++ codes "\n") }
{
    match arity {
        Some(fields) => write!(text, ", arity {fields}\n"),
        None => text.push_str("\n"),
    }
}

// Adds the value that the entity has for the id, where the id is data.
fn push_value(text: &mut String, world: &World, entity: Entity, id: Id) -> Result<(), AllocError>
    ensures { OnOk result (string_bytes text.new ≡ string_bytes text.old
        ++ value_behind (arity world.now id) (value_of world.now entity id)) }
{
    let (Some(arity), Some(value)) = (world.arity(id), world.get(entity, id)) else {
        return Ok(());
    };
    let fields = value.fields(arity as usize);
    write!(text, " = {fields}")
}

// Adds the line of an id of the entity.
fn push_held(text: &mut String, world: &World, entity: Entity, id: Id) -> Result<(), AllocError>
    ensures { OnOk result (string_bytes text.new
        ≡ string_bytes text.old ++ held_line world.now entity id) }
{
    let named = NamedId { world, id };
    write!(text, "    {named}")?;
    push_value(text, world, entity, id)?;
    text.push_str("\n")
}

// Adds the lines of ids of the entity.
fn push_all_held(
    text: &mut String,
    world: &World,
    entity: Entity,
    ids: &[Id],
) -> Result<(), AllocError>
    ensures { OnOk result (string_bytes text.new
        ≡ string_bytes text.old ++ flat_map (held_line world.now entity) ids.now) }
{
    for id in ids {
        push_held(text, world, entity, *id)?;
    }
    Ok(())
}

// Adds the lines of an entity.
fn push_entity(text: &mut String, world: &World, entity: Entity) -> Result<(), AllocError>
    ensures { OnOk result (string_bytes text.new
        ≡ string_bytes text.old ++ entity_lines world.now entity) }
{
    push_handle(text, entity, world.name_of(entity))?;
    push_arity(text, world.arity_of(entity))?;
    push_all_held(text, world, entity, world.ids_of(entity))
}

/// Adds the lines of entities.
pub fn push_entities(
    text: &mut String,
    world: &World,
    entities: &[Entity],
) -> Result<(), AllocError>
    ensures { OnOk result (string_bytes text.new
        ≡ string_bytes text.old ++ flat_map (entity_lines world.now) entities.now) }
{
    for entity in entities {
        push_entity(text, world, *entity)?;
    }
    Ok(())
}
