//! Changes of a world that texts ask for, read on the world.

ghost use Rattle.std.specs.Prelude.{option_map};
ghost use Rattle.eco_grammar.specs.Readings.{ok_map};
ghost use Rattle.eco_script.specs.Changes.{named_command};
ghost use Rattle.eco_script.specs.Recording.{ReadsChange};
ghost use Rattle.eco_steps.specs.Commands as texts;
ghost use Rattle.eco_steps.specs.Views.{change_view};

use crate::references::{read_both, read_entity, read_id};
use eco_ids::{Entity, Id, Refusal, Value};
use eco_steps::WrittenChange;
use eco_world::World;

/// A change, with what its texts name. Each is the call of a world of the same name.
#[derive(Clone, Copy)]
pub enum Change<'a> {
    /// The entity gets the id.
    Add(Entity, Id),
    /// The entity loses the id.
    Remove(Entity, Id),
    /// The entity has the value at the id.
    Set(Entity, Id, Value),
    /// The entity loses all ids.
    Clear(Entity),
    /// The entity has the name, or none.
    Rename(Entity, Option<&'a str>),
    /// The entity dies.
    Delete(Entity),
    /// All who have the id die.
    DeleteWith(Id),
    /// All who have the id lose it.
    RemoveAll(Id),
}

// Each of these eight reads the texts of the change of its name, and is refused as the first of them is that can't be read.

fn add<'a>(world: &World, entity: &str, id: &str) -> Result<Change<'a>, Refusal>
    ensures { ReadsChange world.now (texts.add entity.now id.now) (ok_map named_command result) }
{
    let (entity, id) = read_both(entity, id, world)?;
    Ok(Change::Add(entity, id))
}

fn remove<'a>(world: &World, entity: &str, id: &str) -> Result<Change<'a>, Refusal>
    ensures { ReadsChange world.now (texts.remove entity.now id.now) (ok_map named_command result) }
{
    let (entity, id) = read_both(entity, id, world)?;
    Ok(Change::Remove(entity, id))
}

fn set<'a>(world: &World, entity: &str, id: &str, value: Value) -> Result<Change<'a>, Refusal>
    ensures { ReadsChange world.now (texts.set entity.now id.now value) (ok_map named_command result) }
{
    let (entity, id) = read_both(entity, id, world)?;
    Ok(Change::Set(entity, id, value))
}

fn clear<'a>(world: &World, entity: &str) -> Result<Change<'a>, Refusal>
    ensures { ReadsChange world.now (texts.clear entity.now) (ok_map named_command result) }
{
    Ok(Change::Clear(read_entity(entity, world)?))
}

fn rename<'a>(world: &World, entity: &str, name: Option<&'a str>) -> Result<Change<'a>, Refusal>
    ensures { ReadsChange world.now (texts.rename entity.now (option_map (λ s. s.now) name.entry))
        (ok_map named_command result) }
{
    Ok(Change::Rename(read_entity(entity, world)?, name))
}

fn delete<'a>(world: &World, entity: &str) -> Result<Change<'a>, Refusal>
    ensures { ReadsChange world.now (texts.delete entity.now) (ok_map named_command result) }
{
    Ok(Change::Delete(read_entity(entity, world)?))
}

fn delete_with<'a>(world: &World, id: &str) -> Result<Change<'a>, Refusal>
    ensures { ReadsChange world.now (texts.delete_with id.now) (ok_map named_command result) }
{
    Ok(Change::DeleteWith(read_id(id, world)?))
}

fn remove_all<'a>(world: &World, id: &str) -> Result<Change<'a>, Refusal>
    ensures { ReadsChange world.now (texts.remove_all id.now) (ok_map named_command result) }
{
    Ok(Change::RemoveAll(read_id(id, world)?))
}

/// The change that texts ask for on a world. It is refused as the first of its texts is that can't be read.
pub fn read_change<'a>(world: &World, change: WrittenChange<'a>) -> Result<Change<'a>, Refusal>
    ensures { ReadsChange world.now (change_view change.entry) (ok_map named_command result) }
{
    match change {
        WrittenChange::Add { entity, id } => add(world, entity, id),
        WrittenChange::Remove { entity, id } => remove(world, entity, id),
        WrittenChange::Set { entity, id, value } => set(world, entity, id, value),
        WrittenChange::Clear { entity } => clear(world, entity),
        WrittenChange::Rename { entity, name } => rename(world, entity, name),
        WrittenChange::Delete { entity } => delete(world, entity),
        WrittenChange::DeleteWith { id } => delete_with(world, id),
        WrittenChange::RemoveAll { id } => remove_all(world, id),
    }
}
