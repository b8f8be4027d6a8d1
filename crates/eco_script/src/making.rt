//! Changes of a world that texts ask for, made.
ghost use Rattle.eco_ids.specs.Outcome.{Meets};
ghost use Rattle.eco_ids.specs.Run as run;
ghost use Rattle.eco_script.specs.Changes.{named_command};
ghost use Rattle.eco_script.specs.Replies.{Changes};
ghost use Rattle.eco_steps.specs.Views.{change_view};

use crate::{Change, read_change};
use eco_ids::Refusal;
use eco_steps::WrittenChange;
use eco_world::World;

// Makes the call of a change.
fn apply(world: &mut World, change: Change<'_>) -> Result<(), Refusal>
    ensures { Meets (run.Applies (named_command change.entry) world.old)
        (run.may_want (named_command change.entry) world.old) world.old result world.new }
{
    match change {
        Change::Add(entity, id) => world.add(entity, id),
        Change::Remove(entity, id) => world.remove(entity, id),
        Change::Set(entity, id, value) => world.set(entity, id, value),
        Change::Clear(entity) => world.clear(entity),
        Change::Rename(entity, name) => world.rename(entity, name),
        Change::Delete(entity) => world.delete(entity),
        Change::DeleteWith(id) => world.delete_with(id),
        Change::RemoveAll(id) => world.remove_all(id),
    }
}

/// Makes the call of a change, whichever it is.
pub fn make_change(world: &mut World, change: WrittenChange<'_>) -> Result<(), Refusal>
    ensures { Changes world.old (change_view change.entry) result world.new }
{
    let named = read_change(world, change)?;
    apply(world, named)
}
