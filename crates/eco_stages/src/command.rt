//! What can be recorded.

use eco_ids::{Entity, Id, Value};

/// A change of a world that is recorded now and done at a merge. Each is the call of a world of the same name, with its
/// refusals; what a command does depends on the world that the commands before it leave (Flecs manual, Systems, staging).
#[derive(Debug, Drop)]
pub enum Command {
    /// This very handle lives from then on, without name and ids. Refused with `Taken` unless its index is known, free and
    /// at its generation: a merge admits fresh indices for this.
    Create(Entity),
    /// The entity has the id, with its closure.
    Add(Entity, Id),
    /// The entity doesn't have the id.
    Remove(Entity, Id),
    /// The entity has this value at the id, which is added where it is absent.
    Set(Entity, Id, Value),
    /// The entity has no ids.
    Clear(Entity),
    /// The entity has this name, which the command owns, or none.
    Rename(Entity, Option<String>),
    /// The entity dies, with whoever the cleanup policies take.
    Delete(Entity),
    /// All entities that have the id die, with whoever the cleanup policies take.
    DeleteWith(Id),
    /// The id goes from all entities that have it.
    RemoveAll(Id),
}
