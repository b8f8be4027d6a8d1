//! The calls by which entities die.
ghost use Rattle.std.specs.Prelude.{◌≡◌};
ghost use Rattle.std.specs.List.{list_any};
ghost use Rattle.eco_ids.specs.Delete.{DeletesOne, may_delete, DeletesWith, may_delete_with};
ghost use Rattle.eco_ids.specs.Outcome.{Meets};
ghost use Rattle.eco_ids.specs.World.{living};
ghost use Rattle.eco_index.specs.TypeTests.{type_names};
ghost use Rattle.eco_archetypes.specs.Records.{record_ids};

use crate::world::World;
use eco_ids::{Entity, Id, Refusal};
use eco_query::exactly;

impl World {
    /// The entity dies, and with it whoever the cleanup policies take: each holder of one who dies, under an id that names
    /// the dead in a role whose policy is `Delete`, and so on. The others lose exactly the ids that name one of the dead, and
    /// keep the rest with their values (Flecs manual, Component Traits, cleanup). All memory that it wants is taken first, so
    /// that all of this is done or nothing.
    ///
    /// Refused with `NotAlive` where the entity isn't living, with `Reserved` where it is a built-in, with `Panic` where an
    /// entity that would stay has an id that names one who would die in a role whose policy is `Panic`: it tells the least
    /// such holder, and the least such member for it; and last with `OutOfMemory`.
    pub fn delete(&mut self, entity: Entity) -> Result<(), Refusal>
        ensures { Meets (DeletesOne self.old entity) (may_delete self.old entity) self.old result self.new }
    {
        eco_ids::laws::steps_keep_lawful();
        self.check_actor(entity)?;
        if self.is_named(entity) {
            return eco_traits::delete(self.alloc, &mut self.store, &[entity]);
        }
        self.store.take_out(entity);
        Ok(())
    }

    /// All entities that have the id die, and with them whoever the cleanup policies take, as by
    /// [`delete`](World::delete) (Flecs manual, Component Traits, cleanup). An id that nobody has is done.
    ///
    /// Refused with `Reserved` where a built-in has the id, with `Panic` as a delete is, and last with `OutOfMemory`.
    pub fn delete_with(&mut self, id: Id) -> Result<(), Refusal>
        ensures { Meets (DeletesWith self.old id) (may_delete_with self.old id) self.old result self.new }
    {
        eco_ids::laws::steps_keep_lawful();
        if self.is_builtins(id) {
            return Err(Refusal::Reserved);
        }
        eco_traits::delete_with(self.alloc, &mut self.store, exactly(id))
    }

    // Whether some living entity has an id that names this one: where none has, its death touches no other.
    fn is_named(&self, entity: Entity) -> bool
        ensures { result ≡ list_any (λ p. type_names (record_ids p.1) entity) (living self.now) }
    {
        self.store.is_named(entity)
    }
}
