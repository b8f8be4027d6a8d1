//! The calls that change many entities at once.
ghost use Rattle.std.specs.Prelude.{◌≡◌, [], IfOk};
ghost use Rattle.eco_ids.specs.Builtin.{is_builtins};
ghost use Rattle.eco_ids.specs.Order.{entity_cmp, has_item, id_eq};
ghost use Rattle.eco_ids.specs.Outcome.{Meets};
ghost use Rattle.eco_ids.specs.Step.{RemovesAll, is_held, may_remove_all};
ghost use Rattle.eco_ids.specs.World.{entities};
ghost use Rattle.eco_traits.specs.Plans.{TakesOutOfAll};

use crate::world::World;
use eco_archetypes::TypeChange;
use eco_ids::{Entity, Id, Refusal};
use eco_query::exactly;
use std::alloc::AllocError;

impl World {
    /// No living entity has the id any more (Flecs manual, Entities and Components). An id that nobody has is done,
    /// and wants no memory. With a pair of a symmetric relationship its mirrors go. All memory that it wants is taken first,
    /// so that the id goes from all entities or from none. Its time grows with the entities that have the id, and with the
    /// tables whose types name the id's entity.
    ///
    /// Refused with `Reserved` where a built-in has the id, and last with `OutOfMemory`.
    pub fn remove_all(&mut self, id: Id) -> Result<(), Refusal>
        ensures { Meets (RemovesAll self.old id) (may_remove_all self.old id) self.old result self.new }
    {
        eco_ids::laws::steps_keep_lawful();
        self.is_lawful();
        if self.is_builtins(id) {
            return Err(Refusal::Reserved);
        }
        if !self.is_had(id) {
            return Ok(());
        }
        if let Some(target) = self.symmetric_target(id) {
            return Ok(self.remove_all_mirrored(id, target)?);
        }
        let changes = self.changes_without(id)?;
        Ok(eco_traits::carry_out(&mut self.store, &[], &changes)?)
    }

    // Whether some living entity has the id.
    fn is_had(&self, id: Id) -> bool
        ensures { result ≡ is_held self.now id }
    {
        self.is_held(exactly(id))
    }

    // Whether a built-in has the id.
    pub(crate) fn is_builtins(&self, id: Id) -> bool
        ensures { result ≡ is_builtins self.now id }
    {
        for index in 0..self.edition.builtin_count() {
            let builtin = Entity {
                index,
                generation: 0,
            };
            if self.has(builtin, id) {
                return true;
            }
        }
        false
    }

    // The changes that take the id out of every type that has it.
    fn changes_without(&self, id: Id) -> Result<Vec<TypeChange>, AllocError>
        ensures { IfOk result (λ changes.
            TakesOutOfAll (entities self.now) (has_item entity_cmp []) (λ j. id_eq j id) changes.items) }
    {
        let types = self.store.types_with(exactly(id))?;
        let mut changes = Vec::new(self.alloc);
        for ids in types {
            let to = ids.without(id)?;
            changes.push(TypeChange { from: ids, to })?;
        }
        Ok(changes)
    }
}
