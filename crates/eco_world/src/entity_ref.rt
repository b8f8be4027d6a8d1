//! An entity of a world, to be read.
ghost use Rattle.std.specs.Prelude.{◌≡◌};
ghost use Rattle.eco_ids.specs.Data.{value_of};

use crate::world::World;
use eco_ids::{Entity, Id, Value};
use eco_store::Table;
use std::marker::Model;

/// An entity of a world, to read its values one after another: it is looked for once, and not for each value.
///
/// A contract sees the world and the entity, which need not live.
#[derive(Drop)]
pub struct EntityRef<'a> {
    world: &'a World,
    entity: Entity,
    // Where it stands, if it was looked for and lives.
    place: Option<(&'a Table, usize)>,
}

impl<'a> Model for EntityRef<'a> {
    ghost use Rattle.std.specs.Prelude.{IfSome};
    ghost use Rattle.eco_world.specs.Refs.{EntityIn, StandsInRow};

    ghost Value = { EntityIn };

    ghost view = { λ r. record { world = r.world.now; entity = r.entity } };

    ghost invariant = { λ r. IfSome r.place (λ x. StandsInRow r.world.now r.entity x.0.now x.1) };
}

impl<'a> EntityRef<'a> {
    // The entity of the world, which is looked for at once.
    #[inline]
    pub(crate) fn new(world: &'a World, entity: Entity) -> EntityRef<'a>
        ensures { result ≡ record { world = world.now; entity = entity } }
    {
        EntityRef {
            world,
            entity,
            place: world.stand(entity),
        }
    }

    /// The entity of the world, which is not looked for before the first value is read, and then for each.
    #[inline]
    pub fn unsought(world: &'a World, entity: Entity) -> EntityRef<'a>
        ensures { result ≡ record { world = world.now; entity = entity } }
    {
        EntityRef {
            world,
            entity,
            place: None,
        }
    }

    /// The entity.
    #[inline]
    pub fn entity(&self) -> Entity
        ensures { result ≡ self.now.entity }
    {
        self.entity
    }

    /// The value of the id, where the entity lives, has the id, and the id is data, as [`World::get`] has it.
    #[inline(always)]
    pub fn value(&self, id: Id) -> Option<Value>
        ensures { result ≡ value_of self.now.world self.now.entity id }
    {
        match self.place {
            Some((table, row)) => self.world.value_in(table, row, id),
            None => self.world.get(self.entity, id),
        }
    }
}
