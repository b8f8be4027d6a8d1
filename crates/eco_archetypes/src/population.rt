//! What is asked of a store by who changes entities by their tables.
ghost use Rattle.std.specs.Prelude.{◌≡◌, IsTrue};
ghost use Rattle.eco_ids.specs.Indices.{Indexed, is_alive, with_death};
ghost use Rattle.eco_ids.specs.Order.{entity_cmp, has_item};
ghost use Rattle.eco_ids.specs.World.{Record};
ghost use Rattle.eco_archetypes.specs.Deaths.{after_deaths};
ghost use Rattle.eco_archetypes.specs.Records.{stepped, Tries};
ghost use Rattle.eco_archetypes.specs.Retyping.{after_changes, IsOneWay};

use crate::places::Places;
use crate::type_change::TypeChange;
use eco_ids::{Entity, Id};
use std::alloc::AllocError;

/// Entities that stand in tables, and that die or get other types.
pub trait Population {
    /// A record of each living entity.
    ghost entities: { Self → Indexed Record };

    /// The entities and the tables, to read and to search.
    fn places(&self) -> Places<'_>
        ensures { result.entities ≡ entities self.now };

    /// Gives an entity an id that it lacks, with zeros, or takes one away that it has. The values of its other ids stay. An
    /// `Err` comes where memory is refused, and then no entity has changed.
    fn step(&mut self, entity: Entity, id: Id) -> Result<(), AllocError>
        requires { IsTrue (is_alive (entities self.old) entity) }
        ensures { Tries (entities self.old) (stepped (entities self.old) (entity, id))
            result (entities self.new) };

    /// The entity dies: its name is free, its row goes, and its index is free at the next generation or retired. It takes
    /// no memory.
    fn take_out(&mut self, entity: Entity)
        requires { IsTrue (is_alive (entities self.old) entity) }
        ensures { entities self.new ≡ with_death (entities self.old) entity };

    /// Each of these entities that lives dies, and then all entities of a type get another, for each of these changes, one
    /// after another: values of ids that both types have stay, new ids hold zeros. An entity that is named twice, or doesn't
    /// live, is passed over. All memory is taken before the first entity changes. An `Err` comes where memory is refused, and
    /// changes nothing.
    fn delete_all(&mut self, dead: &[Entity], changes: &[TypeChange]) -> Result<(), AllocError>
        requires { IsOneWay changes.now }
        ensures { Tries (entities self.old)
            (after_changes (after_deaths (entities self.old) (has_item entity_cmp dead.now)) changes.now)
            result (entities self.new) };
}
