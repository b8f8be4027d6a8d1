//! The world as the traits of relationships ask it.
use crate::world::World;
use eco_ids::{Edition, Entity, Part, Pattern, TypeList};
use eco_traits::Holdings;

impl Holdings for World {
    ghost world = { λ w. w };

    fn edition(&self) -> Edition {
        World::edition(self)
    }

    fn type_of(&self, entity: Entity) -> Option<&TypeList> {
        self.own_type(entity)
    }

    fn is_used(&self, relationship: Entity) -> bool {
        self.is_held(Pattern::Two(Part::Is(relationship), Part::Any))
    }

    fn is_target(&self, relationship: Entity, target: Entity) -> bool {
        self.is_held(Pattern::Two(Part::Is(relationship), Part::Is(target)))
    }
}
