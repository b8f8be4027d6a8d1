//! What is asked of a store.
ghost use Rattle.std.specs.Prelude.{◌≡◌, ◌↔◌, IsTrue, option_map, option_copied};
ghost use Rattle.eco_ids.specs.declared.entity.Entity.{Entity as EntityData};
ghost use Rattle.eco_ids.specs.declared.id.Id.TheVariants.{Two};
ghost use Rattle.eco_ids.specs.Step.{is_used as some_has_pair_of};
ghost use Rattle.eco_ids.specs.World.{WorldState, has, record_of};
ghost use Rattle.eco_traits.specs.Target.{type_of_record};

use eco_ids::{Edition, Entity, TypeList};

/// Whatever says which entities live and which ids each of them has.
pub trait Holdings {
    /// What is kept, as the definitions see it. Names, arities and values do not matter here.
    ghost world: { Self → WorldState };

    /// Which rules are kept.
    fn edition(&self) -> Edition
        ensures { result ≡ (world self.now).edition };

    /// The ids of a living entity; none for one that isn't living.
    fn type_of(&self, entity: Entity) -> Option<&TypeList>
        ensures { option_copied result ≡ option_map type_of_record (record_of (world self.now) entity) };

    /// Whether some living entity has a pair of the relationship.
    fn is_used(&self, relationship: Entity) -> bool
        ensures { result ≡ some_has_pair_of (world self.now) relationship };

    /// Whether some living entity has this pair.
    fn is_target(&self, relationship: Entity, target: Entity) -> bool
        ensures { IsTrue result ↔ ((holder : EntityData)
            × IsTrue (has (world self.now) holder (Two relationship target))) };
}
