//! The policies of entities.
ghost use Rattle.std.specs.Prelude.{◌≡◌};
ghost use Rattle.eco_ids.specs.Cleanup.{policy as policy_of};
ghost use Rattle.eco_ids.specs.Order.{has_item, id_cmp};
ghost use Rattle.eco_traits.specs.Policies.{chosen};
ghost use Rattle.eco_archetypes.specs.Worlds.{world_of};

use eco_archetypes::Places;
use eco_ids::entity::{DELETE, PANIC, REMOVE};
use eco_ids::{Entity, Id, TypeList};

/// The action that an entity pairs with the condition, else `REMOVE`.
pub fn policy(places: &Places<'_>, entity: Entity, condition: Entity) -> Entity
    ensures { result ≡ policy_of (world_of places.now.entities) entity condition }
{
    match places.type_of(entity) {
        Some(ids) => action_in(ids, condition),
        None => REMOVE,
    }
}

// The action that is paired with the condition among these ids, else `REMOVE`.
fn action_in(ids: &TypeList, condition: Entity) -> Entity
    ensures { result ≡ chosen (has_item id_cmp ids.now) condition }
{
    if ids.has(Id::Two(condition, DELETE)) {
        DELETE
    } else if ids.has(Id::Two(condition, PANIC)) {
        PANIC
    } else {
        REMOVE
    }
}
