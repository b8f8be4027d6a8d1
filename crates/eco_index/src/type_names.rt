//! Which ids of a type name an entity. The ids ascend, so most of them are passed over: among many pairs of one relationship that
//! with a target is found in few steps.
ghost use Rattle.std.specs.Prelude.{◌≡◌, ◌∷◌, ◌<◌, ◌≤◌, [], false, filter, length, slice_get, IsTrue, IfSome, IfNone};
ghost use Rattle.std.specs.Ordering.{is_lt};
ghost use Rattle.eco_ids.specs.declared.entity.Entity.{Entity as Entities};
ghost use Rattle.eco_ids.specs.declared.id.Id.{Id as Ids};
ghost use Rattle.eco_ids.specs.Order.{entity_cmp, entity_eq, id_cmp, is_ascending, names_entity};
ghost use Rattle.eco_index.specs.TypeNames.{named_from, IsFirstNamed};
ghost use Rattle.eco_index.specs.TypeTests.{type_names};

use eco_ids::{Entity, Id, TypeList};

// No handle is higher.
const HIGHEST: Entity = Entity {
    index: 0xFFFF_FFFF,
    generation: 0xFFFF,
};

/// Whether an id of the type names the entity.
pub fn is_named_in(type_list: &TypeList, entity: Entity) -> bool
    ensures { result ≡ type_names type_list.now entity }
{
    first_named(type_list.as_slice(), 0, entity).is_some()
}

/// The only id of the type that names the entity, if one does and no other.
pub fn only_named(type_list: &TypeList, entity: Entity) -> Option<Id>
    ensures only { IfSome result (λ i. filter (λ j. names_entity j entity) type_list.now ≡ i ∷ []) }
    ensures ascending { IsTrue (is_ascending id_cmp type_list.now) }
{
    let ids = type_list.as_slice();
    let place = first_named(ids, 0, entity)?;
    match first_named(ids, place + 1, entity) {
        Some(_) => None,
        None => Some(ids[place]),
    }
}

// Where the first of the ids stands, from a place on, that names the entity.
fn first_named(ids: &[Id], from: usize, entity: Entity) -> Option<usize>
    requires { IsTrue (is_ascending id_cmp ids.now) }
    ensures some { IfSome result (IsFirstNamed ids.now from entity) }
    ensures none { IfNone result (named_from ids.now from entity ≡ []) }
{
    let mut place = from;
    while place < ids.len() {
        let id = ids[place];
        if id.names(entity) {
            return Some(place);
        }
        place = last_below(ids, place, bound_of(id, entity)) + 1;
    }
    None
}

// This place, or one behind it where an id stands that is less than the bound. The steps double, so few of them go far.
fn last_below(ids: &[Id], place: usize, bound: Id) -> usize
    requires { place < length ids.now }
    ensures from { place ≤ result }
    ensures within { result < length ids.now }
    ensures below { place < result → IfSome (slice_get ids.now result) (λ y. IsTrue (is_lt (id_cmp y bound))) }
{
    let mut last = place;
    while let Some(next) = farther(ids, place, last, bound) {
        last = next;
    }
    last
}

// A place that is as far behind the last one as that is behind the first, and one more, if the id there is less than the bound.
#[inline(always)]
fn farther(ids: &[Id], first: usize, last: usize, bound: Id) -> Option<usize>
    requires order { first ≤ last }
    requires within { last < length ids.now }
    ensures behind { IfSome result (λ n. last < n) }
    ensures within { IfSome result (λ n. n < length ids.now) }
    ensures below { IfSome result
        (λ n. IfSome (slice_get ids.now n) (λ y. IsTrue (is_lt (id_cmp y bound)))) }
{
    let step = last - first + 1;
    if step < ids.len() - last && ids[last + step].cmp(&bound).is_lt() {
        return Some(last + step);
    }
    None
}

// What is greater than the id, and less than this, does not name the entity, if the id does not.
#[inline(always)]
fn bound_of(id: Id, entity: Entity) -> Id
    ensures { (y : Ids) → names_entity id entity ≡ false → IsTrue (is_lt (id_cmp id y))
        → IsTrue (is_lt (id_cmp y result)) → names_entity y entity ≡ false }
{
    match id {
        Id::One(own) => Id::One(bound_beside(own, entity)),
        Id::Two(relationship, target) => Id::Two(relationship, bound_beside(target, entity)),
    }
}

// What is greater than the own entity, and less than this, is not the entity.
#[inline(always)]
fn bound_beside(own: Entity, entity: Entity) -> Entity
    ensures { (y : Entities) → entity_eq own entity ≡ false → IsTrue (is_lt (entity_cmp own y))
        → IsTrue (is_lt (entity_cmp y result)) → entity_eq y entity ≡ false }
{
    if own.cmp(&entity).is_lt() {
        entity
    } else {
        HIGHEST
    }
}
