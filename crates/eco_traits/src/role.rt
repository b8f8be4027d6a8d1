//! The roles in which ids name an entity.
ghost use Rattle.std.specs.Prelude.{◌≡◌, ◌&&◌, ◌||◌};
ghost use Rattle.std.specs.List.{list_any};
ghost use Rattle.eco_ids.specs.Cleanup.{policy as policy_of};
ghost use Rattle.eco_ids.specs.Order.{entity_eq, has_item, id_cmp};
ghost use Rattle.eco_ids.specs.declared.entity.TheConstants.{DELETE as DELETE_DATA, ON_DELETE as ON_DELETE_DATA};
ghost use Rattle.eco_ids.specs.declared.id.Id.TheVariants.{Two};
ghost use Rattle.eco_tables.specs.Table.{entities_of};
ghost use Rattle.eco_tables.specs.Tables.{table_in};
ghost use Rattle.eco_traits.specs.Policies.{is_head, names_on};
ghost use Rattle.eco_archetypes.specs.Worlds.{world_of};

use crate::policy::policy;
use eco_archetypes::{Archetypes, Places};
use eco_ids::entity::{DELETE, ON_DELETE, ON_DELETE_TARGET};
use eco_ids::{Entity, Id, Part, Pattern, TableSlot, TypeList};

// Of a relationship that has this pair the holders die with the target.
const DELETING: Pattern = Pattern::Two(Part::Is(ON_DELETE_TARGET), Part::Is(DELETE));

// Fewer ids cost less to read than to be searched.
const MANY_IDS: usize = 16;

// So many ids are read while one is searched for.
const IDS_PER_SEARCH: usize = 8;

/// Whether one of the ids names the member in a role whose policy is `Delete`.
pub fn any_deletes(places: &Places<'_>, member: Entity, ids: &TypeList) -> bool
    ensures { result ≡ list_any (names_on (world_of places.now.entities) DELETE_DATA member) ids.now }
{
    if ids.as_slice().len() < MANY_IDS {
        any_names_on(places, DELETE, member, ids.as_slice())
    } else {
        any_of_many(places, member, ids)
    }
}

// What `any_deletes` does with many ids, of which not each is read: it is asked of the relationships of which holders die with
// targets, where those are few beside the ids.
fn any_of_many(places: &Places<'_>, member: Entity, ids: &TypeList) -> bool
    ensures { result ≡ list_any (names_on (world_of places.now.entities) DELETE_DATA member) ids.now }
{
    places.are_shown();
    let archetypes = places.archetypes();
    let slots = archetypes.listed(DELETING);
    if !have_fewer(archetypes, slots, ids.as_slice().len() / IDS_PER_SEARCH) {
        return any_names_on(places, DELETE, member, ids.as_slice());
    }
    is_head_or_pair(places, archetypes, slots, member, ids)
}

// Whether one of the ids is the member, whose policy is `Delete`, or a pair of it, or its pair with one who stands in the tables
// of these slots.
fn is_head_or_pair(
    places: &Places<'_>,
    archetypes: &Archetypes,
    slots: &[TableSlot],
    member: Entity,
    ids: &TypeList,
) -> bool
    ensures { result ≡ (entity_eq (policy_of (world_of places.now.entities) member ON_DELETE_DATA) DELETE_DATA
        && list_any (is_head member) ids.now || list_any (λ n. list_any (λ r. has_item id_cmp ids.now
        (Two r member)) (entities_of (table_in archetypes.now n).rows)) slots.now) }
{
    policy(places, member, ON_DELETE).is(DELETE) && any_heads(member, ids.as_slice())
        || any_pairs_in(archetypes, slots, member, ids)
}

// Whether fewer than so many stand in the tables of these slots.
fn have_fewer(archetypes: &Archetypes, slots: &[TableSlot], count: usize) -> bool {
    let mut left = count;
    for slot in slots {
        let rows = archetypes.tables().row_count(*slot);
        if rows >= left {
            return false;
        }
        left -= rows.max(1);
    }
    left > 0
}

// Whether one of the ids is the entity or a pair of it.
fn any_heads(entity: Entity, ids: &[Id]) -> bool
    ensures { result ≡ list_any (is_head entity) ids.now }
{
    ids.iter().any(|id| is_head(entity, *id))
}

// Whether the id is the entity or a pair of it.
fn is_head(entity: Entity, id: Id) -> bool
    ensures { result ≡ is_head entity id }
{
    match id {
        Id::One(own) => own.is(entity),
        Id::Two(relationship, _) => relationship.is(entity),
    }
}

// Whether one of the ids is the target's pair with one who stands in the tables of these slots.
fn any_pairs_in(
    archetypes: &Archetypes,
    slots: &[TableSlot],
    target: Entity,
    ids: &TypeList,
) -> bool
    ensures { result ≡ list_any (λ n. list_any (λ r. has_item id_cmp ids.now (Two r target))
        (entities_of (table_in archetypes.now n).rows)) slots.now }
{
    slots
        .iter()
        .any(|slot| any_pairs_at(archetypes, *slot, target, ids))
}

// Whether one of the ids is the target's pair with one who stands in the table of a slot.
fn any_pairs_at(archetypes: &Archetypes, slot: TableSlot, target: Entity, ids: &TypeList) -> bool
    ensures { result ≡ list_any (λ r. has_item id_cmp ids.now (Two r target))
        (entities_of (table_in archetypes.now slot).rows) }
{
    match archetypes.tables().get(slot) {
        Some(table) => any_pairs(table.rows(), target, ids),
        None => false,
    }
}

// Whether one of the ids is the target's pair with one of these relationships.
fn any_pairs(relationships: &[Entity], target: Entity, ids: &TypeList) -> bool
    ensures { result ≡ list_any (λ r. has_item id_cmp ids.now (Two r target)) relationships.now }
{
    relationships
        .iter()
        .any(|relationship| ids.has(Id::Two(*relationship, target)))
}

/// Whether one of the ids names the member in a role whose policy is this action.
pub fn any_names_on(places: &Places<'_>, action: Entity, member: Entity, ids: &[Id]) -> bool
    ensures { result ≡ list_any (names_on (world_of places.now.entities) action member) ids.now }
{
    ids.iter().any(|id| names_on(places, action, member, *id))
}

/// Whether the id does so.
pub fn names_on(places: &Places<'_>, action: Entity, member: Entity, id: Id) -> bool
    ensures { result ≡ names_on (world_of places.now.entities) action member id }
{
    match id {
        Id::One(own) => own.is(member) && policy(places, own, ON_DELETE).is(action),
        Id::Two(relationship, target) => {
            relationship.is(member) && policy(places, relationship, ON_DELETE).is(action)
                || target.is(member) && policy(places, relationship, ON_DELETE_TARGET).is(action)
        }
    }
}
