//! What an added id brings with it.
ghost use Rattle.std.specs.Prelude.{◌≡◌, ◌↔◌, IfOk, IsFalse, IsOk, IsTrue, Some};
ghost use Rattle.eco_ids.specs.declared.entity.Entity.{Entity as EntityData};
ghost use Rattle.eco_ids.specs.declared.entity.TheConstants.{WITH as WITH_DATA};
ghost use Rattle.eco_ids.specs.declared.id.Id.{Id as IdData};
ghost use Rattle.eco_ids.specs.declared.id.Id.TheVariants.{Two};
ghost use Rattle.eco_ids.specs.Order.{has_item, id_cmp, is_ascending};
ghost use Rattle.eco_ids.specs.Step.{IsClosure};
ghost use Rattle.eco_ids.specs.World.{has};
ghost use Rattle.std.specs.List.{list_any};
ghost use Rattle.eco_traits.specs.Closure as spec;
ghost use Rattle.eco_ids.specs.Mirrors.{is_with};
ghost use Rattle.eco_traits.specs.Target.{type_of_entity};

use crate::few::few_reached;
use crate::holdings::Holdings;
use crate::walk::{reached, target_by};
use eco_ids::entity::WITH;
use eco_ids::id::any_with;
use eco_ids::{Entity, Id, TypeList};
use std::alloc::{AllocError, Global};

/// The least set of ids that holds the id and, for each pair (With, X) of the entity of a single id or the relationship
/// of a pair in it, that id with X in its place (Flecs manual, Component Traits, "With trait"). The target of a pair
/// brings nothing.
///
/// Any id has a closure, also one that names an entity that isn't living: it is alone there. Nothing is brought as a rule,
/// and then it takes no memory. `AllocError` comes where memory for the set is refused.
pub fn closure<H: Holdings>(alloc: Global, holdings: &H, id: Id) -> Result<TypeList, AllocError>
    ensures exact { IfOk result (λ ids. IsClosure (H.world holdings.now) id ids) }
    ensures alone { spec.LacksWith (H.world holdings.now) (spec.head_of id) → IsOk result }
{
    match holdings.type_of(head_of(id)) {
        Some(traits) => closure_by(alloc, holdings, id, traits.as_slice()),
        None => TypeList::empty(alloc).with(id),
    }
}

/// The closure of an id, where these are the ids of the entity that says what it brings. What it brings mostly brings
/// nothing more, and then nothing has to be searched.
pub(crate) fn closure_by<H: Holdings>(
    alloc: Global,
    holdings: &H,
    id: Id,
    traits: &[Id],
) -> Result<TypeList, AllocError>
    requires { Some traits.now ≡ type_of_entity (H.world holdings.now) (spec.head_of id) }
    ensures exact { IfOk result (λ ids. IsClosure (H.world holdings.now) id ids) }
    ensures alone { spec.LacksWith (H.world holdings.now) (spec.head_of id) → IsOk result }
{
    if bring_more(holdings, traits) {
        return walked(alloc, holdings, id);
    }
    with_targets(alloc, id, traits)
}

// The closure of an id by a walk of pairs of With, which wants memory of its own only where it leads far.
fn walked<H: Holdings>(alloc: Global, holdings: &H, id: Id) -> Result<TypeList, AllocError>
    ensures { IfOk result (λ ids. IsClosure (H.world holdings.now) id ids) }
{
    let head = head_of(id);
    if let Some(few) = few_reached(holdings, WITH, head) {
        return with_heads(alloc, id, few.as_slice());
    }
    let heads = reached(alloc, holdings, WITH, head)?;
    with_heads(alloc, id, heads.as_slice())
}

// Whether the target of a pair of With among the ids has such a pair itself.
fn bring_more<H: Holdings>(holdings: &H, ids: &[Id]) -> bool
    ensures exact { IsFalse result ↔ spec.BringNoMore (H.world holdings.now) ids.now }
    ensures some { IsTrue result → IsTrue (list_any is_with ids.now) }
{
    for id in ids {
        if brings_more(holdings, *id) {
            return true;
        }
    }
    false
}

// The same of one id.
fn brings_more<H: Holdings>(holdings: &H, id: Id) -> bool
    ensures exact { IsFalse result ↔ ((x : EntityData) → id ≡ Two WITH_DATA x
        → spec.LacksWith (H.world holdings.now) x) }
    ensures some { IsTrue result → IsTrue (is_with id) }
{
    match target_by(id, WITH) {
        Some(target) => has_with(holdings, target),
        None => false,
    }
}

/// The entity whose ids say how the id behaves, and what it brings: its own, or a pair's relationship.
#[inline]
pub(crate) fn head_of(id: Id) -> Entity
    ensures { result ≡ spec.head_of id }
{
    match id {
        Id::One(entity) => entity,
        Id::Two(relationship, _) => relationship,
    }
}

fn with_head(id: Id, head: Entity) -> Id
    ensures { result ≡ spec.with_head id head }
{
    match id {
        Id::One(_) => Id::One(head),
        Id::Two(_, target) => Id::Two(head, target),
    }
}

// Whether the entity has a pair of With.
pub(crate) fn has_with<H: Holdings>(holdings: &H, entity: Entity) -> bool
    ensures { IsTrue result ↔ spec.HasWith (H.world holdings.now) entity }
{
    match holdings.type_of(entity) {
        Some(ids) => brings_any(ids),
        None => false,
    }
}

/// Whether a pair of With is among the ids.
#[inline(always)]
pub(crate) fn brings_any(ids: &TypeList) -> bool
    ensures { IsTrue result ↔ ((x : EntityData) × IsTrue (has_item id_cmp ids.now (Two WITH_DATA x))) }
{
    any_with(ids.as_slice())
}

/// The id with each of the heads in the place of its own.
pub(crate) fn with_heads(alloc: Global, id: Id, heads: &[Entity]) -> Result<TypeList, AllocError>
    ensures members { IfOk result (λ ids. spec.HasSameIds ids (spec.with_heads id heads.now)) }
    ensures ascending { IfOk result (λ ids. IsTrue (is_ascending id_cmp ids)) }
{
    eco_ids::order::items_join_and_leave();
    let mut ids = TypeList::empty(alloc);
    for head in heads {
        ids.insert(with_head(id, *head))?;
    }
    Ok(ids)
}

// The id, and what it is with the target of each pair of With among these as its head.
fn with_targets(alloc: Global, id: Id, traits: &[Id]) -> Result<TypeList, AllocError>
    ensures members { IfOk result (λ ids. spec.HasGiven ids id traits.now) }
    ensures ascending { IfOk result (λ ids. IsTrue (is_ascending id_cmp ids)) }
    ensures alone { IsFalse (list_any is_with traits.now) → IsOk result }
{
    eco_ids::order::items_join_and_leave();
    let mut ids = TypeList::empty(alloc);
    ids.insert(id)?;
    for own in traits {
        if let Some(target) = target_by(*own, WITH) {
            ids.insert(with_head(id, target))?;
        }
    }
    Ok(ids)
}
