//! What stands against adding a whole closure.
ghost use Rattle.std.specs.Prelude.{◌≡◌, ◌||◌, IfOk, IsTrue};
ghost use Rattle.std.specs.List.{list_any};
ghost use Rattle.eco_ids.specs.Order.{entity_eq, has_item, id_cmp, is_ascending};
ghost use Rattle.eco_ids.specs.Step as step;
ghost use Rattle.eco_ids.specs.declared.entity.TheConstants.{WITH as WITH_DATA};
ghost use Rattle.eco_ids.specs.declared.id.Id.TheVariants.{One, Two};
ghost use Rattle.eco_ids.specs.Edition.{late_traits};
ghost use Rattle.eco_ids.specs.Mirrors.{is_with, ties_symmetric, would_be_barred, would_clash};
ghost use Rattle.eco_ids.specs.World.{has as world_has, held_by, is_alive as lives, living, names_living};
ghost use Rattle.eco_traits.specs.Target.{IsClosedBy, IsSound};

use crate::holdings::Holdings;
use crate::walk::{has, reaches};
use eco_ids::entity::{
    ACYCLIC, DELETE, EXCLUSIVE, ON_DELETE, ON_DELETE_TARGET, PANIC, REMOVE, SYMMETRIC, WITH,
};
use eco_ids::id::any_with;
use eco_ids::{Edition, Entity, Id, Refusal};
use std::alloc::{AllocError, Global};

// The first of what stands against it: a cleanup pair that names no action, a trait that comes too late, a cycle, a
// symmetric relationship that would be exclusive, acyclic or tied to another by With.
pub(crate) fn verdict<H: Holdings>(
    alloc: Global,
    holdings: &H,
    entity: Entity,
    added: Id,
    coming: &[Id],
) -> Result<Option<Refusal>, AllocError>
    requires alive { IsTrue (lives (H.world holdings.now) entity) }
    requires living { IsTrue (names_living (H.world holdings.now) added) }
    requires closure { step.IsClosure (H.world holdings.now) added coming.now }
    requires sound { IsSound (H.world holdings.now) }
    ensures { IfOk result (step.Judges (H.world holdings.now) entity coming.now
        (step.grown (H.world holdings.now) entity added coming.now)) }
{
    if any_wrong_policy(coming) {
        return Ok(Some(Refusal::NotAPolicy));
    }
    if any_late(holdings, entity, coming) {
        return Ok(Some(Refusal::InUse));
    }
    if let Some(relationship) = first_cycle(alloc, holdings, entity, coming)? {
        return Ok(Some(Refusal::Cycle { relationship }));
    }
    if would_clash(holdings, entity, coming) {
        return Ok(Some(Refusal::TraitClash));
    }
    Ok(None)
}

// One of the traits comes too late.
fn any_late<H: Holdings>(holdings: &H, entity: Entity, coming: &[Id]) -> bool
    ensures { result ≡ list_any (step.is_late (H.world holdings.now) entity coming.now)
        (late_traits (H.world holdings.now).edition) }
{
    if !holdings.is_used(entity) {
        return false;
    }
    match holdings.edition() {
        Edition::First => {
            is_late(holdings, entity, coming, EXCLUSIVE)
                || is_late(holdings, entity, coming, ACYCLIC)
        }
        Edition::Second => {
            is_late(holdings, entity, coming, EXCLUSIVE)
                || is_late(holdings, entity, coming, ACYCLIC)
                || is_late(holdings, entity, coming, SYMMETRIC)
        }
    }
}

// The entity would be symmetric and have what does not go with that, or a pair of With with a symmetric target comes.
fn would_clash<H: Holdings>(holdings: &H, entity: Entity, coming: &[Id]) -> bool
    requires { IsTrue (lives (H.world holdings.now) entity) }
    ensures { result ≡ would_clash (H.world holdings.now) entity coming.now }
{
    holdings.edition().has_symmetric()
        && ((would_have(holdings, entity, coming, SYMMETRIC)
            && would_be_barred(holdings, entity, coming))
            || ties_any(holdings, coming))
}

// The entity has the trait, or it comes.
fn would_have<H: Holdings>(holdings: &H, entity: Entity, coming: &[Id], single: Entity) -> bool
    ensures { result ≡ (world_has (H.world holdings.now) entity (One single)
        || has_item id_cmp coming.now (One single)) }
{
    has(holdings, entity, Id::One(single)) || is_among(coming, Id::One(single))
}

// What does not go with Symmetric.
fn would_be_barred<H: Holdings>(holdings: &H, entity: Entity, coming: &[Id]) -> bool
    requires { IsTrue (lives (H.world holdings.now) entity) }
    ensures { result ≡ would_be_barred (H.world holdings.now) entity coming.now }
{
    would_have(holdings, entity, coming, EXCLUSIVE)
        || would_have(holdings, entity, coming, ACYCLIC)
        || has_with(holdings, entity)
        || any_with(coming)
        || is_tied(holdings, entity)
}

// The entity has a pair of With.
fn has_with<H: Holdings>(holdings: &H, entity: Entity) -> bool
    requires { IsTrue (lives (H.world holdings.now) entity) }
    ensures { result ≡ list_any (λ h. is_with h.0) (held_by (H.world holdings.now) entity) }
{
    any_with(holdings.type_of(entity).unwrap().as_slice())
}

// The entity is the target of one.
fn is_tied<H: Holdings>(holdings: &H, entity: Entity) -> bool
    ensures { result ≡ list_any (λ p. world_has (H.world holdings.now) p.0 (Two WITH_DATA entity))
        (living (H.world holdings.now)) }
{
    holdings.is_target(WITH, entity)
}

// One of them is a pair of With whose target is symmetric.
fn ties_any<H: Holdings>(holdings: &H, coming: &[Id]) -> bool
    ensures { result ≡ list_any (ties_symmetric (H.world holdings.now)) coming.now }
{
    coming.iter().any(|id| ties_symmetric(holdings, *id))
}

fn ties_symmetric<H: Holdings>(holdings: &H, id: Id) -> bool
    ensures { result ≡ ties_symmetric (H.world holdings.now) id }
{
    match id {
        Id::One(_) => false,
        Id::Two(relationship, target) => {
            relationship.is(WITH)
                && holdings.edition().has_symmetric()
                && has(holdings, target, Id::One(SYMMETRIC))
        }
    }
}

fn any_wrong_policy(ids: &[Id]) -> bool
    ensures { result ≡ list_any step.is_wrong_policy ids.now }
{
    ids.iter().any(|id| is_wrong_policy(*id))
}

// A pair of a cleanup condition names what is done, and that is Remove, Delete or Panic (Flecs manual, Component Traits,
// "Cleanup properties").
pub(crate) fn is_wrong_policy(id: Id) -> bool
    ensures { result ≡ step.is_wrong_policy id }
{
    match id {
        Id::One(_) => false,
        Id::Two(relationship, target) => is_condition(relationship) && !is_action(target),
    }
}

fn is_condition(relationship: Entity) -> bool
    ensures { result ≡ (entity_eq relationship ON_DELETE || entity_eq relationship ON_DELETE_TARGET) }
{
    relationship.is(ON_DELETE) || relationship.is(ON_DELETE_TARGET)
}

fn is_action(target: Entity) -> bool
    ensures { result ≡ step.is_action target }
{
    target.is(REMOVE) || target.is(DELETE) || target.is(PANIC)
}

/// Whether the id is one of these, which are few.
#[inline(always)]
pub(crate) fn is_among(ids: &[Id], id: Id) -> bool
    ensures { result ≡ has_item id_cmp ids.now id }
{
    ids.iter().any(|own| own.is(id))
}

// The trait comes to an entity that lacks it while pairs of that entity are about.
fn is_late<H: Holdings>(holdings: &H, entity: Entity, coming: &[Id], late: Entity) -> bool
    ensures { result ≡ step.is_late (H.world holdings.now) entity coming.now late }
{
    is_among(coming, Id::One(late))
        && !has(holdings, entity, Id::One(late))
        && holdings.is_used(entity)
}

// The ids ascend by relationship, so the first cycle that is found is the least relationship's.
fn first_cycle<H: Holdings>(
    alloc: Global,
    holdings: &H,
    entity: Entity,
    ids: &[Id],
) -> Result<Option<Entity>, AllocError>
    requires { IsTrue (is_ascending id_cmp ids.now) }
    ensures { IfOk result (step.IsFirstCycle (H.world holdings.now) entity ids.now) }
{
    for id in ids {
        if let Some(relationship) = closed_by(alloc, holdings, entity, *id)? {
            return Ok(Some(relationship));
        }
    }
    Ok(None)
}

// The relationship of which the id closes a cycle at the entity, where it does (Flecs manual, Component Traits, "Acyclic
// trait").
fn closed_by<H: Holdings>(
    alloc: Global,
    holdings: &H,
    entity: Entity,
    id: Id,
) -> Result<Option<Entity>, AllocError>
    ensures { IfOk result (IsClosedBy (H.world holdings.now) entity id) }
{
    let Id::Two(relationship, target) = id else {
        return Ok(None);
    };
    if !has(holdings, relationship, Id::One(ACYCLIC)) {
        return Ok(None);
    }
    let is_closed = reaches(alloc, holdings, relationship, target, entity)?;
    Ok(is_closed.then_some(relationship))
}
