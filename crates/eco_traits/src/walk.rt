//! Walks along the pairs of one relationship.
ghost use Rattle.std.specs.Prelude.{◌≡◌, ◌||◌, ◌↔◌, IfOk, OnOk, IsFalse, IsTrue};
ghost use Rattle.std.specs.List.{list_any};
ghost use Rattle.std.proofs.Common.{sym, ◌∙◌};
ghost use Rattle.eco_ids.proofs.Overlaps.{entity_eq_is};
ghost use Rattle.eco_ids.specs.OrderLaws.{entity_ties};
ghost use Rattle.eco_ids.specs.declared.entity.Entity.{Entity as EntityData};
ghost use Rattle.eco_ids.specs.declared.id.Id.TheVariants.{Two};
ghost use Rattle.eco_ids.specs.Order.{entity_cmp, has_item, id_cmp};
ghost use Rattle.eco_ids.specs.Step.{is_pair_of};
ghost use Rattle.eco_ids.specs.Traits.{Reaches};
ghost use Rattle.eco_ids.specs.World.{has as world_has};
ghost use Rattle.eco_traits.specs.Known.{all_targets};
ghost use Rattle.eco_traits.specs.Target.{AppendsTargets, IsReach, target_by_pair};

use crate::holdings::Holdings;
use eco_ids::{Entity, Id};
use eco_search::{Graph, is_in_least_set, least_set};
use indexmap::IndexSet;
use std::alloc::{AllocError, Global};

// To look through so many ids costs less than to ask who has the goal as target.
const FEW_IDS: usize = 8;

// Each entity leads to the targets of its pairs of the relationship.
#[derive(Drop)]
struct Pairs<'a, H> {
    holdings: &'a H,
    relationship: Entity,
}

impl<H: Holdings> Graph for Pairs<'_, H> {
    type Node = Entity;

    ghost nodes = { λ p. all_targets (H.world p.holdings.now) };

    ghost leads = { λ p a b. IsTrue (world_has (H.world p.holdings.now) a (Two p.relationship b)) };

    #[tactic(auto, using(crate::proofs::Known::target_is_known))]
    fn append_next(&self, entity: Entity, found: &mut Vec<Entity>) -> Result<(), AllocError> {
        if let Some(ids) = self.holdings.type_of(entity) {
            append_targets(ids.as_slice(), self.relationship, found)?;
        }
        Ok(())
    }

    ghost same = { λ a b h. entity_eq_is a b (sym (entity_ties a b) ∙ h) };
}

fn append_targets(
    ids: &[Id],
    relationship: Entity,
    found: &mut Vec<Entity>,
) -> Result<(), AllocError>
    ensures { OnOk result (AppendsTargets relationship ids.now found.old.items found.new.items) }
{
    for id in ids {
        if let Some(target) = target_by(*id, relationship) {
            found.push(target)?;
        }
    }
    Ok(())
}

/// The target of a pair of the relationship.
pub(crate) fn target_by(id: Id, relationship: Entity) -> Option<Entity>
    ensures { result ≡ target_by_pair relationship id }
{
    match id {
        Id::Two(own, target) if own.is(relationship) => Some(target),
        _ => None,
    }
}

/// All that a walk of pairs of the relationship leads to from an entity, itself among them.
pub fn reached<H: Holdings>(
    alloc: Global,
    holdings: &H,
    relationship: Entity,
    from: Entity,
) -> Result<IndexSet<Entity>, AllocError>
    ensures { IfOk result (λ set. IsReach (H.world holdings.now) relationship from set.keys) }
{
    least_set(
        alloc,
        &Pairs {
            holdings,
            relationship,
        },
        &[from],
    )
}

/// Whether a walk of pairs of the relationship leads from one entity to another. It leads from each to itself.
///
/// Nothing is walked where it is known before ([`may_reach`]), and that takes no memory. A walk stops as soon as it meets
/// the goal.
pub fn reaches<H: Holdings>(
    alloc: Global,
    holdings: &H,
    relationship: Entity,
    from: Entity,
    goal: Entity,
) -> Result<bool, AllocError>
    ensures { IfOk result (λ b. IsTrue b ↔ Reaches (H.world holdings.now) relationship from goal) }
{
    if from.is(goal) {
        return Ok(true);
    }
    if !may_reach(holdings, relationship, from, goal) {
        return Ok(false);
    }
    let pairs = Pairs {
        holdings,
        relationship,
    };
    is_in_least_set(alloc, &pairs, &[from], goal)
}

/// Whether a walk of pairs of the relationship may lead from one entity to another, as far as that is known without one: a
/// longer walk begins with a pair of the first entity, and ends with one that names the goal.
pub(crate) fn may_reach<H: Holdings>(
    holdings: &H,
    relationship: Entity,
    from: Entity,
    goal: Entity,
) -> bool
    ensures { IsFalse result → Reaches (H.world holdings.now) relationship from goal → ⊥ }
{
    if from.is(goal) {
        return true;
    }
    if !may_lead_on(holdings, relationship, from) {
        return false;
    }
    holdings.is_target(relationship, goal)
}

// Whether the entity may have a pair of the relationship. Of an entity with many ids that is not asked.
fn may_lead_on<H: Holdings>(holdings: &H, relationship: Entity, from: Entity) -> bool
    ensures { IsFalse result → (target : EntityData)
        → IsFalse (world_has (H.world holdings.now) from (Two relationship target)) }
{
    match holdings.type_of(from) {
        Some(ids) => may_have_pair_of(ids.as_slice(), relationship),
        None => false,
    }
}

// Whether a pair of the relationship may be among the ids: whether one is, where they are few.
fn may_have_pair_of(ids: &[Id], relationship: Entity) -> bool
    ensures { IsFalse result → IsFalse (list_any (is_pair_of relationship) ids.now) }
{
    if ids.len() > FEW_IDS {
        return true;
    }
    has_pair_of(ids, relationship)
}

/// Whether one of the ids is a pair of the relationship.
pub(crate) fn has_pair_of(ids: &[Id], relationship: Entity) -> bool
    ensures { result ≡ list_any (is_pair_of relationship) ids.now }
{
    ids.iter().any(|id| is_pair_of(*id, relationship))
}

/// Whether the id is a pair of the relationship.
pub(crate) fn is_pair_of(id: Id, relationship: Entity) -> bool
    ensures { result ≡ is_pair_of relationship id }
{
    match id {
        Id::One(_) => false,
        Id::Two(own, _) => relationship.is(own),
    }
}

/// Whether the entity lives and has the id.
pub fn has<H: Holdings>(holdings: &H, entity: Entity, id: Id) -> bool
    ensures { result ≡ world_has (H.world holdings.now) entity id }
{
    match holdings.type_of(entity) {
        Some(ids) => ids.has(id),
        None => false,
    }
}
