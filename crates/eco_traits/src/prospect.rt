//! What an add does, as far as that is known at a look.
ghost use Rattle.eco_ids.specs.declared.entity.TheConstants.{SYMMETRIC as SYMMETRIC_DATA};
ghost use Rattle.eco_ids.specs.Edition.{has_symmetric};
ghost use Rattle.eco_ids.specs.Order.{entity_eq};
ghost use Rattle.std.specs.Prelude.{◌≡◌, ◌↔◌, ◌&&◌, IfSome, IsFalse, IsTrue, MatchBool, Some, false, is_some, true};
ghost use Rattle.std.specs.List.{list_any};
ghost use Rattle.eco_ids.specs.World.{is_alive as lives};
ghost use Rattle.eco_ids.specs.World as world;
ghost use Rattle.eco_traits.specs.Closure.{head_of};
ghost use Rattle.eco_traits.specs.Prospect.{Foresees, is_trait};
ghost use Rattle.eco_traits.specs.declared.prospect.Prospect.TheVariants.{Alone, Open};
ghost use Rattle.eco_traits.specs.Target.{IsNoTrait, IsPlain, IsSound, LacksTraits, type_of_entity};

use crate::holdings::Holdings;
use crate::implied::{brings_any, head_of};
use crate::verdict::is_wrong_policy;
use eco_ids::entity::{ACYCLIC, EXCLUSIVE, SYMMETRIC, WITH};
use eco_ids::{Edition, Entity, Id, TypeList};

/// What an add does, as far as two types tell: that of the entity to which the id comes, and that of the id's own entity,
/// which for a pair is its relationship. Of most adds they tell all.
#[derive(Clone, Copy)]
pub enum Prospect {
    /// An entity in the id isn't living, and that stands against the add.
    Dead,
    /// Nothing: the id is there already.
    There,
    /// The id comes, alone.
    Alone,
    /// The id is absent, and more has to be looked at.
    Open,
}

/// What an add of the id does to a living entity, as far as a look tells. It takes no memory.
#[inline(always)]
pub fn foresee<H: Holdings>(holdings: &H, entity: Entity, id: Id) -> Prospect
    requires alive { IsTrue (lives (H.world holdings.now) entity) }
    requires sound { IsSound (H.world holdings.now) }
    ensures { Foresees (H.world holdings.now) entity id result }
{
    let own = holdings.type_of(entity).unwrap();
    let Some(traits) = traits_of(holdings, id) else {
        return Prospect::Dead;
    };
    if own.has(id) {
        return Prospect::There;
    }
    if is_plain(holdings.edition(), id, traits) {
        return Prospect::Alone;
    }
    Prospect::Open
}

/// Whether [`foresee`] says [`Prospect::Alone`] of an id that the entity lacks, and in which each entity lives, else it says
/// [`Prospect::Open`]. What is known of the id is not asked again.
#[inline(always)]
#[tactic(auto, using(crate::proofs::Plain::head_lives))]
pub fn comes_alone<H: Holdings>(holdings: &H, entity: Entity, id: Id) -> bool
    requires alive { IsTrue (lives (H.world holdings.now) entity) }
    requires living { world.names_living (H.world holdings.now) id ≡ true }
    requires absent { world.has (H.world holdings.now) entity id ≡ false }
    requires sound { IsSound (H.world holdings.now) }
    ensures { MatchBool result (Foresees (H.world holdings.now) entity id Alone)
        (Foresees (H.world holdings.now) entity id Open) }
{
    // The entity's ids ascend, so that the id has one place among them.
    let _own = holdings.type_of(entity).unwrap().as_slice();
    let traits = holdings.type_of(head_of(id)).unwrap();
    is_plain(holdings.edition(), id, traits)
}

// The ids that say how the id behaves: those of the entity of a single id, or of the relationship of a pair; none where an
// entity in the id isn't living.
#[inline(always)]
fn traits_of<H: Holdings>(holdings: &H, id: Id) -> Option<&TypeList>
    ensures living { is_some result ≡ world.names_living (H.world holdings.now) id }
    ensures traits { IfSome result (λ ids. Some ids.now
        ≡ type_of_entity (H.world holdings.now) (head_of id)) }
{
    match id {
        Id::One(entity) => holdings.type_of(entity),
        Id::Two(relationship, target) => {
            if holdings.type_of(target).is_some() {
                holdings.type_of(relationship)
            } else {
                None
            }
        }
    }
}

// Whether the id comes alone, replaces nothing, and nothing stands against it, as with most tags, components and pairs.
#[inline(always)]
fn is_plain(edition: Edition, id: Id, traits: &TypeList) -> bool
    ensures { IsTrue result ↔ IsPlain edition id traits.now }
{
    match id {
        Id::One(single) => is_no_trait(edition, single) && !brings_any(traits),
        Id::Two(relationship, _) => {
            !is_wrong_policy(id)
                && !has_trait(edition, traits)
                && !(edition.has_symmetric() && relationship.is(WITH))
        }
    }
}

// Whether the entity is no trait that may come too late.
#[inline(always)]
pub(crate) fn is_no_trait(edition: Edition, single: Entity) -> bool
    ensures { IsTrue result ↔ IsNoTrait edition single }
{
    !single.is(EXCLUSIVE) && !single.is(ACYCLIC) && !is_symmetric(edition, single)
}

// Whether it is Symmetric, of an edition that has it.
#[inline(always)]
fn is_symmetric(edition: Edition, single: Entity) -> bool
    ensures { result ≡ (has_symmetric edition && entity_eq single SYMMETRIC_DATA) }
{
    edition.has_symmetric() && single.is(SYMMETRIC)
}

// Whether one of the ids says how pairs behave.
#[inline(always)]
fn has_trait(edition: Edition, ids: &TypeList) -> bool
    ensures { IsFalse result ↔ LacksTraits edition ids.now }
{
    any_trait(edition, ids.as_slice())
}

// The same of a list, in one pass.
fn any_trait(edition: Edition, ids: &[Id]) -> bool
    ensures { result ≡ list_any (is_trait edition) ids.now }
{
    ids.iter().any(|id| is_trait(edition, *id))
}

// Whether the id says how pairs behave.
fn is_trait(edition: Edition, id: Id) -> bool
    ensures { result ≡ is_trait edition id }
{
    match id {
        Id::One(single) => {
            single.is(EXCLUSIVE)
                || single.is(ACYCLIC)
                || (edition.has_symmetric() && single.is(SYMMETRIC))
        }
        Id::Two(relationship, _) => relationship.is(WITH),
    }
}
