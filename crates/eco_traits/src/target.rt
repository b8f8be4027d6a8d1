//! The type that an add leads to.
ghost use Rattle.std.specs.Prelude.{◌≡◌, ◌↔◌, ◌&&◌, false, IfOk, IfSome, IsFalse, IsTrue, Some, filter, find, fold};
ghost use Rattle.std.specs.Prelude.{is_some, not, option_map, true, unwrap_or};
ghost use Rattle.std.specs.List.{list_any};
ghost use Rattle.eco_ids.specs.Outcome.{is_out_of_memory};
ghost use Rattle.eco_ids.specs.World.{has, is_alive as lives, record_of};
ghost use Rattle.eco_ids.specs.declared.id.Id.TheVariants.{One, Two};
ghost use Rattle.eco_ids.specs.Order.{has_item, id_cmp, id_eq, is_ascending, with_item};
ghost use Rattle.eco_ids.specs.Step as step;
ghost use Rattle.eco_ids.specs.World as world;
ghost use Rattle.eco_traits.specs.Closure.{head_of};
ghost use Rattle.eco_ids.specs.Traits.{Reaches};
ghost use Rattle.eco_traits.specs.Target.{FindsTarget, FindsType, is_own_type, IsAmong, IsOpenAdd, IsSound, TakesOwn, Replaces};
ghost use Rattle.eco_traits.specs.Target.{extended_by, left_by, target_by, without_replaced, ties, type_of_entity};

use crate::brought::{comes_freely, free_heads, put_all, with_brought};
use crate::holdings::Holdings;
use crate::implied::{closure_by, head_of, with_heads};
use crate::pair_traits::PairTraits;
use crate::prospect::{Prospect, foresee};
use crate::verdict::{is_among, is_wrong_policy, verdict};
use crate::walk::{has, has_pair_of, is_pair_of, may_reach};
use eco_ids::entity::{ACYCLIC, EXCLUSIVE, SYMMETRIC, WITH};
use eco_ids::{Entity, Id, Refusal, TypeList};
use std::alloc::{AllocError, Global};

/// The type that an add leads to. A list of ids is made only where it is none of the first two.
#[derive(Drop)]
pub enum Target {
    /// The type that the entity has: the id is there already.
    Own,
    /// The type that the entity has, and the id alone.
    With,
    /// The type that the entity has, and the id in the place of this one, which it has.
    Instead(Id),
    /// Another type.
    Other(TypeList),
}

/// The type that a living entity has once an id was added to it: its own where it has the id already, else what it had and
/// the closure of the id, without the other pairs of each exclusive relationship of which the closure has a pair (Flecs
/// manual, Relationships, "Exclusive relationships").
///
/// It is refused, in this order, where
/// - [`Refusal::DeadId`]: an entity in the id isn't living; whatever else stands against it counts only where the entity
///   lacks the id;
/// - [`Refusal::NotAPolicy`]: a pair of OnDelete or OnDeleteTarget in the closure has another target than Remove, Delete
///   and Panic;
/// - [`Refusal::InUse`]: Exclusive or Acyclic is in the closure, the entity lacks it, and some living entity has a pair
///   with the entity as relationship; likewise Symmetric, where relationships may be symmetric;
/// - [`Refusal::Cycle`]: for a pair (R, T) in the closure, R is acyclic, and T is the entity or a walk of pairs of R leads
///   from T to it. It names the least such R;
/// - [`Refusal::TraitClash`]: a symmetric relationship would be exclusive, acyclic or tied to another by With;
/// - [`Refusal::OutOfMemory`]: no memory is to be had for the closure, for a walk or for the new list. An id that is there
///   already wants none.
pub fn target_type<H: Holdings>(
    alloc: Global,
    holdings: &H,
    entity: Entity,
    id: Id,
) -> Result<Target, Refusal>
    requires alive { IsTrue (lives (H.world holdings.now) entity) }
    requires sound { IsSound (H.world holdings.now) }
    ensures target { FindsTarget (H.world holdings.now) entity id result }
    ensures own { IfOk result (λ target. is_own_type target ≡ has (H.world holdings.now) entity id) }
    ensures there { IfOk result (TakesOwn (H.world holdings.now) entity) }
    ensures memory { IsTrue (is_out_of_memory result) → has (H.world holdings.now) entity id ≡ false }
{
    match foresee(holdings, entity, id) {
        Prospect::Dead => Err(Refusal::DeadId),
        Prospect::There => Ok(Target::Own),
        Prospect::Alone => Ok(Target::With),
        Prospect::Open => open_target(alloc, holdings, entity, id),
    }
}

/// What [`target_type`] answers for an id of which no more than [`Prospect::Open`] is foreseen: the entity lacks it, and
/// each entity in it lives. It is refused as there.
#[inline(always)]
pub fn open_target<H: Holdings>(
    alloc: Global,
    holdings: &H,
    entity: Entity,
    id: Id,
) -> Result<Target, Refusal>
    requires alive { IsTrue (lives (H.world holdings.now) entity) }
    requires living { world.names_living (H.world holdings.now) id ≡ true }
    requires absent { has (H.world holdings.now) entity id ≡ false }
    requires sound { IsSound (H.world holdings.now) }
    ensures target { FindsTarget (H.world holdings.now) entity id result }
    ensures own { IfOk result (λ target. is_own_type target ≡ has (H.world holdings.now) entity id) }
    ensures there { IfOk result (TakesOwn (H.world holdings.now) entity) }
{
    let Some(replaced) = short_target(holdings, entity, id) else {
        let ids = closed_type(alloc, holdings, entity, id)?;
        return Ok(Target::Other(ids));
    };
    let Some(old) = replaced else {
        return Ok(Target::With);
    };
    Ok(Target::Instead(old))
}

/// What [`open_target`] answers where the holder's own type and those of a pair's entities tell it at a look: the id whose
/// place the pair takes ([`Target::Instead`]), or none ([`Target::With`]). A pair of an exclusive relationship mostly takes the
/// place of one other pair, and nothing else has to be known for that.
///
/// No answer where it takes more than such a look, as for each single id; [`closed_type`] tells it then.
#[inline(always)]
pub fn short_target<H: Holdings>(holdings: &H, entity: Entity, id: Id) -> Option<Option<Id>>
    requires alive { IsTrue (lives (H.world holdings.now) entity) }
    requires living { world.names_living (H.world holdings.now) id ≡ true }
    requires absent { has (H.world holdings.now) entity id ≡ false }
    requires sound { IsSound (H.world holdings.now) }
    ensures target { IfSome result
        (λ replaced. FindsTarget (H.world holdings.now) entity id (Ok (target_by replaced))) }
    ensures there { IfSome result
        (λ replaced. TakesOwn (H.world holdings.now) entity (target_by replaced)) }
{
    let Id::Two(relationship, target) = id else {
        return None;
    };
    let own = holdings.type_of(entity).unwrap();
    let traits = holdings.type_of(relationship).unwrap();
    short_way(holdings, entity, own, relationship, target, traits)
}

/// The type of [`open_target`]'s answer, for any id, from all that the id brings along. It is refused as there.
#[inline(never)]
#[tactic(auto, using(crate::proofs::Plain::head_lives))]
pub fn closed_type<H: Holdings>(
    alloc: Global,
    holdings: &H,
    entity: Entity,
    id: Id,
) -> Result<TypeList, Refusal>
    requires alive { IsTrue (lives (H.world holdings.now) entity) }
    requires living { world.names_living (H.world holdings.now) id ≡ true }
    requires absent { has (H.world holdings.now) entity id ≡ false }
    requires sound { IsSound (H.world holdings.now) }
    ensures { FindsType (H.world holdings.now) entity id result }
{
    let own = holdings.type_of(entity).unwrap();
    let traits = holdings.type_of(head_of(id)).unwrap();
    match id {
        Id::One(single) => single_type(alloc, holdings, entity, own, single, traits),
        Id::Two(..) => judged_type(alloc, holdings, entity, own, id, traits),
    }
}

// What `closed_type` does with a single id once it knows the types. Mostly it brings others along, and no more than that has
// to be known.
fn single_type<H: Holdings>(
    alloc: Global,
    holdings: &H,
    entity: Entity,
    own: &TypeList,
    single: Entity,
    traits: &TypeList,
) -> Result<TypeList, Refusal>
    requires { IsOpenAdd (H.world holdings.now) entity (One single) own.now traits.now }
    ensures { FindsType (H.world holdings.now) entity (One single) result }
{
    if comes_freely(holdings, single, traits.as_slice()) {
        return Ok(with_brought(alloc, own, single, traits.as_slice())?);
    }
    far_type(alloc, holdings, entity, own, single, traits)
}

// What `single_type` does where what the id brings may bring more, or something may stand against it. It stands apart, so that
// the short way keeps no room for what it notes.
#[cold]
#[inline(never)]
fn far_type<H: Holdings>(
    alloc: Global,
    holdings: &H,
    entity: Entity,
    own: &TypeList,
    single: Entity,
    traits: &TypeList,
) -> Result<TypeList, Refusal>
    requires { IsOpenAdd (H.world holdings.now) entity (One single) own.now traits.now }
    ensures { FindsType (H.world holdings.now) entity (One single) result }
{
    if let Some(heads) = free_heads(holdings, single) {
        let coming = with_heads(alloc, Id::One(single), heads.as_slice())?;
        return Ok(joined(own, coming)?);
    }
    judged_type(alloc, holdings, entity, own, Id::One(single), traits)
}

// The pair that a new pair replaces, or none, where that is all that the new one does, and nothing stands against it. No
// answer where that takes more than a look at these types: the pair brings others along, replaces several, names
// no action, ties a symmetric relationship to another, or may close a cycle.
#[inline(always)]
fn short_way<H: Holdings>(
    holdings: &H,
    entity: Entity,
    own: &TypeList,
    relationship: Entity,
    target: Entity,
    traits: &TypeList,
) -> Option<Option<Id>>
    requires { IsOpenAdd (H.world holdings.now) entity (Two relationship target) own.now traits.now }
    ensures among { IfSome result (IsAmong own.now) }
    ensures replaces { IfSome result
        (λ replaced. Replaces (H.world holdings.now) entity (Two relationship target) own.now replaced) }
{
    if is_wrong_policy(Id::Two(relationship, target)) {
        return None;
    }
    if ties_symmetric(holdings, own, relationship, target) {
        return None;
    }
    let told = PairTraits::of(traits.as_slice());
    if told.brings {
        return None;
    }
    if may_close(holdings, entity, relationship, target, told.is_acyclic) {
        return None;
    }
    let replaced = replaced_by(own, relationship, told.is_exclusive)?;
    Some(replaced)
}

// Whether a pair ties a symmetric relationship to another by With.
fn ties_symmetric<H: Holdings>(
    holdings: &H,
    own: &TypeList,
    relationship: Entity,
    target: Entity,
) -> bool
    ensures { result ≡ ties (H.world holdings.now) own.now relationship target }
{
    holdings.edition().has_symmetric()
        && relationship.is(WITH)
        && (own.has(Id::One(SYMMETRIC)) || has(holdings, target, Id::One(SYMMETRIC)))
}

// Whether a pair of a relationship that is acyclic, or not, may close a cycle at the entity, as far as that is known without a
// walk.
fn may_close<H: Holdings>(
    holdings: &H,
    entity: Entity,
    relationship: Entity,
    target: Entity,
    is_acyclic: bool,
) -> bool
    ensures { IsFalse result → IsTrue is_acyclic
        → Reaches (H.world holdings.now) relationship target entity → ⊥ }
{
    is_acyclic && may_reach(holdings, relationship, target, entity)
}

// The pair among the ids that one more pair of the relationship replaces, if that is exclusive, or none; no answer where there
// are several.
fn replaced_by(own: &TypeList, relationship: Entity, is_exclusive: bool) -> Option<Option<Id>>
    ensures left { IfSome result (λ replaced. without_replaced replaced own.now ≡ filter
        (λ id. not (is_exclusive && step.is_pair_of relationship id)) own.now) }
    ensures among { IfSome result (IsAmong own.now) }
    ensures ascending { IsTrue (is_ascending id_cmp own.now) }
{
    let ids = own.as_slice();
    if !is_exclusive {
        return Some(None);
    }
    let Some(first) = first_pair_of(ids, relationship) else {
        return Some(None);
    };
    if has_other_pair_of(ids, relationship, first) {
        return None;
    }
    Some(Some(first))
}

// The first pair of the relationship among the ids.
fn first_pair_of(ids: &[Id], relationship: Entity) -> Option<Id>
    ensures { result ≡ find (step.is_pair_of relationship) ids.now }
{
    ids.iter().copied().find(|id| is_pair_of(*id, relationship))
}

// Whether one of the ids is a pair of the relationship, and not this one.
fn has_other_pair_of(ids: &[Id], relationship: Entity, first: Id) -> bool
    ensures { result ≡ list_any (λ id. step.is_pair_of relationship id && not (id_eq id first)) ids.now }
{
    ids.iter()
        .any(|id| is_pair_of(*id, relationship) && !id.is(first))
}

// The type that an absent id leads to, once all that stands against its closure was asked. Mostly a pair goes the
// short way and a single id comes freely, so this stands apart from both.
#[cold]
#[inline(never)]
fn judged_type<H: Holdings>(
    alloc: Global,
    holdings: &H,
    entity: Entity,
    own: &TypeList,
    added: Id,
    traits: &TypeList,
) -> Result<TypeList, Refusal>
    requires { IsOpenAdd (H.world holdings.now) entity added own.now traits.now }
    ensures { FindsType (H.world holdings.now) entity added result }
{
    let coming = closure_by(alloc, holdings, added, traits.as_slice())?;
    if let Some(refusal) = verdict(alloc, holdings, entity, added, coming.as_slice())? {
        return Err(refusal);
    }
    Ok(extended(holdings, own, coming)?)
}

// What the closure does not replace, and the closure.
fn extended<H: Holdings>(
    holdings: &H,
    own: &TypeList,
    coming: TypeList,
) -> Result<TypeList, AllocError>
    ensures ids { IfOk result (λ ids. ids ≡ extended_by (H.world holdings.now) coming own.now) }
    ensures ascending { IsTrue (is_ascending id_cmp own.now) }
{
    let kept = kept(holdings, own, coming.as_slice())?;
    joined(kept.as_ref().unwrap_or(own), coming)
}

// What the closure does not replace; none, where that is all.
fn kept<H: Holdings>(
    holdings: &H,
    own: &TypeList,
    coming: &[Id],
) -> Result<Option<TypeList>, AllocError>
    ensures kept { IfOk result (λ ids. unwrap_or ids own.now
        ≡ left_by (H.world holdings.now) coming.now own.now) }
    ensures ascending { IsTrue (is_ascending id_cmp own.now) }
{
    let mut kept: Option<TypeList> = None;
    for id in own.as_slice() {
        if is_replaced(holdings, coming, *id) {
            kept = Some(kept.as_ref().unwrap_or(own).without(*id)?);
        }
    }
    Ok(kept)
}

// The closure has a pair of the same relationship, which is exclusive, and not this one. What takes least is asked first.
fn is_replaced<H: Holdings>(holdings: &H, coming: &[Id], id: Id) -> bool
    ensures { result ≡ step.is_replaced (H.world holdings.now) coming.now id }
{
    let Id::Two(relationship, _) = id else {
        return false;
    };
    has_pair_of(coming, relationship)
        && !is_among(coming, id)
        && has(holdings, relationship, Id::One(EXCLUSIVE))
}

// The ids, and those that come. Either way it is the same list, so the fewer are put among the others.
fn joined(ids: &TypeList, coming: TypeList) -> Result<TypeList, AllocError>
    ensures ids { IfOk result (λ all. all ≡ fold (with_item id_cmp) ids.now coming) }
    ensures ascending { IsTrue (is_ascending id_cmp ids.now) }
{
    let own = ids.as_slice();
    if own.len() < coming.as_slice().len() {
        return with_all(coming, own);
    }
    with_all(ids.try_copy()?, coming.as_slice())
}

// The list with each of the ids in its place.
fn with_all(mut list: TypeList, ids: &[Id]) -> Result<TypeList, AllocError>
    ensures { IfOk result (λ all. all ≡ fold (with_item id_cmp) list ids.now) }
{
    put_all(&mut list, ids)?;
    Ok(list)
}
