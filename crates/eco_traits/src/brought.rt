//! A single id that comes with what it brings along.
ghost use Rattle.std.specs.Prelude.{◌≡◌, ◌↔◌, ◌⊎◌, fold, IfNone, IfOk, IfSome, IsTrue, OnOk};
ghost use Rattle.eco_ids.specs.declared.entity.Entity.{Entity as EntityData};
ghost use Rattle.eco_ids.specs.declared.entity.TheConstants.{WITH as WITH_DATA};
ghost use Rattle.eco_ids.specs.declared.id.Id.TheVariants.{Two};
ghost use Rattle.eco_ids.specs.Order.{id_cmp, is_ascending, with_item};
ghost use Rattle.eco_traits.specs.Closure.{HasBrought, LacksWith};
ghost use Rattle.eco_traits.specs.Target.{AreFreeHeads, AreNoTraits, BringFreely, BringsTrait, ComesFreely, IsNoTrait};
ghost use Rattle.eco_traits.specs.Walk.{LeadsFar};

use crate::few::{FewReached, few_reached};
use crate::holdings::Holdings;
use crate::implied::has_with;
use crate::prospect::is_no_trait;
use crate::walk::target_by;
use eco_ids::entity::WITH;
use eco_ids::{Edition, Entity, FEW_IDS, Id, TypeList};
use std::alloc::{AllocError, Global};

/// Whether a single id and what it brings come to any entity, whatever that has, where these are the ids of its own: none of
/// them is a trait that may come too late, and what it brings brings nothing more. It is so with most that bring others.
#[inline(always)]
pub(crate) fn comes_freely<H: Holdings>(holdings: &H, single: Entity, traits: &[Id]) -> bool
    ensures { IsTrue result ↔ ComesFreely (H.world holdings.now) single traits.now }
{
    is_no_trait(holdings.edition(), single) && bring_freely(holdings, traits)
}

// Whether what the ids bring is no such trait, and brings nothing more.
#[inline(always)]
fn bring_freely<H: Holdings>(holdings: &H, ids: &[Id]) -> bool
    ensures { IsTrue result ↔ BringFreely (H.world holdings.now) ids.now }
{
    for id in ids {
        if !brings_freely(holdings, *id) {
            return false;
        }
    }
    true
}

// The same of one id.
#[inline(always)]
fn brings_freely<H: Holdings>(holdings: &H, id: Id) -> bool
    ensures { IsTrue result ↔ ((x : EntityData) → id ≡ Two WITH_DATA x
        → IsNoTrait (H.world holdings.now).edition x × LacksWith (H.world holdings.now) x) }
{
    match target_by(id, WITH) {
        Some(target) => is_no_trait(holdings.edition(), target) && !has_with(holdings, target),
        None => true,
    }
}

/// A single entity and all that it brings along, however far, where none of it is a trait that may come too late: so it comes
/// to any entity, whatever that has.
///
/// No answer where one is such a trait, or where they are more than a short walk leads to ([`few_reached`]).
pub(crate) fn free_heads<H: Holdings>(holdings: &H, single: Entity) -> Option<FewReached>
    ensures free { IfSome result (AreFreeHeads (H.world holdings.now) single) }
    ensures none { IfNone result
        (LeadsFar (H.world holdings.now) WITH_DATA single ⊎ BringsTrait (H.world holdings.now) single) }
{
    let heads = few_reached(holdings, WITH, single)?;
    if !are_no_traits(holdings.edition(), heads.as_slice()) {
        return None;
    }
    Some(heads)
}

// Whether none of the entities is a trait that may come too late.
fn are_no_traits(edition: Edition, entities: &[Entity]) -> bool
    ensures { IsTrue result ↔ AreNoTraits edition entities.now }
{
    for entity in entities {
        if !is_no_trait(edition, *entity) {
            return false;
        }
    }
    true
}

/// The ids, the single one, and the target of each pair of With among its own.
#[inline(always)]
pub(crate) fn with_brought(
    alloc: Global,
    ids: &TypeList,
    single: Entity,
    traits: &[Id],
) -> Result<TypeList, AllocError>
    ensures members { IfOk result (λ all. HasBrought all ids.now single traits.now) }
    ensures up { IfOk result (λ all. IsTrue (is_ascending id_cmp all)) }
    ensures ascending { IsTrue (is_ascending id_cmp ids.now) }
{
    let own = ids.as_slice();
    if own.len() > FEW_IDS {
        let mut all = ids.try_copy()?;
        put_brought(&mut all, single, traits)?;
        return Ok(all);
    }
    // So few are put in one after the other: to copy the list would cost more.
    let mut all = TypeList::empty(alloc);
    put_all(&mut all, own)?;
    put_brought(&mut all, single, traits)?;
    Ok(all)
}

/// Each of the ids joins the list.
#[inline(always)]
pub(crate) fn put_all(list: &mut TypeList, ids: &[Id]) -> Result<(), AllocError>
    ensures { OnOk result (list.new ≡ fold (with_item id_cmp) list.old ids.now) }
{
    for id in ids {
        list.insert(*id)?;
    }
    Ok(())
}

// The single id joins the list, and the target of each pair of With among these.
#[inline(always)]
fn put_brought(list: &mut TypeList, single: Entity, traits: &[Id]) -> Result<(), AllocError>
    ensures { OnOk result (HasBrought list.new list.old single traits.now) }
{
    list.insert(Id::One(single))?;
    for id in traits {
        if let Some(target) = target_by(*id, WITH) {
            list.insert(Id::One(target))?;
        }
    }
    Ok(())
}
