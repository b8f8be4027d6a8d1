//! What a walk leads to, where that is little.
ghost use Rattle.std.specs.Prelude.{◌≡◌, ◌<◌, ◌∷◌, [], IfNone, IfSome, OnSome, length, slice_get};
ghost use Rattle.eco_ids.specs.Order.{entity_cmp, has_item};
ghost use Rattle.eco_traits.specs.Target.{IsReach};
ghost use Rattle.eco_traits.specs.Walk.{LeadsFar, targets_of, with_others};

use crate::holdings::Holdings;
use crate::walk::target_by;
use eco_ids::{Entity, Id};
use std::marker::Model;

/// As many entities as a short walk may lead to.
const FEW: usize = 8;

/// At most eight entities, each once, in the order in which a walk met them. They take no memory.
///
/// A contract sees the list of entities.
#[derive(Drop)]
pub(crate) struct FewReached {
    // The first of these, as many as `count`; the others stand for nobody.
    entities: [Entity; FEW],
    count: usize,
}

impl Model for FewReached {
    ghost use Rattle.std.specs.Prelude.{◌≤◌, List, take};
    ghost use Rattle.eco_ids.specs.declared.entity.Entity.{Entity};

    ghost Value = { List Entity };

    ghost view = { λ few. take few.count few.entities };

    ghost invariant = { λ few. few.count ≤ 8 };
}

impl FewReached {
    // The entity alone.
    fn of(entity: Entity) -> FewReached
        ensures { result ≡ entity ∷ [] }
    {
        FewReached {
            entities: [entity; FEW],
            count: 1,
        }
    }

    /// The entities.
    pub(crate) fn as_slice(&self) -> &[Entity]
        ensures { result.now ≡ self.now }
    {
        &self.entities[..self.count]
    }

    // The entity at a place, if there are so many.
    fn get(&self, place: usize) -> Option<Entity>
        ensures there { result ≡ slice_get self.now place }
        ensures few { IfSome result (λ _. place < FEW) }
    {
        if place < self.count {
            return Some(self.entities[place]);
        }
        None
    }

    // Whether the entity is there.
    fn has(&self, entity: Entity) -> bool
        ensures { result ≡ has_item entity_cmp self.now entity }
    {
        self.as_slice().iter().any(|one| one.is(entity))
    }

    // The entity is noted, unless it is there. No answer where it is not, and there are eight.
    fn note(&mut self, entity: Entity) -> Option<()>
        ensures noted { OnSome result (self.new ≡ with_others self.old (entity ∷ [])) }
        ensures full { IfNone result (FEW < length (with_others self.old (entity ∷ []))) }
    {
        if self.has(entity) {
            return Some(());
        }
        if self.count == FEW {
            return None;
        }
        self.entities[self.count] = entity;
        self.count += 1;
        Some(())
    }
}

/// What [`reached`](crate::walk::reached) answers, in the order of the walk and without memory, where that is at most eight
/// entities; no answer where it is more.
pub(crate) fn few_reached<H: Holdings>(
    holdings: &H,
    relationship: Entity,
    from: Entity,
) -> Option<FewReached>
    ensures all { IfSome result (IsReach (H.world holdings.now) relationship from) }
    ensures far { IfNone result (LeadsFar (H.world holdings.now) relationship from) }
{
    let mut few = FewReached::of(from);
    let mut asked = 0;
    while let Some(entity) = few.get(asked) {
        if let Some(ids) = holdings.type_of(entity) {
            note_targets(&mut few, ids.as_slice(), relationship)?;
        }
        asked += 1;
    }
    Some(few)
}

// The targets of the pairs of the relationship among the ids are noted. No answer where there are more than eight then.
fn note_targets(few: &mut FewReached, ids: &[Id], relationship: Entity) -> Option<()>
    ensures noted { OnSome result (few.new ≡ with_others few.old (targets_of relationship ids.now)) }
    ensures full { IfNone result (FEW < length (with_others few.old (targets_of relationship ids.now))) }
{
    for id in ids {
        if let Some(target) = target_by(*id, relationship) {
            few.note(target)?;
        }
    }
    Some(())
}
