//! Where the living are kept, lent for a walk over many indices.
ghost use Rattle.std.specs.Prelude.{◌≡◌, ◌<◌, IfSome, IsSome, length, option_and_then, option_map};
ghost use Rattle.eco_entities.specs.Registration.{entity_at, own_place};

use crate::labels::Labels;
use crate::place::Place;
use crate::slot::Slot;
use eco_ids::Entity;
use std::marker::Model;

/// Who lives at each index and where it is kept, lent by an [`EntityIndex`](crate::EntityIndex). A contract sees what it sees
/// of the index. A walk that holds this in place of the index need not find the list of slots anew after each write.
#[derive(Drop)]
pub struct Homes<'a> {
    limit: u32,
    slots: &'a [Slot],
    // For contracts alone: the names are a part of what an index shows.
    labels: &'a Labels,
}

impl<'a> Model for Homes<'a> {
    ghost use Rattle.eco_ids.specs.Indices.{Indexed};
    ghost use Rattle.eco_entities.specs.Registration.{Registration};
    ghost use Rattle.eco_entities.specs.Slots.{states};
    ghost use Rattle.eco_entities.specs.Labels.{label_of};

    ghost Value = { Indexed Registration };

    ghost view = { λ h. record { limit = h.limit; indices = states (label_of h.labels.now) h.slots.now } };
}

impl<'a> Homes<'a> {
    ghost use Rattle.eco_entities.specs.Slots.{states};
    ghost use Rattle.eco_entities.specs.Labels.{label_of};

    /// What these slots and names show.
    #[inline]
    pub(crate) fn of(limit: u32, slots: &'a [Slot], labels: &'a Labels) -> Homes<'a>
        ensures limit { result.limit ≡ limit }
        ensures indices { result.indices ≡ states (label_of labels.now) slots.now }
    {
        Homes {
            limit,
            slots,
            labels,
        }
    }

    /// Who lives at a known index, which has a place if somebody does, and the place.
    #[inline]
    pub fn at(&self, index: u32) -> Option<(Entity, Place)>
        requires known { index < length self.now.indices }
        requires placed { IfSome (entity_at self.now index) (λ e. IsSome (own_place self.now e)) }
        ensures { result ≡ option_and_then (λ e. option_map (λ p. (e, p)) (own_place self.now e))
            (entity_at self.now index) }
    {
        let slot = &self.slots[index as usize];
        if !slot.is_living() {
            return None;
        }
        let entity = Entity {
            index,
            generation: slot.generation(),
        };
        Some((entity, slot.seat()))
    }
}
