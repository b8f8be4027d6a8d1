//! Slots that lie close together, with the place of each.
ghost use Rattle.std.specs.Prelude.{◌≡◌, ◌+◌, ◌<◌, ◌≤◌, ◌&&◌, ◌++◌, ◌∷◌, ℕ, [], cond, true, false, nat_eq, length, slice_index};
ghost use Rattle.std.specs.Prelude.{IsTrue, ◌↔◌, IfOk, OnOk, OnErr, IfSome, IfNone, MatchOption};
ghost use Rattle.std.specs.List.{list_any, IsDistinct};
ghost use Rattle.eco_index.specs.IdIndex.{TurnsSlot};
ghost use Rattle.eco_index.specs.SlotList.{KeepsPlaces, lies_close};

use crate::occupancy::Occupancy;
use eco_ids::TableSlot;
use std::alloc::{AllocError, Global};
use std::marker::Model;

// So many places may be kept for each slot.
const SPREAD: usize = 4;

// So many places may be kept of few slots.
const FEW_PLACES: usize = 64;

/// Slots, each once, whose places are kept: so one that comes or goes is neither hashed nor searched for.
///
/// A contract sees the list of the slots, and the one before which none of them lies.
pub struct SlotList {
    first: TableSlot,
    slots: Vec<TableSlot>,
    // Where a slot stands, if it is one of them, by how far it lies from the first.
    places: Vec<usize>,
}

// By hand, so that dropping it is one call: a derived drop is proved anew at each early return of whoever holds it.
impl Drop for SlotList {
    fn drop(self) {
        let SlotList {
            first: _,
            slots: _,
            places: _,
        } = self;
    }
}

impl Model for SlotList {
    ghost use Rattle.eco_index.specs.SlotList.{SlotListModel, LeadToPlaces};

    ghost Value = { SlotListModel };

    ghost view = { λ l. record { first = l.first; slots = l.slots.items } };

    ghost invariant = { λ l. LeadToPlaces l.first l.slots.items l.places.items };
}

impl SlotList {
    /// No slot, and none comes that lies before this one.
    pub fn new(alloc: Global, first: TableSlot) -> SlotList
        ensures { result ≡ record { first = first; slots = [] } }
    {
        SlotList {
            first,
            slots: Vec::new(alloc),
            places: Vec::new(alloc),
        }
    }

    /// The slots, each once.
    #[inline]
    pub fn as_slice(&self) -> &[TableSlot]
        ensures slots { result.now ≡ self.now.slots }
        ensures distinct { IsDistinct nat_eq self.now.slots }
    {
        self.slots.as_slice()
    }

    /// Where the slot stands, if it is one of them.
    #[inline]
    pub fn place(&self, slot: TableSlot) -> Option<usize>
        ensures within { IfSome result (λ i. i < length self.now.slots) }
        ensures there { IfSome result (λ i. slice_index self.now.slots i ≡ slot) }
        ensures none { IfNone result (list_any (nat_eq slot) self.now.slots ≡ false) }
    {
        let place = self.noted(slot);
        if self.has_at(place, slot) {
            Some(place)
        } else {
            None
        }
    }

    // Where the slot stands. Of one that is not there it says nothing.
    #[inline]
    fn noted(&self, slot: TableSlot) -> usize
        ensures { (i : ℕ) → i < length self.now.slots → slice_index self.now.slots i ≡ slot
            → result ≡ i }
    {
        if slot < self.first {
            return 0;
        }
        let away = slot - self.first;
        if away < self.places.len() {
            self.places[away]
        } else {
            0
        }
    }

    // Whether the slot stands at this place.
    #[inline]
    fn has_at(&self, place: usize, slot: TableSlot) -> bool
        ensures { IsTrue result
            ↔ ((place < length self.now.slots) × (slice_index self.now.slots place ≡ slot)) }
    {
        place < self.slots.len() && self.slots[place] == slot
    }

    /// The slot comes to the others, unless it lies too far from them. The answer is whether it came. An `Err` comes where memory
    /// is refused, and changes nothing.
    #[inline]
    pub fn offer(&mut self, slot: TableSlot) -> Result<bool, AllocError>
        requires { list_any (nat_eq slot) self.old.slots ≡ false }
        ensures close { IfOk result (λ came. came
            ≡ lies_close self.old.first slot (length self.old.slots)) }
        ensures ok { IfOk result (λ came. self.new.slots
            ≡ cond came (self.old.slots ++ slot ∷ []) self.old.slots) }
        ensures first { self.new.first ≡ self.old.first }
        ensures err { OnErr result (self.new ≡ self.old) }
    {
        let place = self.slots.len();
        let Some(away) = way_to(self.first, slot, place) else {
            return Ok(false);
        };
        cover(&mut self.places, away)?;
        self.slots.push(slot)?;
        self.places[away] = place;
        Ok(true)
    }

    /// Takes the slot from the others, if it is one of them. It takes no memory.
    pub fn take(&mut self, slot: TableSlot)
        ensures taken { TurnsSlot false self.old.slots self.new.slots slot }
        ensures fewer { length self.old.slots ≤ length self.new.slots + 1 }
        ensures same { list_any (nat_eq slot) self.old.slots ≡ false → self.new ≡ self.old }
        ensures first { self.new.first ≡ self.old.first }
    {
        if let Some(place) = self.place(slot) {
            self.take_at(place);
        }
    }

    // Takes the slot at a place from the others. The last one comes in its place.
    fn take_at(&mut self, place: usize)
        requires { place < length self.old.slots }
        ensures taken { TurnsSlot false self.old.slots self.new.slots
            (slice_index self.old.slots place) }
        ensures before { (i : ℕ) → i < place
            → slice_index self.new.slots i ≡ slice_index self.old.slots i }
        ensures fewer { length self.new.slots + 1 ≡ length self.old.slots }
        ensures first { self.new.first ≡ self.old.first }
    {
        self.slots.swap_remove(place);
        if place < self.slots.len() {
            let away = self.slots[place] - self.first;
            self.places[away] = place;
        }
    }

    /// The slots without a table go. It takes no memory.
    pub fn keep_there<T: Occupancy>(&mut self, tables: &T)
        ensures left { (n : ℕ) → list_any (nat_eq n) self.new.slots
            ≡ (list_any (nat_eq n) self.old.slots && T.has_table tables.now n) }
        ensures first { self.new.first ≡ self.old.first }
    {
        let mut place = 0;
        while place < self.slots.len() {
            if tables.has_table(self.slots[place]) {
                place += 1;
            } else {
                self.take_at(place);
            }
        }
    }
}

// How far the slot lies from the first, if it lies so close that it may come to so many others.
#[inline]
fn way_to(first: TableSlot, slot: TableSlot, count: usize) -> Option<usize>
    ensures { MatchOption result (lies_close first slot count ≡ false)
        (λ away. (lies_close first slot count ≡ true) × (slot ≡ first + away)) }
{
    let away = slot.checked_sub(first)?;
    if away < FEW_PLACES || away / SPREAD <= count {
        Some(away)
    } else {
        None
    }
}

// Places up to this one, of which those that were there stay.
#[inline]
fn cover(places: &mut Vec<usize>, last: usize) -> Result<(), AllocError>
    ensures kept { KeepsPlaces places.old.items places.new.items }
    ensures enough { OnOk result (last < length places.new.items) }
{
    while places.len() <= last {
        places.push(0)?;
    }
    Ok(())
}

impl Clone for SlotList {
    ghost is_clone = { λ slots copy. copy ≡ slots };

    fn clone(&self) -> Result<SlotList, AllocError> {
        let slots = self.slots.clone()?;
        let places = self.places.clone()?;
        Ok(SlotList {
            first: self.first,
            slots,
            places,
        })
    }
}
