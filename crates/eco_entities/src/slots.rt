//! The known indices: which of them live, are free or retired, and what is kept of the living.
ghost use Rattle.std.specs.Prelude.{◌≡◌, ℕ, ◌+◌, ◌≤◌, ◌<◌, ◌&&◌, false, nat_lt, [], ◌++◌, replicate, vec_len};
ghost use Rattle.std.specs.Prelude.{vec_capacity, length, slice_get, IsSome, IsTrue, IsFalse, OnOk, OnErr, IfOk, IfSome};
ghost use Rattle.std.specs.Prelude.{IfNone, Some, None, option_map};
ghost use Rattle.eco_ids.specs.Births.{Admits, may_admit, MakesAliveWith};
ghost use Rattle.eco_ids.specs.Indices.{changed, record_of, is_alive, is_free_at, next_entity, admitted, with_new, with_record, with_death};
ghost use Rattle.eco_ids.specs.Outcome.{Meets};
ghost use Rattle.std.specs.Option.{option_copied};
ghost use Rattle.eco_ids.specs.Renaming.{own_name};
ghost use Rattle.eco_entities.specs.Cells.{tag_of};
ghost use Rattle.eco_entities.specs.Label.{label_text};
ghost use Rattle.eco_entities.specs.Registry.{HasNobody};
ghost use Rattle.eco_entities.specs.Needs.{need_of};
ghost use Rattle.eco_entities.specs.Registration.{given_name, newcomer, own_arity, own_place, entity_at, placed, renamed};
ghost use Rattle.eco_entities.specs.Slots.{living_slot, next_generation, put_at, GenerationFits, IsNextSlot};

use crate::free_set::FreeSet;
use crate::homes::Homes;
use crate::label::Label;
use crate::labels::Labels;
use crate::place::Place;
use crate::slot::{ALL_FIELDS, Slot};
use crate::slot_list::{living, push_copies, put, put_in_room, slot_at};
use crate::tag::tag_of;
use eco_ids::{Entity, Refusal};
use std::alloc::{AllocError, Global};
use std::marker::Model;

/// A contract sees the limit and the list of the states of the indices.
pub(crate) struct Slots {
    limit: u32,
    // What is kept of each known index.
    slots: Vec<Slot>,
    // The indices whose slots are free.
    free: FreeSet,
    // The names of those who have one.
    labels: Labels,
}

// By hand, so that dropping it is one call: a derived drop is proved anew at each early return of whoever holds it.
impl Drop for Slots {
    fn drop(self) {
        let Slots {
            limit: _,
            slots: _,
            free: _,
            labels: _,
        } = self;
    }
}

impl Model for Slots {
    ghost use Rattle.eco_ids.specs.Indices.{Indexed};
    ghost use Rattle.eco_entities.specs.Registration.{Registration};
    ghost use Rattle.eco_entities.specs.Slots.{states, IsMarked};
    ghost use Rattle.eco_entities.specs.Labels.{label_of};

    ghost Value = { Indexed Registration };

    ghost view = { λ s. record { limit = s.limit; indices = states (label_of s.labels) s.slots.items } };

    ghost invariant = { λ s. IsMarked s.limit (states (label_of s.labels) s.slots.items) s.free };
}

impl Slots {
    pub(crate) fn new(alloc: Global, limit: u32) -> Slots
        requires { limit ≤ 1048576 }
        ensures limit { result.limit ≡ limit }
        ensures indices { result.indices ≡ [] }
    {
        Slots {
            limit,
            slots: Vec::new(alloc),
            free: FreeSet::new(alloc),
            labels: Labels::new(alloc),
        }
    }

    pub(crate) fn limit(&self) -> u32
        ensures { result ≡ self.now.limit }
    {
        self.limit
    }

    /// How many indices are known.
    pub(crate) fn high(&self) -> u32
        ensures known { result ≡ length self.now.indices }
        ensures within { length self.now.indices ≤ self.now.limit }
        ensures limited { self.now.limit ≤ 1048576 }
    {
        self.slots.len() as u32
    }

    /// The same indices once more. An `Err` comes where memory is refused.
    pub(crate) fn try_copy(&self) -> Result<Slots, AllocError>
        ensures { IfOk result (λ s. s ≡ self.now) }
    {
        let slots = Vec::from_slice(*self.slots.allocator(), self.slots.as_slice())?;
        let free = self.free.try_copy()?;
        let labels = self.labels.try_copy()?;
        Ok(Slots {
            limit: self.limit,
            slots,
            free,
            labels,
        })
    }

    // What every value keeps, for proofs.
    pub(crate) fn rules(&self)
        ensures limited { self.now.limit ≤ 1048576 }
        ensures within { length self.now.indices ≤ self.now.limit }
        ensures generations { (i : ℕ) → GenerationFits (slice_get self.now.indices i) }
    {
        let _ = &self.limit;
    }

    /// Whether the entity lives.
    #[inline]
    pub(crate) fn is_alive(&self, entity: Entity) -> bool
        ensures { result ≡ is_alive self.now entity }
    {
        living(self.slots.as_slice(), entity).is_some()
    }

    /// The place of a living entity, if it has one.
    #[inline]
    pub(crate) fn place(&self, entity: Entity) -> Option<Place>
        ensures { result ≡ own_place self.now entity }
    {
        living(self.slots.as_slice(), entity)?.place()
    }

    /// The place of a living entity that has one.
    #[inline]
    pub(crate) fn seat(&self, entity: Entity) -> Place
        requires { IsSome (own_place self.now entity) }
        ensures { own_place self.now entity ≡ Some result }
    {
        self.slots[entity.index as usize].seat()
    }

    /// The arity of a living entity, if it has one.
    #[inline]
    pub(crate) fn arity(&self, entity: Entity) -> Option<u8>
        ensures { result ≡ own_arity self.now entity }
    {
        living(self.slots.as_slice(), entity)?.arity()
    }

    /// The most fields that values of an entity may have, now or once it lives.
    pub(crate) fn need(&self, entity: Entity) -> u8
        ensures { result ≡ need_of self.now entity }
    {
        match slot_at(self.slots.as_slice(), entity.index as usize) {
            Some(slot) => slot.need(entity.generation),
            None => ALL_FIELDS,
        }
    }

    /// The name of a living entity, if it has one.
    pub(crate) fn name(&self, entity: Entity) -> Option<&str>
        ensures { option_copied result ≡ own_name given_name self.now entity }
    {
        if living(self.slots.as_slice(), entity)?.is_named() {
            self.labels.get(entity.index)
        } else {
            None
        }
    }

    /// The tag of a living entity's name, if it has one.
    pub(crate) fn name_tag(&self, entity: Entity) -> Option<u32>
        ensures { result ≡ option_map tag_of (own_name given_name self.now entity) }
    {
        match self.name(entity) {
            Some(name) => Some(tag_of(name)),
            None => None,
        }
    }

    /// Who lives at the index under this name.
    pub(crate) fn bearer(&self, index: u32, name: &str) -> Option<Entity>
        ensures bears { IfSome result (λ e. own_name given_name self.now e ≡ Some name.now) }
        ensures none { IfNone result (HasNobody (own_name given_name self.now) name.now
            (λ e. e.index ≡ index)) }
    {
        let entity = self.entity_at(index)?;
        if self.name(entity)? != name {
            return None;
        }
        Some(entity)
    }

    /// The same, lent for a walk over many indices.
    #[inline]
    pub(crate) fn homes(&self) -> Homes<'_>
        ensures { result ≡ self.now }
    {
        Homes::of(self.limit, self.slots.as_slice(), &self.labels)
    }

    /// Who lives at the index.
    pub(crate) fn entity_at(&self, index: u32) -> Option<Entity>
        ensures { result ≡ entity_at self.now index }
    {
        let slot = slot_at(self.slots.as_slice(), index as usize)?;
        if slot.is_living() {
            Some(Entity {
                index,
                generation: slot.generation(),
            })
        } else {
            None
        }
    }

    /// Whether the handle's index is free at its generation.
    pub(crate) fn is_free_at(&self, entity: Entity) -> bool
        ensures { result ≡ is_free_at self.now entity }
    {
        match slot_at(self.slots.as_slice(), entity.index as usize) {
            Some(slot) => slot.is_free() && slot.generation() == entity.generation,
            None => false,
        }
    }

    // The generation at which the index is used next.
    fn next_generation(&self, index: usize) -> u16
        ensures { result ≡ next_generation (slice_get self.now.indices index) }
    {
        match slot_at(self.slots.as_slice(), index) {
            Some(slot) if slot.is_free() => slot.generation(),
            _ => 0,
        }
    }

    /// Who is made next: the lowest free index, else the first unknown one below the limit.
    #[inline]
    pub(crate) fn next(&self) -> Option<Entity>
        ensures { result ≡ next_entity self.now }
    {
        let index = match self.free.lowest() {
            Some(index) => index,
            None if self.slots.len() < self.limit as usize => self.slots.len(),
            None => return None,
        };
        Some(Entity {
            index: index as u32,
            generation: self.next_generation(index),
        })
    }

    /// Makes `count` more indices known. They are free at generation 0.
    pub(crate) fn admit(&mut self, count: u32) -> Result<(), Refusal>
        ensures { Meets (Admits self.old count) (may_admit self.old count && nat_lt 0 count) self.old result
            self.new }
    {
        if count > self.limit() - self.high() {
            return Err(Refusal::NoMoreIds);
        }
        if count > 0 {
            self.extend(count as usize)?;
        }
        Ok(())
    }

    // Appends free indices, which lie below the limit.
    fn extend(&mut self, count: usize) -> Result<(), AllocError>
        requires { length self.old.indices + count ≤ self.old.limit }
        ensures ok { OnOk result (self.new ≡ admitted count self.old) }
        ensures err { OnErr result (self.new ≡ self.old) }
    {
        let known = self.slots.len();
        self.slots.reserve(count)?;
        self.free.grow(count)?;
        self.free.insert_from(known);
        push_copies(&mut self.slots, Slot::free(0), count);
        Ok(())
    }

    // A handle that is free lives, without name and arity.
    fn settle(&mut self, entity: Entity)
        requires { IsTrue (is_free_at self.old entity) }
        ensures { self.new ≡ with_record self.old entity (newcomer None None) }
    {
        let index = entity.index as usize;
        self.free.remove(index);
        self.slots[index] = Slot::newcomer(entity.generation, false, None);
    }

    /// The next entity lives, with this arity and no name. An `Err` leaves everything.
    #[inline]
    pub(crate) fn settle_nameless(
        &mut self,
        entity: Entity,
        arity: Option<u8>,
    ) -> Result<(), AllocError>
        requires { next_entity self.old ≡ Some entity }
        ensures ok { OnOk result (self.new ≡ with_new self.old entity (newcomer None arity)) }
        ensures err { OnErr result (self.new ≡ self.old) }
    {
        let slot = Slot::newcomer(entity.generation, false, arity);
        put(&mut self.slots, &mut self.free, entity.index as usize, slot)?;
        Ok(())
    }

    /// The next entity lives, with this name and this arity. An `Err` leaves everything.
    #[cold]
    #[inline(never)]
    pub(crate) fn settle_named(
        &mut self,
        entity: Entity,
        name: Label,
        arity: Option<u8>,
    ) -> Result<(), AllocError>
        requires { next_entity self.old ≡ Some entity }
        ensures ok { OnOk result (self.new ≡ with_new self.old entity
            (newcomer (Some (label_text name)) arity)) }
        ensures err { OnErr result (self.new ≡ self.old) }
    {
        let slot = Slot::newcomer(entity.generation, true, arity);
        let _ = self.labels.insert(entity.index, name)?;
        match put(&mut self.slots, &mut self.free, entity.index as usize, slot) {
            Ok(()) => Ok(()),
            Err(refused) => {
                let _ = self.labels.remove(entity.index);
                Err(refused)
            }
        }
    }

    /// The next entity lives at this place, with this arity and no name, where that wants no memory; the answer is the entity.
    /// Else nothing changes.
    #[inline]
    pub(crate) fn settle_in_room(&mut self, arity: Option<u8>, place: Place) -> Option<Entity>
        requires { place.row < 4294967295 }
        ensures next { IfSome result (λ e. next_entity self.old ≡ Some e) }
        ensures some { IfSome result (λ e.
            self.new ≡ with_new self.old e (placed place (newcomer None arity))) }
        ensures none { IfNone result (self.new ≡ self.old) }
    {
        // Each branch knows whether the index is a new one, so that what it does is short.
        let known = self.slots.len();
        match self.free.lowest() {
            Some(index) => self.settle_at(index, arity, place),
            None if known < self.limit as usize => self.settle_at(known, arity, place),
            None => None,
        }
    }

    // What `settle_in_room` does, told at which index.
    #[inline(always)]
    fn settle_at(&mut self, index: usize, arity: Option<u8>, place: Place) -> Option<Entity>
        requires fits { place.row < 4294967295 }
        requires small { index < 1048576 }
        requires next { next_entity self.old ≡ Some (record {
          index = index;
          generation = next_generation (slice_get self.old.indices index);
        }) }
        ensures next { IfSome result (λ e. next_entity self.old ≡ Some e) }
        ensures some { IfSome result (λ e.
            self.new ≡ with_new self.old e (placed place (newcomer None arity))) }
        ensures none { IfNone result (self.new ≡ self.old) }
    {
        let entity = Entity {
            index: index as u32,
            generation: self.next_generation(index),
        };
        let slot = Slot::settled(entity.generation, arity, place);
        if !put_in_room(&mut self.slots, &mut self.free, index, slot) {
            return None;
        }
        Some(entity)
    }

    /// A handle that is free lives, without name and arity.
    pub(crate) fn make_alive(&mut self, entity: Entity) -> Result<(), Refusal>
        ensures { MakesAliveWith self.old entity (newcomer None None) result self.new }
    {
        if !self.is_free_at(entity) {
            return Err(Refusal::Taken);
        }
        self.settle(entity);
        Ok(())
    }

    /// The entity is dead, and its index is free at the next generation or retired.
    #[inline]
    pub(crate) fn kill(&mut self, entity: Entity)
        requires { IsTrue (is_alive self.old entity) }
        ensures { self.new ≡ with_death self.old entity }
    {
        let index = entity.index as usize;
        let left = Slot::raised(entity.generation);
        if left.is_free() {
            self.free.insert(index);
        }
        self.slots[index] = left;
    }

    #[inline]
    pub(crate) fn set_place(&mut self, entity: Entity, place: Place)
        requires fits { place.row < 4294967295 }
        requires alive { IsTrue (is_alive self.old entity) }
        ensures { self.new ≡ changed self.old entity (placed place) }
    {
        self.slots[entity.index as usize].set_place(place);
    }

    /// The living entity has this name from now on. The answer is the one that it had. An `Err` leaves everything.
    pub(crate) fn give_name(
        &mut self,
        entity: Entity,
        name: Label,
    ) -> Result<Option<Label>, AllocError>
        requires { IsTrue (is_alive self.old entity) }
        ensures ok { OnOk result (self.new ≡ changed self.old entity (renamed (Some (label_text name)))) }
        ensures was { IfOk result (λ was. option_map label_text was ≡ own_name given_name self.old entity) }
        ensures err { OnErr result (self.new ≡ self.old) }
    {
        let label = self.labels.insert(entity.index, name)?;
        let slot = &mut self.slots[entity.index as usize];
        let was = if slot.is_named() { label } else { None };
        slot.set_named(true);
        Ok(was)
    }

    /// Whether the living entity has a name. Where it has none, all is as it would be without one.
    #[inline]
    pub(crate) fn is_named(&self, entity: Entity) -> bool
        requires { IsTrue (is_alive self.now entity) }
        ensures { result ≡ false → self.now ≡ changed self.now entity (renamed None) }
    {
        self.slots[entity.index as usize].is_named()
    }

    /// The living entity has no name from now on. The answer is the one that it had.
    #[inline(always)]
    pub(crate) fn take_name(&mut self, entity: Entity) -> Option<Label>
        requires { IsTrue (is_alive self.old entity) }
        ensures renamed { self.new ≡ changed self.old entity (renamed None) }
        ensures was { option_map label_text result ≡ own_name given_name self.old entity }
    {
        let index = entity.index as usize;
        if !self.slots[index].is_named() {
            return None;
        }
        self.slots[index].set_named(false);
        self.labels.remove(entity.index)
    }
}
