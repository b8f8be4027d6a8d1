//! The index of all entities.
//!
//! An entity is named by a handle: an index, and how often that index was used before. A handle that outlives its entity
//! is never taken for the one who lives at its index now (Flecs manual, Entities and Components).
ghost use Rattle.std.specs.Prelude.{◌≡◌, ◌↔◌, ◌≤◌, ◌<◌, ◌&&◌, nat_lt, true, false, [], length, Option, Some, None};
ghost use Rattle.std.specs.Prelude.{IsSome, IsTrue, IfOk, IfSome, IfNone, OnOk, OnErr, MatchBool, MatchOption};
ghost use Rattle.std.specs.Option.{option_copied};
ghost use Rattle.eco_ids.specs.Births.{Admits, may_admit, Makes, MakesAliveWith, unfit_name};
ghost use Rattle.eco_ids.specs.declared.entity.Entity.{Entity};
ghost use Rattle.eco_ids.specs.declared.value.TheConstants.{FIELD_COUNT};
ghost use Rattle.eco_ids.specs.Indices.{changed, is_alive, is_free_at, next_entity, with_new, with_death};
ghost use Rattle.eco_ids.specs.Names.{named_entity, is_name};
ghost use Rattle.eco_ids.specs.Outcome.{Meets};
ghost use Rattle.eco_ids.specs.Renaming.{own_name, may_rename, RenamesWith};
ghost use Rattle.eco_entities.specs.Needs.{need};
ghost use Rattle.eco_entities.specs.Registration.{CreatesRegistration, RenamesRegistration, newcomer, given_name};
ghost use Rattle.eco_entities.specs.Registration.{own_arity, own_place, entity_at, placed, renamed};
ghost use Rattle.eco_entities.specs.Rules.{IsRuled};
ghost use Rattle.eco_entities.specs.Taken.{IsTaken};

use crate::homes::Homes;
use crate::names::Names;
use crate::place::Place;
use crate::slots::Slots;
use crate::tag::tag_of;
use eco_ids::{Entity, Id, Refusal, is_name};
use std::alloc::{AllocError, Global};
use std::marker::Model;

/// Which indices are known, who lives there, under which name and at which place.
///
/// A known index is in use by a living entity, free, or retired. A call costs a few words of a bitmap and one look-up of a
/// name at most, however many indices are known; only [`admit`](EntityIndex::admit) costs as much as it admits. What
/// grows is taken from the allocator that [`new`](EntityIndex::new) is given.
///
/// A contract sees the index as its limit and the list of the states of its indices, each living one with its name,
/// its arity and its place.
pub struct EntityIndex {
    slots: Slots,
    names: Names,
}

// By hand, so that dropping it is one call: a derived drop is proved anew at each early return of whoever holds it.
impl Drop for EntityIndex {
    fn drop(self) {
        let EntityIndex { slots: _, names: _ } = self;
    }
}

impl Model for EntityIndex {
    ghost use Rattle.eco_ids.specs.Indices.{Indexed};
    ghost use Rattle.eco_ids.specs.Renaming.{own_name};
    ghost use Rattle.eco_entities.specs.Registration.{Registration, given_name};
    ghost use Rattle.eco_entities.specs.Listed.{IsListed};
    ghost use Rattle.eco_entities.specs.Registry.{IsRegistry};

    ghost Value = { Indexed Registration };

    ghost view = { λ s. s.slots };

    ghost invariant = { λ s. IsRegistry (IsListed s.names) (own_name given_name s.slots) };
}

impl EntityIndex {
    /// Knows no index. Indices lie below `limit`, which is at most 1,048,576.
    pub fn new(alloc: Global, limit: u32) -> EntityIndex
        requires { limit ≤ 1048576 }
        ensures limit { result.limit ≡ limit }
        ensures indices { result.indices ≡ [] }
    {
        EntityIndex {
            slots: Slots::new(alloc, limit),
            names: Names::new(alloc),
        }
    }

    /// The same index once more, with its names and places. An `Err` comes where memory is refused.
    pub fn try_copy(&self) -> Result<EntityIndex, AllocError>
        ensures { IfOk result (λ s. s ≡ self.now) }
    {
        let slots = self.slots.try_copy()?;
        let names = self.names.try_copy()?;
        Ok(EntityIndex { slots, names })
    }

    /// All indices lie below it.
    pub fn limit(&self) -> u32
        ensures { result ≡ self.now.limit }
    {
        self.slots.limit()
    }

    /// How many indices are known: living, free or retired. They are the first ones.
    pub fn high(&self) -> u32
        ensures known { result ≡ length self.now.indices }
        ensures within { length self.now.indices ≤ self.now.limit }
        ensures limited { self.now.limit ≤ 1048576 }
    {
        self.slots.high()
    }

    /// Whether the entity lives: its index is in use at just this generation. Takes no memory.
    #[inline]
    pub fn is_alive(&self, entity: Entity) -> bool
        ensures { result ≡ is_alive self.now entity }
    {
        self.slots.is_alive(entity)
    }

    /// Where a living entity is kept, once [`set_place`](EntityIndex::set_place) said so.
    #[inline]
    pub fn place_of(&self, entity: Entity) -> Option<Place>
        ensures { result ≡ own_place self.now entity }
    {
        self.slots.place(entity)
    }

    /// Where a living entity is kept that has a place: it is told without a look at whether the entity lives.
    #[inline]
    pub fn seat_of(&self, entity: Entity) -> Place
        requires { IsSome (own_place self.now entity) }
        ensures { own_place self.now entity ≡ Some result }
    {
        self.slots.seat(entity)
    }

    /// The name of a living entity, if it has one.
    pub fn name(&self, entity: Entity) -> Option<&str>
        ensures { option_copied result ≡ own_name given_name self.now entity }
    {
        self.slots.name(entity)
    }

    /// The living entity of this name. No two have the same. Takes no memory.
    pub fn lookup(&self, name: &str) -> Option<Entity>
        ensures named_entity { result ≡ named_entity given_name self.now name.now }
        ensures exact { (e : Entity) → (result ≡ Some e) ↔ (own_name given_name self.now e ≡ Some name.now) }
    {
        self.names.get(&self.slots, name, tag_of(name))
    }

    /// Who lives where, lent for a walk over many indices.
    #[inline]
    pub fn homes(&self) -> Homes<'_>
        ensures { result ≡ self.now }
    {
        self.slots.homes()
    }

    /// The living entity at an index.
    pub fn entity_at(&self, index: u32) -> Option<Entity>
        ensures { result ≡ entity_at self.now index }
    {
        self.slots.entity_at(index)
    }

    /// The arity of a living entity, if it has one.
    #[inline]
    pub fn arity_of(&self, entity: Entity) -> Option<u8>
        ensures { result ≡ own_arity self.now entity }
    {
        self.slots.arity(entity)
    }

    /// The most fields that a value of an id may have, now or later: as many as the arity of its entity says, and all while that
    /// is not known. A pair's value has the fields of its relationship's or of its target's.
    pub fn need(&self, id: Id) -> u8
        ensures need { result ≡ need self.now id }
        ensures few { result ≤ FIELD_COUNT }
    {
        match id {
            Id::One(entity) => self.slots.need(entity),
            Id::Two(relationship, target) => {
                self.slots.need(relationship).max(self.slots.need(target))
            }
        }
    }

    /// Who is made next: the lowest free index at its generation, else the first unknown one below the limit.
    #[inline]
    pub fn next(&self) -> Option<Entity>
        ensures { result ≡ next_entity self.now }
    {
        self.slots.next()
    }

    /// Whether the handle's index is known, free and at its generation.
    pub fn is_free_at(&self, entity: Entity) -> bool
        ensures { result ≡ is_free_at self.now entity }
    {
        self.slots.is_free_at(entity)
    }

    /// What is true of every index, for proofs: it does nothing.
    pub fn rules(&self)
        ensures { IsRuled self.now }
    {
        let _ = &self.names;
        self.slots.rules();
    }

    /// Makes an entity at the lowest free index, at the generation that its index has come to, else at the first unknown
    /// index, at generation 0. It has this name, or none, and this arity,
    /// or none, and no place yet.
    ///
    /// Refused with `BadName` where the name is none, with `NameTaken` where a living entity has it, with `NoMoreIds`
    /// where every index below the limit is in use or retired, and with `OutOfMemory` where a growth was refused, in this
    /// order. A refused call changes nothing.
    ///
    /// Flecs uses ids again in the order of its own list; the lowest comes first here, so that a run can be repeated.
    pub fn create(&mut self, name: Option<&str>, arity: Option<u8>) -> Result<Entity, Refusal>
        ensures { CreatesRegistration self.old (option_copied name.entry) arity result self.new }
    {
        match self.next() {
            Some(entity) => self.create_next(entity, name, arity),
            None => {
                self.check_name(name)?;
                Err(Refusal::NoMoreIds)
            }
        }
    }

    /// What [`create`](EntityIndex::create) does, where the caller knows already who is made next.
    #[inline]
    pub fn create_next(
        &mut self,
        entity: Entity,
        name: Option<&str>,
        arity: Option<u8>,
    ) -> Result<Entity, Refusal>
        requires { next_entity self.old ≡ Some entity }
        ensures { CreatesRegistration self.old (option_copied name.entry) arity result self.new }
    {
        let Some(text) = name else {
            self.settle_nameless(entity, arity)?;
            return Ok(entity);
        };
        if !is_name(text) {
            return Err(Refusal::BadName);
        }
        if !self.settle_named(entity, text, arity)? {
            return Err(Refusal::NameTaken);
        }
        Ok(entity)
    }

    /// What [`create`](EntityIndex::create) does without a name, where it wants no memory and an index is left; the answer is the
    /// entity, and it is kept at this place from the start. Else nothing changes.
    ///
    /// A row lies below 4,294,967,295.
    #[inline]
    pub fn create_in_room(&mut self, arity: Option<u8>, place: Place) -> Option<Entity>
        requires { place.row < 4294967295 }
        ensures next { IfSome result (λ e. next_entity self.old ≡ Some e) }
        ensures some { IfSome result (λ e.
            self.new ≡ with_new self.old e (placed place (newcomer None arity))) }
        ensures none { IfNone result (self.new ≡ self.old) }
    {
        let entity = self.slots.settle_in_room(arity, place)?;
        Some(entity)
    }

    /// What stands against the name of a new entity: `BadName` where it is none, then `NameTaken` where a living entity has
    /// it.
    pub fn check_name(&self, name: Option<&str>) -> Result<(), Refusal>
        ensures { MatchOption (unfit_name given_name self.now (option_copied name.entry)) (result ≡ Ok tt)
            (λ why. result ≡ Err why) }
    {
        let Some(text) = name else {
            return Ok(());
        };
        if !is_name(text) {
            return Err(Refusal::BadName);
        }
        if self.lookup(text).is_some() {
            return Err(Refusal::NameTaken);
        }
        Ok(())
    }

    // The next entity lives, with this arity and no name. An `Err` leaves everything.
    #[inline]
    fn settle_nameless(&mut self, entity: Entity, arity: Option<u8>) -> Result<(), AllocError>
        requires { next_entity self.old ≡ Some entity }
        ensures ok { OnOk result (self.new ≡ with_new self.old entity (newcomer None arity)) }
        ensures err { OnErr result (self.new ≡ self.old) }
    {
        self.slots.settle_nameless(entity, arity)?;
        Ok(())
    }

    // The next entity lives, with this arity and this name, where nobody has it; the answer says whether it is so. An `Err`
    // leaves everything.
    #[cold]
    #[inline(never)]
    fn settle_named(
        &mut self,
        entity: Entity,
        text: &str,
        arity: Option<u8>,
    ) -> Result<bool, AllocError>
        requires next { next_entity self.old ≡ Some entity }
        requires proper { IsTrue (is_name text.now) }
        ensures ok { IfOk result (λ done. MatchBool done
            ((unfit_name given_name self.old (Some text.now) ≡ None)
            × (self.new ≡ with_new self.old entity (newcomer (Some text.now) arity)))
            (IsTaken self.old text.now self.new)) }
        ensures err { OnErr result
            ((unfit_name given_name self.old (Some text.now) ≡ None) × (self.new ≡ self.old)) }
    {
        let tag = tag_of(text);
        let Some(own) = self.names.claim(&self.slots, text, tag, entity)? else {
            return Ok(false);
        };
        match self.slots.settle_named(entity, own, arity) {
            Ok(()) => Ok(true),
            Err(refused) => {
                self.names.remove(text, entity.index, None);
                Err(refused)
            }
        }
    }

    /// Makes `count` more indices known, after the others. They are free at generation 0, and nobody lives there.
    ///
    /// Refused with `NoMoreIds` where they would pass the limit, and with `OutOfMemory` where a growth was refused. A
    /// refused call changes nothing, and a `count` of 0 is never refused.
    pub fn admit(&mut self, count: u32) -> Result<(), Refusal>
        ensures { Meets (Admits self.old count) (may_admit self.old count && nat_lt 0 count) self.old result
            self.new }
    {
        self.slots.admit(count)
    }

    /// This very handle lives from now on, without name, arity and place (Flecs manual, Entities and Components).
    /// Takes no memory.
    ///
    /// Refused with `Taken` unless its index is known, free and at its generation. A refused call changes nothing.
    pub fn make_alive(&mut self, entity: Entity) -> Result<(), Refusal>
        ensures { MakesAliveWith self.old entity (newcomer None None) result self.new }
    {
        self.slots.make_alive(entity)
    }

    /// The living entity is kept there from now on.
    ///
    /// A row lies below 4,294,967,295.
    #[inline]
    pub fn set_place(&mut self, entity: Entity, place: Place)
        requires fits { place.row < 4294967295 }
        requires alive { IsTrue (is_alive self.old entity) }
        ensures { self.new ≡ changed self.old entity (placed place) }
    {
        self.slots.set_place(entity, place);
    }

    /// The living entity dies, and its name is free. Its index is free at the next generation; after generation 65,535 it
    /// is retired, and nobody lives there again. Takes no memory.
    #[inline]
    pub fn kill(&mut self, entity: Entity)
        requires { IsTrue (is_alive self.old entity) }
        ensures { self.new ≡ with_death self.old entity }
    {
        self.unname(entity);
        self.slots.kill(entity);
    }

    /// The living entity has this name, or none, from now on, and keeps its arity. Its own name again is done, and changes nothing.
    ///
    /// Refused with `NotAlive` where this entity doesn't live, with `BadName` where the name is none, with `NameTaken`
    /// where another living entity has it, and with `OutOfMemory` where a growth was refused, in this order. A refused
    /// call changes nothing, so the old name stays.
    pub fn rename(&mut self, entity: Entity, name: Option<&str>) -> Result<(), Refusal>
        ensures { RenamesRegistration self.old entity (option_copied name.entry) result self.new }
    {
        if !self.is_alive(entity) {
            return Err(Refusal::NotAlive);
        }
        let Some(text) = name else {
            self.unname(entity);
            return Ok(());
        };
        if !is_name(text) {
            return Err(Refusal::BadName);
        }
        if self.give_name(entity, text)? {
            return Ok(());
        }
        match self.lookup(text) {
            Some(bearer) if bearer == entity => Ok(()),
            _ => Err(Refusal::NameTaken),
        }
    }

    // The living entity has this name in place of its old one, where nobody has it; the answer says whether it is so. An `Err`
    // leaves everything.
    fn give_name(&mut self, entity: Entity, name: &str) -> Result<bool, AllocError>
        requires alive { IsTrue (is_alive self.old entity) }
        requires proper { IsTrue (is_name name.now) }
        ensures ok { IfOk result (λ done. MatchBool done
            (RenamesWith given_name renamed self.old entity false (Some name.now) (Ok tt) self.new)
            (IsTaken self.old name.now self.new)) }
        ensures err { OnErr result
            (IsTrue (may_rename given_name self.old entity false (Some name.now)) × (self.new ≡ self.old)) }
    {
        let tag = tag_of(name);
        let Some(own) = self.names.claim(&self.slots, name, tag, entity)? else {
            return Ok(false);
        };
        match self.slots.give_name(entity, own) {
            Ok(Some(old)) => {
                self.names.remove(old.as_str(), entity.index, Some(tag));
                Ok(true)
            }
            Ok(None) => Ok(true),
            Err(refused) => {
                let kept = self.slots.name_tag(entity);
                self.names.remove(name, entity.index, kept);
                Err(refused)
            }
        }
    }

    // The living entity has no name any more.
    #[inline(always)]
    fn unname(&mut self, entity: Entity)
        requires { IsTrue (is_alive self.old entity) }
        ensures { self.new ≡ changed self.old entity (renamed None) }
    {
        if self.slots.is_named(entity) {
            self.lose_name(entity);
        }
    }

    // What `unname` does where there is a name, apart, so that who has none costs no more than a look.
    #[cold]
    #[inline(never)]
    fn lose_name(&mut self, entity: Entity)
        requires { IsTrue (is_alive self.old entity) }
        ensures { self.new ≡ changed self.old entity (renamed None) }
    {
        if let Some(name) = self.slots.take_name(entity) {
            self.names.remove(name.as_str(), entity.index, None);
        }
    }
}
