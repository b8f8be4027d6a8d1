//! The calls that change a world.
ghost use Rattle.std.specs.Prelude.{◌≡◌, ◌≤◌, ◌||◌, ◌∷◌, [], false, IfErr, IfOk, IsOk, IsTrue, map, nat_le};
ghost use Rattle.std.specs.Prelude.{option_map, Some, MatchBool, Ok, OnErr, OnOk, true};
ghost use Rattle.std.specs.Option.{option_copied};
ghost use Rattle.eco_ids.specs.declared.edition.Edition.TheVariants.{First};
ghost use Rattle.eco_ids.specs.declared.id.Id.TheVariants.{Two};
ghost use Rattle.eco_ids.specs.Births.{Creates, may_create, MakesComponent, may_make_component};
ghost use Rattle.eco_ids.specs.Builtin.{is_builtin};
ghost use Rattle.eco_ids.specs.Data.{fits, is_zero_past};
ghost use Rattle.eco_ids.specs.Edition.{largest_arity};
ghost use Rattle.eco_ids.specs.Lawful.{IsLawful};
ghost use Rattle.eco_ids.specs.Losses.{nobody, without};
ghost use Rattle.eco_ids.specs.Mirrors.{goes_too};
ghost use Rattle.eco_ids.specs.Outcome.{Meets};
ghost use Rattle.eco_ids.specs.Step.{Adds, may_add, Clears, may_clear, Extends, Removes, may_remove, Renames};
ghost use Rattle.eco_ids.specs.Step.{may_rename, Sets, may_set, changed, is_reserved, unchanged, with_value};
ghost use Rattle.eco_ids.specs.World.{has, names_living, is_alive, record_of};
ghost use Rattle.eco_world.specs.Actor.{IsUnfit, MaySet};
ghost use Rattle.eco_world.specs.Losses.{IsAlone, takes_id};
ghost use Rattle.eco_archetypes.specs.Records.{record_ids, with_exchanged, with_toggled, with_type};

use crate::world::World;
use eco_ids::entity::{ON_DELETE, PANIC};
use eco_ids::{Entity, Id, Refusal, TypeList, Value, are_zero};
use eco_traits::{Prospect, closed_type, comes_alone, foresee, short_target};
use std::alloc::{AllocError, Global};

// Whether the fields past the first `arity` are 0. Each place is written out: were it reckoned, the value would be copied first to
// where it can be indexed, which costs more than the test.
#[inline(always)]
pub(crate) fn is_zero_past(value: Value, arity: u8) -> bool
    ensures { result ≡ is_zero_past arity value }
{
    match arity {
        0 => are_zero(&value.0),
        1 => are_zero(&value.0[1..]),
        2 => are_zero(&value.0[2..]),
        3 => are_zero(&value.0[3..]),
        4 => are_zero(&value.0[4..]),
        5 => are_zero(&value.0[5..]),
        6 => are_zero(&value.0[6..]),
        7 => are_zero(&value.0[7..]),
        _ => true,
    }
}

// What each component has from the start: it can't be deleted while it is in use. So few ids take no memory.
fn component_type(alloc: Global) -> TypeList
    ensures { result ≡ Two ON_DELETE PANIC ∷ [] }
{
    TypeList::empty(alloc)
        .with(Id::Two(ON_DELETE, PANIC))
        .unwrap()
}

impl World {
    /// Makes an entity without ids, with this name or none (Flecs manual, Entities and Components). It gets the lowest free
    /// index at its generation, else the first unknown index at generation 0.
    ///
    /// Refused with `BadName` where the name is none, with `NameTaken` where a living entity has it, with `NoMoreIds`
    /// where no index below the limit is left, and last with `OutOfMemory`.
    #[inline(always)]
    pub fn create(&mut self, name: Option<&str>) -> Result<Entity, Refusal>
        ensures { Meets (Creates self.old (option_copied name.entry))
            (may_create self.old (option_copied name.entry)) self.old result self.new }
    {
        eco_ids::laws::steps_keep_lawful();
        self.store.create_bare(name)
    }

    /// Makes a component whose values have this many fields, 1 to 4 in a world of the first edition and 1 to 8 in one of the
    /// second, with this name or none (Flecs manual, Entities and Components). It has the pair (OnDelete, Panic), so that it
    /// can't be deleted while it is in use.
    ///
    /// Refused as [`create`](World::create) is.
    pub fn component(&mut self, name: Option<&str>, arity: u8) -> Result<Entity, Refusal>
        requires at_least { 1 ≤ arity }
        requires at_most { IsTrue (nat_le arity (largest_arity First)
            || nat_le arity (largest_arity self.old.edition)) }
        ensures { Meets (MakesComponent self.old (option_copied name.entry) arity)
            (may_make_component self.old (option_copied name.entry)) self.old result self.new }
    {
        eco_ids::laws::steps_keep_lawful();
        let ids = component_type(self.alloc);
        self.store.create(name, Some(arity), &ids)
    }

    /// The entity has this name, or none, from now on. Its own name again is done, and changes nothing.
    ///
    /// Refused with `NotAlive` where the entity isn't living, with `Reserved` where it is a built-in, with `BadName` where
    /// the name is none, with `NameTaken` where another living entity has it, and last with `OutOfMemory`; the old name
    /// stays then. Taking a name off wants no memory.
    pub fn rename(&mut self, entity: Entity, name: Option<&str>) -> Result<(), Refusal>
        ensures { Meets (Renames self.old entity (option_copied name.entry))
            (may_rename self.old entity (option_copied name.entry)) self.old result self.new }
    {
        eco_ids::laws::steps_keep_lawful();
        self.check_actor(entity)?;
        self.store.rename(entity, name)
    }

    /// The entity has the id from now on, with its closure: whatever With brings along. Other pairs of an exclusive
    /// relationship of which a pair comes go. Ids that stay keep their values, and new ones hold zeros (Flecs manual,
    /// Component Traits). An id that is there already is done, and wants no memory.
    ///
    /// A pair of a symmetric relationship also comes to its target, with the entity as target there: the mirror. It holds
    /// zeros. Both come or none.
    ///
    /// Refused with `NotAlive` where the entity isn't living, with `Reserved` where it is a built-in or the mirror would come
    /// to one, with `DeadId` where the id names an entity that isn't living; then, each over the whole closure, with
    /// `NotAPolicy` where a cleanup pair's target is no action, with `InUse` where a trait comes to a relationship that has
    /// pairs, with `Cycle` where a pair of an acyclic relationship would close one, with `TraitClash` where a symmetric
    /// relationship would be exclusive, acyclic or tied to another by With; and last with `OutOfMemory`.
    pub fn add(&mut self, entity: Entity, id: Id) -> Result<(), Refusal>
        ensures { Meets (Adds self.old entity id) (may_add self.old entity id) self.old result self.new }
    {
        self.check_holder(entity, id)?;
        self.gain(entity, id)
    }

    /// The entity has this value at the id from now on. An id that isn't there is added first, as by
    /// [`add`](World::add) (Flecs manual, Entities and Components). Where the id is there it wants no memory.
    ///
    /// Refused as an add is, but after `DeadId` with `NotData` where the id has no fields, and with `TooWide` where a field
    /// past those of the id isn't 0.
    #[inline(always)]
    pub fn set(&mut self, entity: Entity, id: Id, value: Value) -> Result<(), Refusal>
        ensures { Meets (Sets self.old entity id value) (may_set self.old entity id value)
            self.old result self.new }
    {
        self.set_after(&mut None, entity, id, value)
    }

    /// The entity doesn't have the id any more (Flecs manual, Entities and Components). An absent id, a dead one
    /// too, is done, and wants no memory. With a pair of a symmetric relationship its mirror goes.
    ///
    /// Refused with `NotAlive` where the entity isn't living, with `Reserved` where it is a built-in, and last with
    /// `OutOfMemory`.
    pub fn remove(&mut self, entity: Entity, id: Id) -> Result<(), Refusal>
        ensures { Meets (Removes self.old entity id) (may_remove self.old entity id)
            self.old result self.new }
    {
        self.is_lawful();
        self.check_actor(entity)?;
        if self.has(entity, id) {
            self.take_away(entity, id)?;
        }
        Ok(())
    }

    /// The entity has no ids any more (Flecs manual, Entities and Components). One that has none is done, and wants no
    /// memory. With each pair of a symmetric relationship its mirror goes.
    ///
    /// Refused with `NotAlive` where the entity isn't living, with `Reserved` where it is a built-in, and last with
    /// `OutOfMemory`.
    pub fn clear(&mut self, entity: Entity) -> Result<(), Refusal>
        ensures { Meets (Clears self.old entity) (may_clear self.old entity) self.old result self.new }
    {
        eco_ids::laws::steps_keep_lawful();
        self.is_lawful();
        self.check_actor(entity)?;
        if self.has_mirrors(entity) {
            return Ok(self.clear_mirrored(entity)?);
        }
        let none = TypeList::empty(self.alloc);
        self.retype(entity, &none)?;
        Ok(())
    }

    // What `set` does where the entity lacks the id, apart, so that a write of what is there needs no room for what this one keeps.
    #[inline(never)]
    pub(crate) fn set_absent(
        &mut self,
        entity: Entity,
        id: Id,
        value: &Value,
    ) -> Result<(), Refusal>
        requires may { MaySet self.old entity id value.now }
        requires absent { has self.old entity id ≡ false }
        ensures { Meets (Sets self.old entity id value.now) (may_set self.old entity id value.now)
            self.old result self.new }
    {
        eco_ids::laws::steps_keep_lawful();
        eco_ids::laws::add_adds_once();
        self.is_lawful();
        self.gain_absent(entity, id)?;
        self.write(entity, id, *value, &mut 0);
        Ok(())
    }

    // What `gain` does with an id that the entity lacks, and in which each entity lives.
    #[inline(always)]
    fn gain_absent(&mut self, entity: Entity, id: Id) -> Result<(), Refusal>
        requires alive { is_alive self.old entity ≡ true }
        requires free { is_reserved self.old entity id ≡ false }
        requires living { names_living self.old id ≡ true }
        requires absent { has self.old entity id ≡ false }
        ensures { Meets (Adds self.old entity id) (may_add self.old entity id) self.old result self.new }
    {
        eco_ids::laws::steps_keep_lawful();
        eco_ids::laws::add_leaves_exactly();
        self.is_lawful();
        if comes_alone(self, entity, id) {
            return Ok(self.step(entity, id)?);
        }
        self.extend(entity, id)
    }

    // Whether each entity in the id lives.
    #[inline(always)]
    pub(crate) fn names_living(&self, id: Id) -> bool
        ensures { result ≡ names_living self.now id }
    {
        match id {
            Id::One(entity) => self.is_alive(entity),
            Id::Two(relationship, target) => self.is_alive(relationship) && self.is_alive(target),
        }
    }

    // Whether the entity may be changed: it lives, and it is no built-in.
    #[inline(always)]
    pub(crate) fn check_actor(&self, entity: Entity) -> Result<(), Refusal>
        ensures ok { OnOk result ((is_alive self.now entity ≡ true) × (is_builtin self.now entity ≡ false)) }
        ensures err { IfErr result (IsUnfit self.now entity (is_builtin self.now entity)) }
    {
        if !self.is_alive(entity) {
            return Err(Refusal::NotAlive);
        }
        if self.is_builtin(entity) {
            return Err(Refusal::Reserved);
        }
        Ok(())
    }

    // Whether the id may come to the entity: it lives, and no built-in would be changed.
    #[inline(always)]
    pub(crate) fn check_holder(&self, entity: Entity, id: Id) -> Result<(), Refusal>
        ensures ok { OnOk result ((is_alive self.now entity ≡ true)
            × (is_reserved self.now entity id ≡ false)) }
        ensures err { IfErr result (IsUnfit self.now entity (is_reserved self.now entity id)) }
    {
        if !self.is_alive(entity) {
            return Err(Refusal::NotAlive);
        }
        if self.is_reserved(entity, id) {
            return Err(Refusal::Reserved);
        }
        Ok(())
    }

    // The entity has an id from now on, with its closure, unless something stands against that. An `Err` leaves
    // everything. Most adds are done after a look at two types.
    #[inline(always)]
    fn gain(&mut self, entity: Entity, id: Id) -> Result<(), Refusal>
        requires alive { is_alive self.old entity ≡ true }
        requires free { is_reserved self.old entity id ≡ false }
        ensures { Meets (Adds self.old entity id) (may_add self.old entity id) self.old result self.new }
    {
        eco_ids::laws::steps_keep_lawful();
        eco_ids::laws::add_leaves_exactly();
        self.is_lawful();
        match foresee(self, entity, id) {
            Prospect::Dead => Err(Refusal::DeadId),
            Prospect::There => Ok(()),
            Prospect::Alone => Ok(self.step(entity, id)?),
            Prospect::Open => self.extend(entity, id),
        }
    }

    // What `gain` does where a look doesn't tell, apart, so that an add which it tells needs no room for what this one keeps.
    #[inline(never)]
    fn extend(&mut self, entity: Entity, id: Id) -> Result<(), Refusal>
        requires alive { is_alive self.old entity ≡ true }
        requires free { is_reserved self.old entity id ≡ false }
        requires living { names_living self.old id ≡ true }
        requires absent { has self.old entity id ≡ false }
        ensures { Meets (Adds self.old entity id) (may_add self.old entity id) self.old result self.new }
    {
        eco_ids::laws::steps_keep_lawful();
        eco_ids::laws::add_leaves_exactly();
        self.is_lawful();
        if let Some(mirror) = self.other_mirror(entity, id) {
            return self.extend_both(entity, id, mirror);
        }
        match short_target(self, entity, id) {
            Some(None) => Ok(self.step(entity, id)?),
            Some(Some(old)) => Ok(self.exchange(entity, old, id)?),
            None => self.extend_by_closure(entity, id),
        }
    }

    // What `extend` does where the short way doesn't tell, apart, so that an add which it tells needs no room for a list of ids.
    #[inline(never)]
    fn extend_by_closure(&mut self, entity: Entity, id: Id) -> Result<(), Refusal>
        requires alive { is_alive self.old entity ≡ true }
        requires free { is_reserved self.old entity id ≡ false }
        requires living { names_living self.old id ≡ true }
        requires absent { has self.old entity id ≡ false }
        requires alone { IsAlone self.old entity id }
        ensures { Meets (Adds self.old entity id) (may_add self.old entity id) self.old result self.new }
    {
        eco_ids::laws::steps_keep_lawful();
        eco_ids::laws::add_leaves_exactly();
        self.is_lawful();
        let ids = closed_type(self.alloc, self, entity, id)?;
        Ok(self.retype(entity, &ids)?)
    }

    // The entity loses an id that it has. An `Err` leaves everything.
    #[inline(always)]
    fn take_away(&mut self, entity: Entity, id: Id) -> Result<(), AllocError>
        requires alive { is_alive self.old entity ≡ true }
        requires ordinary { is_builtin self.old entity ≡ false }
        requires there { has self.old entity id ≡ true }
        ensures ok { OnOk result
            (self.new ≡ without self.old nobody (goes_too self.old (takes_id entity id))) }
        ensures err { OnErr result (self.new ≡ self.old) }
    {
        eco_ids::laws::steps_keep_lawful();
        self.is_lawful();
        if let Some(mirror) = self.other_mirror(entity, id) {
            return self.step_both(entity, id, mirror);
        }
        self.step(entity, id)
    }

    // The entity has the id if it lacked it, with zeros, and lacks it if it had it. An `Err` leaves everything.
    #[inline(always)]
    fn step(&mut self, entity: Entity, id: Id) -> Result<(), AllocError>
        requires alive { is_alive self.old entity ≡ true }
        requires lawful { IsLawful (changed self.old entity (with_toggled id)) }
        ensures ok { OnOk result (self.new ≡ changed self.old entity (with_toggled id)) }
        ensures err { OnErr result (self.new ≡ self.old) }
    {
        self.store.step(entity, id)
    }

    // The entity has one id in the place of another, which it has. An `Err` leaves everything.
    fn exchange(&mut self, entity: Entity, old: Id, new: Id) -> Result<(), AllocError>
        requires alive { is_alive self.old entity ≡ true }
        requires there { has self.old entity old ≡ true }
        requires absent { has self.old entity new ≡ false }
        requires lawful { IsLawful (changed self.old entity (with_exchanged old new)) }
        ensures ok { OnOk result (self.new ≡ changed self.old entity (with_exchanged old new)) }
        ensures err { OnErr result (self.new ≡ self.old) }
    {
        self.store.exchange(entity, old, new)
    }

    // The entity has these ids: those that were there keep their values, and new ones hold zeros. An `Err` leaves
    // everything. Its own ids want no memory.
    fn retype(&mut self, entity: Entity, ids: &TypeList) -> Result<(), AllocError>
        requires alive { is_alive self.old entity ≡ true }
        requires lawful { IsLawful (changed self.old entity (with_type ids.now)) }
        ensures ok { OnOk result (self.new ≡ changed self.old entity (with_type ids.now)) }
        ensures err { OnErr result (self.new ≡ self.old) }
        ensures own { option_map record_ids (record_of self.old entity) ≡ Some ids.now → IsOk result }
    {
        self.store.retype(entity, ids)
    }

    // Where the entity has the id it has this value there from now on, else nothing changes. The answer is whether it has
    // the id, so that a set looks for it once. The id's column is looked for at the place `near` first, where it is remembered.
    #[inline(always)]
    pub(crate) fn write(&mut self, entity: Entity, id: Id, value: Value, near: &mut usize) -> bool
        requires alive { is_alive self.old entity ≡ true }
        requires fits { IsTrue (fits self.old id value) }
        requires lawful { has self.old entity id ≡ true
            → IsLawful (changed self.old entity (with_value id value)) }
        ensures had { result ≡ has self.old entity id }
        ensures written { MatchBool result
            (self.new ≡ changed self.old entity (with_value id value)) (self.new ≡ self.old) }
    {
        self.store.set_value(entity, id, value, near)
    }
}
