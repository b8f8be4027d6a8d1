//! Tables are found by tests of their types.
ghost use Rattle.std.specs.Prelude.{◌≡◌, ℕ, nat_eq, ◌+◌, ◌<◌, ◌↔◌, ◌++◌, filter, length, IsTrue, IfOk, OnOk, OnErr};
ghost use Rattle.std.specs.List.{All, list_any, IsDistinct};
ghost use Rattle.eco_index.specs.TypeTests.{IsPlace, earlier_in, group_at, passes_with, passes_without};
ghost use Rattle.eco_archetypes.specs.Archetypes.{is_found_in, FindsSome, IsAllFound, has_one_of, type_at, type_matches};
ghost use Rattle.eco_archetypes.specs.Naming.{is_named_by_some};

use crate::archetypes::Archetypes;
use crate::found::{FoundSlots, put_behind};
use eco_ids::{Entity, Pattern, TableSlot};
use eco_index::TypeTest;
use std::alloc::AllocError;

impl Archetypes {
    /// The slots of the tables that have rows and a type that passes the test, each once, in any order. Where the test names a
    /// cache of its query, its time grows with the slots of that cache, and else with the tables that the shortest group of
    /// the test's patterns finds. An `Err` comes where memory is refused, and never where no table is found.
    pub fn tables_by<T: TypeTest>(&self, test: &T) -> Result<FoundSlots, AllocError>
        ensures all { IfOk result (λ v. IsAllFound (T.test test.now) self.now v.items) }
        ensures some { OnErr result (FindsSome (T.test test.now) self.now) }
    {
        match self.cached(test) {
            Some(slots) => self.with_rows(slots),
            None => self.search(test),
        }
    }

    // What `tables_by` does where no cache answers.
    fn search<T: TypeTest>(&self, test: &T) -> Result<FoundSlots, AllocError>
        ensures all { IfOk result (λ v. IsAllFound (T.test test.now) self.now v.items) }
        ensures some { OnErr result (FindsSome (T.test test.now) self.now) }
    {
        let group = self.by_id.shortest_group(test);
        let mut found = FoundSlots::new(self.alloc);
        for place in 0..test.pattern_count(group) {
            self.add_found(&mut found, test, group, place)?;
        }
        Ok(found)
    }

    // Puts the tables that the pattern at a place of the group finds behind those that the patterns before it found.
    fn add_found<T: TypeTest>(
        &self,
        found: &mut FoundSlots,
        test: &T,
        group: usize,
        place: usize,
    ) -> Result<(), AllocError>
        requires place { IsPlace (T.groups test.now) group place }
        requires found { IsAllFound
            (passes_with (T.test test.now) (earlier_in (T.groups test.now) group place))
            self.now found.old.items }
        ensures ok { OnOk result
            (IsAllFound (passes_with (T.test test.now) (earlier_in (T.groups test.now) group (place + 1)))
            self.now found.new.items) }
        ensures some { OnErr result (FindsSome (T.test test.now) self.now) }
    {
        let slots = self.listed(test.pattern(group, place));
        self.add_new(found, slots, test, group, place)
    }

    // Puts those of the slots behind the others whose tables have rows and a type that passes, and which no pattern before
    // the place has found.
    fn add_new<T: TypeTest>(
        &self,
        found: &mut FoundSlots,
        slots: &[TableSlot],
        test: &T,
        group: usize,
        place: usize,
    ) -> Result<(), AllocError>
        requires place { IsPlace (T.groups test.now) group place }
        requires listed { All
            (λ n. IsTrue (has_one_of (group_at (T.groups test.now) group) (type_at self.now n))) slots.now }
        ensures ok { OnOk result (found.new.items ≡ found.old.items ++ filter
            (is_found_in
            (passes_without (T.test test.now) (earlier_in (T.groups test.now) group place)) self.now)
            slots.now) }
        ensures some { OnErr result (FindsSome (T.test test.now) self.now) }
    {
        for slot in slots {
            if self.is_new(*slot, test, group, place) {
                put_behind(found, *slot, slots.len())?;
            }
        }
        Ok(())
    }

    // Whether the table in a slot that the group's patterns have found has rows and a type that passes, and no pattern before
    // the place has found it.
    #[tactic(auto, using(crate::proofs::Searching::new_is))]
    fn is_new<T: TypeTest>(&self, slot: TableSlot, test: &T, group: usize, place: usize) -> bool
        requires place { IsPlace (T.groups test.now) group place }
        requires listed { IsTrue (has_one_of (group_at (T.groups test.now) group) (type_at self.now slot)) }
        ensures { result ≡ is_found_in
            (passes_without (T.test test.now) (earlier_in (T.groups test.now) group place)) self.now slot }
    {
        !self.is_found_before(slot, test, group, place) && self.passes(slot, test, group)
    }

    // Whether the slot is listed under one of the group's patterns before the place.
    fn is_found_before<T: TypeTest>(
        &self,
        slot: TableSlot,
        test: &T,
        group: usize,
        place: usize,
    ) -> bool
        requires { IsPlace (T.groups test.now) group place }
        ensures { result ≡ has_one_of (earlier_in (T.groups test.now) group place) (type_at self.now slot) }
    {
        for before in 0..place {
            if self.is_listed(test.pattern(group, before), slot) {
                return true;
            }
        }
        false
    }

    // Whether the table in a slot that the group's patterns have found has rows and a type that passes.
    fn passes<T: TypeTest>(&self, slot: TableSlot, test: &T, group: usize) -> bool
        requires group { group < length (T.groups test.now) }
        requires listed { IsTrue (has_one_of (group_at (T.groups test.now) group) (type_at self.now slot)) }
        ensures { result ≡ is_found_in (T.test test.now) self.now slot }
    {
        match self.tables.get(slot) {
            Some(table) => table.row_count() > 0 && test.passes_found(group, table.type_list()),
            None => false,
        }
    }

    /// Whether some table has rows and a type that passes the test. Its time grows with the tables that the shortest group
    /// of the test's patterns finds, up to the first that has rows and passes.
    pub fn finds<T: TypeTest>(&self, test: &T) -> bool
        ensures { IsTrue result ↔ FindsSome (T.test test.now) self.now }
    {
        let group = self.by_id.shortest_group(test);
        for place in 0..test.pattern_count(group) {
            let slots = self.listed(test.pattern(group, place));
            if self.has_passing(slots, test, group) {
                return true;
            }
        }
        false
    }

    // Whether the table in one of the slots has rows and a type that passes.
    fn has_passing<T: TypeTest>(&self, slots: &[TableSlot], test: &T, group: usize) -> bool
        requires group { group < length (T.groups test.now) }
        requires listed { All
            (λ n. IsTrue (has_one_of (group_at (T.groups test.now) group) (type_at self.now n))) slots.now }
        ensures { result ≡ list_any (is_found_in (T.test test.now) self.now) slots.now }
    {
        for slot in slots {
            if self.passes(*slot, test, group) {
                return true;
            }
        }
        false
    }

    /// Whether an id of some table's type names the entity. Where none does, no table is looked at, and mostly the marks of
    /// the index tell so at once. It takes no memory.
    #[inline(always)]
    pub fn is_named(&self, entity: Entity) -> bool
        ensures { result ≡ is_named_by_some self.now entity }
    {
        self.by_id.names(entity)
    }

    /// The slots of the tables whose types have an id that the pattern matches, each once, also of those without rows. Where no
    /// type ever had such an id, mostly the marks of the index tell so. It takes no memory.
    #[inline]
    pub fn listed(&self, pattern: Pattern) -> &[TableSlot]
        ensures listed { (n : ℕ) →
            list_any (nat_eq n) result.now ≡ type_matches (type_at self.now n) pattern }
        ensures distinct { IsDistinct nat_eq result.now }
    {
        self.by_id.slots(pattern)
    }

    // Whether the slot is one of them.
    fn is_listed(&self, pattern: Pattern, slot: TableSlot) -> bool
        ensures { result ≡ type_matches (type_at self.now slot) pattern }
    {
        self.by_id.lists(pattern, slot)
    }
}
