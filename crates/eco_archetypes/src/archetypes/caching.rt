//! Queries that are asked again and again keep the slots of the tables whose types fulfil them.
ghost use Rattle.std.specs.Prelude.{◌≡◌, ◌&&◌, ℕ, cond, true, filter, IfNone, IfOk, IfSome, IsTrue, OnOk, OnErr, nat_eq};
ghost use Rattle.std.specs.List.{list_any, IsDistinct};
ghost use Rattle.eco_index.specs.Caching.{fulfils, AreKept, AreThose};
ghost use Rattle.eco_index.specs.Flat.{ChoicesState};
ghost use Rattle.eco_archetypes.specs.Archetypes.{type_at, has_rows, ArePassing};

use crate::archetypes::Archetypes;
use crate::found::{FoundSlots, put_behind, put_in_list};
use eco_ids::TableSlot;
use eco_index::{Choices, TypeTest};
use eco_query::Query;
use eco_tables::Tables;
use indexmap::IndexSet;
use std::alloc::{AllocError, Global};

// Of so few slots those whose tables have rows mostly take no memory.
const FEW_SLOTS: usize = 16;

impl Archetypes {
    /// Keeps the slots of the tables whose types fulfil the query, from now on: the answer is the number by which a
    /// [`TypeTest`] names them. It goes over all tables once. No table changes, whether it succeeds or not.
    pub fn keep(&mut self, query: Query) -> Result<usize, AllocError>
        ensures same { self.new ≡ self.old }
    {
        let slots = fulfilling(self.alloc, &self.tables, &query)?;
        let only = only_on(self.alloc, &self.tables, &query, slots.as_slice())?;
        self.caches.add(query, slots, only)
    }

    /// The only choice that the query has on the type of each of these slots, slot by slot: none, where on one it has not just
    /// one. Where the store keeps the query at hand, `cache` is the number that it gave, and mostly no type is looked at. An
    /// `Err` comes where memory is refused.
    pub fn only_of(
        &self,
        query: &Query,
        cache: Option<usize>,
        slots: &[TableSlot],
    ) -> Result<Option<Choices>, AllocError>
        ensures kept { IfOk result (λ o. IfSome o (AreKept (type_at self.now) query.now slots.now)) }
        ensures none { IfOk result (λ o. IfNone o ((c : ChoicesState) →
            AreKept (type_at self.now) query.now slots.now c → ⊥)) }
    {
        if let Some(only) = self.kept_of(query, cache, slots)? {
            return Ok(Some(only));
        }
        only_on(self.alloc, &self.tables, query, slots)
    }

    // What `only_of` answers where a cache keeps it.
    fn kept_of(
        &self,
        query: &Query,
        cache: Option<usize>,
        slots: &[TableSlot],
    ) -> Result<Option<Choices>, AllocError>
        ensures { IfOk result (λ o. IfSome o (AreKept (type_at self.now) query.now slots.now)) }
    {
        match cache {
            Some(number) => self.caches.only_of(self.alloc, number, query, slots),
            None => Ok(None),
        }
    }

    // The slots of the tables whose types pass, each once, where a cache has them.
    pub(super) fn cached<T: TypeTest>(&self, test: &T) -> Option<&[TableSlot]>
        ensures those { IfSome result (λ s. ArePassing (T.test test.now) self.now s.now) }
        ensures distinct { IfSome result (λ s. IsDistinct nat_eq s.now) }
    {
        let (number, query) = test.cached()?;
        self.caches.of_query(number, query)
    }

    // Those of the slots whose tables have rows.
    pub(super) fn with_rows(&self, slots: &[TableSlot]) -> Result<FoundSlots, AllocError>
        ensures all { IfOk result (λ v. v.items ≡ filter (has_rows self.now) slots.now) }
        ensures some { OnErr result (IsTrue (list_any (has_rows self.now) slots.now)) }
    {
        if slots.len() > FEW_SLOTS {
            self.many_with_rows(slots)
        } else {
            self.few_with_rows(slots)
        }
    }

    // The same, which takes no memory where few have rows.
    fn few_with_rows(&self, slots: &[TableSlot]) -> Result<FoundSlots, AllocError>
        ensures all { IfOk result (λ v. v.items ≡ filter (has_rows self.now) slots.now) }
        ensures some { OnErr result (IsTrue (list_any (has_rows self.now) slots.now)) }
    {
        let mut found = FoundSlots::new(self.alloc);
        for slot in slots {
            if self.tables.row_count(*slot) > 0 {
                put_behind(&mut found, *slot, slots.len())?;
            }
        }
        Ok(found)
    }

    // The same, by a list that takes memory from the first one on: so it is not asked for each where the list lies.
    fn many_with_rows(&self, slots: &[TableSlot]) -> Result<FoundSlots, AllocError>
        ensures all { IfOk result (λ v. v.items ≡ filter (has_rows self.now) slots.now) }
        ensures some { OnErr result (IsTrue (list_any (has_rows self.now) slots.now)) }
    {
        let mut found = Vec::new(self.alloc);
        for slot in slots {
            if self.tables.row_count(*slot) > 0 {
                put_in_list(&mut found, *slot, slots.len())?;
            }
        }
        Ok(FoundSlots::from_vec(found))
    }
}

// The slots of the tables whose types fulfil the query.
fn fulfilling(
    alloc: Global,
    tables: &Tables,
    query: &Query,
) -> Result<IndexSet<TableSlot>, AllocError>
    ensures { IfOk result (λ s. AreThose (type_at tables.now) query.now s.keys) }
{
    let mut slots = IndexSet::new(alloc);
    for slot in 0..tables.slot_count() {
        note(&mut slots, slot, is_fulfilled(tables, slot, query))?;
    }
    Ok(slots)
}

// Whether there is a table in the slot whose type fulfils the query.
fn is_fulfilled(tables: &Tables, slot: TableSlot, query: &Query) -> bool
    ensures { result ≡ fulfils (type_at tables.now slot) query.now }
{
    match tables.get(slot) {
        Some(table) => query.matches_type(table.type_list()),
        None => false,
    }
}

// Puts the slot to the others, if it is to stand there.
fn note(slots: &mut IndexSet<TableSlot>, slot: TableSlot, stands: bool) -> Result<(), AllocError>
    ensures { OnOk result ((n : ℕ) → list_any (nat_eq n) slots.new.keys
        ≡ cond (nat_eq slot n && stands) true (list_any (nat_eq n) slots.old.keys)) }
{
    if stands {
        slots.insert(slot)?;
    }
    Ok(())
}

// The only choice that the query has on the type of each of these slots; none, where on one it has not just one.
fn only_on(
    alloc: Global,
    tables: &Tables,
    query: &Query,
    slots: &[TableSlot],
) -> Result<Option<Choices>, AllocError>
    ensures kept { IfOk result (λ o. IfSome o (AreKept (type_at tables.now) query.now slots.now)) }
    ensures none { IfOk result (λ o. IfNone o ((c : ChoicesState) →
        AreKept (type_at tables.now) query.now slots.now c → ⊥)) }
{
    let terms = query.slots();
    query.is_positive();
    let mut only = Choices::with_room(alloc, terms.len(), slots.len())?;
    for slot in slots {
        let Some(table) = tables.get(*slot) else {
            return Ok(None);
        };
        if !only.push_only(terms, table.type_list())? {
            return Ok(None);
        }
    }
    Ok(Some(only))
}
