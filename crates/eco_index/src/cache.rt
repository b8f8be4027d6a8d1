//! A query with the slots of the tables whose types fulfil it.
ghost use Rattle.std.specs.Prelude.{◌≡◌, ◌<◌, ◌≤◌, ℕ, List, false, length, None, Some, Option};
ghost use Rattle.std.specs.Prelude.{IfNone, IfOk, IfSome, MatchOption, OnOk, OnErr};
ghost use Rattle.std.specs.HashSet.{IsUnchanged, spare};
ghost use Rattle.eco_ids.specs.Answer.{choices};
ghost use Rattle.eco_ids.specs.declared.id.Id.{Id as Ids};
ghost use Rattle.eco_index.specs.Answers.{asked};
ghost use Rattle.eco_index.specs.Flat.{ChoicesState};
ghost use Rattle.eco_index.specs.Caching.{AreKept, HasChoices, IsExact, IsTold, KeepsNew, KeepsOnly, KeepsStill, LosesOnly, fulfils};

use crate::Choices;
use eco_ids::{TableSlot, TypeList};
use eco_query::Query;
use indexmap::IndexSet;
use std::alloc::{AllocError, Global};

/// A query, and slots in any order, each once. While the query has just one choice of entries on the type of each, these
/// are kept, slot by slot. No model: the crate's contracts read the fields.
pub struct Cache {
    pub(crate) query: Query,
    pub(crate) slots: IndexSet<TableSlot>,
    pub(crate) only: Option<Choices>,
}

// By hand, so that dropping it is one call: a derived drop is proved anew at each early return of whoever holds it.
impl Drop for Cache {
    fn drop(self) {
        let Cache {
            query: _,
            slots: _,
            only: _,
        } = self;
    }
}

impl Cache {
    /// Room for one slot more, and for a choice on its type. No slot comes or goes, whether it succeeds or not.
    pub fn reserve_one(&mut self) -> Result<(), AllocError>
        ensures query { self.new.query ≡ self.old.query }
        ensures slots { self.new.slots.keys ≡ self.old.slots.keys }
        ensures only { self.new.only ≡ self.old.only }
        ensures room { OnOk result (0 < spare self.new.slots) }
    {
        if let Some(only) = &mut self.only {
            only.reserve_one()?;
        }
        self.slots.reserve(1)
    }

    /// The table in the slot has this type from now on: the slot comes in where the type fulfils the query, and else it goes
    /// out. Choices are kept no more where the type fulfils the query and has several, or memory for its own is refused. It
    /// takes no memory but for these.
    pub fn tell(&mut self, slot: TableSlot, type_list: &TypeList)
        requires { 0 < spare self.old.slots }
        ensures query { self.new.query ≡ self.old.query }
        ensures told { IsTold self.old self.new slot (Some type_list.now) }
        ensures kept { KeepsStill self.old self.new (Some type_list.now) }
    {
        if !self.query.matches_type(type_list) {
            self.take_out(slot);
            return;
        }
        let (place, is_new) = self.slots.insert_full(slot).unwrap();
        if let Some(only) = self.only.take() {
            self.only = with_only(only, &self.query, type_list, place, is_new);
        }
    }

    /// The slot has no table from now on. Choices that were kept are kept still. It takes no memory.
    pub fn forget(&mut self, slot: TableSlot)
        ensures query { self.new.query ≡ self.old.query }
        ensures told { IsTold self.old self.new slot None }
        ensures kept { KeepsStill self.old self.new None }
    {
        self.take_out(slot);
    }

    // The slot has no table from now on, or one whose type does not fulfil the query. Choices that were kept are kept still.
    fn take_out(&mut self, slot: TableSlot)
        ensures query { self.new.query ≡ self.old.query }
        ensures told { (o : Option (List Ids)) → fulfils o self.old.query ≡ false
            → IsTold self.old self.new slot o }
        ensures kept { KeepsStill self.old self.new None }
    {
        let Some((place, _)) = self.slots.swap_remove_full(&slot) else {
            return;
        };
        if let Some(only) = self.only.take() {
            self.only = without(only, place);
        }
    }

    /// The only choice that the query has on the type of each of these slots, slot by slot, where these are the slots that
    /// the cache has, and it keeps choices. An `Err` comes where memory is refused.
    pub fn only_of(&self, alloc: Global, slots: &[TableSlot]) -> Result<Option<Choices>, AllocError>
        ensures found { IfOk result (λ o. MatchOption o
            ((c : ChoicesState) → HasChoices self.now slots.now c → ⊥) (HasChoices self.now slots.now)) }
        ensures kept { IfOk result (λ o. IfSome o (λ c. (types : ℕ → Option (List Ids)) →
            IsExact types self.now → AreKept types self.now.query slots.now c)) }
    {
        match &self.only {
            Some(only) if self.slots.as_slice() == slots => Ok(Some(only.try_copy(alloc)?)),
            _ => Ok(None),
        }
    }

    /// The same query, slots and choices once more. An `Err` comes where memory is refused.
    pub fn try_copy(&self, alloc: Global) -> Result<Cache, AllocError>
        ensures query { IfOk result (λ c. c.query ≡ self.now.query) }
        ensures slots { IfOk result (λ c. c.slots.keys ≡ self.now.slots.keys) }
        ensures only { IfOk result (λ c. c.only ≡ self.now.only) }
    {
        let query = self.query.try_copy(alloc)?;
        let only = match &self.only {
            Some(only) => Some(only.try_copy(alloc)?),
            None => None,
        };
        let slots = self.slots.clone()?;
        Ok(Cache { query, slots, only })
    }
}

// The choices with the only one that the query has on a type: at the end, where its slot is new, and else at the place of its
// slot. None, where it has not just one.
fn with_only(
    only: Choices,
    query: &Query,
    type_list: &TypeList,
    place: usize,
    is_new: bool,
) -> Option<Choices>
    ensures { IfSome result (λ c.
        KeepsOnly only c (choices type_list.now (asked query.now)) place is_new) }
{
    let more = with_new(only, query, type_list)?;
    if is_new {
        Some(more)
    } else {
        // The last one, which came just now, takes the place of that of the old type.
        without(more, place)
    }
}

// The choices with the only one that the query has on a type at the end. None, where it has not just one.
fn with_new(mut only: Choices, query: &Query, type_list: &TypeList) -> Option<Choices>
    ensures { IfSome result (λ c. KeepsNew only c (choices type_list.now (asked query.now))) }
{
    let terms = query.slots();
    query.is_positive();
    if only.width() != terms.len() {
        return None;
    }
    match only.push_only(terms, type_list) {
        Ok(true) => Some(only),
        _ => None,
    }
}

// The choices without the one at a place. None, where it is not there.
fn without(mut only: Choices, place: usize) -> Option<Choices>
    ensures lost { IfSome result (λ c. LosesOnly only c place) }
    ensures none { IfNone result (length only.all ≤ place) }
{
    if place >= only.count() {
        return None;
    }
    only.swap_remove(place);
    Some(only)
}
