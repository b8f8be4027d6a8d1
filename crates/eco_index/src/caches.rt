//! The caches of a store's queries, told of each table that is made, takes another type or is dropped.
ghost use Rattle.std.specs.Prelude.{◌≡◌, ℕ, List, [], None, Some, IfOk, IfSome, MatchOption, OnErr, OnOk, Option, length, nat_eq};
ghost use Rattle.eco_ids.specs.declared.id.Id.{Id as Ids};
ghost use Rattle.std.specs.List.{IsDistinct};
ghost use Rattle.eco_index.specs.Flat.{ChoicesState};
ghost use Rattle.eco_index.specs.Caching.{AddsCache, AreExact, AreKept, AreThose, AreTold, FindsChoices, HasSlots, HaveRoom, KeepStill};
ghost use Rattle.eco_index.specs.Caching.{StayExact, cache_states, kept_queries};

use crate::Choices;
use crate::cache::Cache;
use eco_ids::{TableSlot, TypeList};
use eco_query::Query;
use indexmap::IndexSet;
use std::alloc::{AllocError, Global};

/// Each cache keeps its number. No model: contracts see the list, as `cache_list`.
pub struct Caches {
    list: Vec<Cache>,
}

// By hand, so that dropping it is one call: a derived drop is proved anew at each early return of whoever holds it.
impl Drop for Caches {
    fn drop(self) {
        let Caches { list: _ } = self;
    }
}

impl Caches {
    ghost use Rattle.eco_index.specs.CachesContents.{cache_list};

    /// No cache.
    pub fn new(alloc: Global) -> Caches
        ensures { cache_list result ≡ [] }
    {
        Caches {
            list: Vec::new(alloc),
        }
    }

    /// Room for one slot more in each cache. No slot comes or goes, whether it succeeds or not.
    pub fn reserve_one(&mut self) -> Result<(), AllocError>
        ensures queries { kept_queries (cache_list self.new) ≡ kept_queries (cache_list self.old) }
        ensures states { cache_states (cache_list self.new) ≡ cache_states (cache_list self.old) }
        ensures same { StayExact (cache_list self.old) (cache_list self.new) }
        ensures room { OnOk result (HaveRoom (cache_list self.new)) }
    {
        for cache in self.list.iter_mut() {
            cache.reserve_one()?;
        }
        Ok(())
    }

    /// The table in the slot has this type from now on. A cache whose query the type does not fulfil keeps choices as before.
    /// It takes no memory but for the choices on this type.
    pub fn tell(&mut self, slot: TableSlot, type_list: &TypeList)
        requires { HaveRoom (cache_list self.old) }
        ensures queries { kept_queries (cache_list self.new) ≡ kept_queries (cache_list self.old) }
        ensures told { AreTold (cache_list self.old) (cache_list self.new) slot (Some type_list.now) }
        ensures kept { KeepStill (cache_list self.old) (cache_list self.new) (Some type_list.now) }
    {
        for cache in self.list.iter_mut() {
            cache.tell(slot, type_list);
        }
    }

    /// The slot has no table from now on. Each cache keeps choices as before. It takes no memory.
    pub fn forget(&mut self, slot: TableSlot)
        ensures queries { kept_queries (cache_list self.new) ≡ kept_queries (cache_list self.old) }
        ensures told { AreTold (cache_list self.old) (cache_list self.new) slot None }
        ensures kept { KeepStill (cache_list self.old) (cache_list self.new) None }
    {
        for cache in self.list.iter_mut() {
            cache.forget(slot);
        }
    }

    /// Puts a query, its slots and the only choice on the type of each, where each has just one, behind the other caches; the
    /// answer is its number. An `Err` comes where memory is refused.
    pub fn add(
        &mut self,
        query: Query,
        slots: IndexSet<TableSlot>,
        only: Option<Choices>,
    ) -> Result<usize, AllocError>
        ensures number { IfOk result (λ n. n ≡ length (cache_list self.old)) }
        ensures added { OnOk result
            (AddsCache (cache_list self.old) (cache_list self.new) query slots.keys only) }
        ensures refused { OnErr result (cache_list self.new ≡ cache_list self.old) }
        ensures exact { (types : ℕ → Option (List Ids)) →
            AreExact types (cache_list self.old) → AreThose types query slots.keys
            → IfSome only (AreKept types query slots.keys) → AreExact types (cache_list self.new) }
    {
        let number = self.list.len();
        let cache = Cache { query, slots, only };
        self.list.reserve(1)?;
        self.list.push_reserved(cache);
        Ok(number)
    }

    /// The slots of the cache of this number, if it is there and of this query.
    pub fn of_query(&self, number: usize, query: &Query) -> Option<&[TableSlot]>
        ensures found { MatchOption result
            ((ns : List ℕ) → HasSlots (cache_list self.now) number query.now ns → ⊥)
            (λ s. HasSlots (cache_list self.now) number query.now s.now) }
        ensures those { IfSome result (λ s. (types : ℕ → Option (List Ids)) →
            AreExact types (cache_list self.now) → AreThose types query.now s.now) }
        ensures distinct { IfSome result (λ s. IsDistinct nat_eq s.now) }
    {
        let cache = self.list.get(number)?;
        if cache.query.is(query) {
            Some(cache.slots.as_slice())
        } else {
            None
        }
    }

    /// The only choice that the query has on the type of each of these slots, slot by slot, where the cache of this number is
    /// there, is of this query, has these slots and keeps choices. An `Err` comes where memory is refused.
    pub fn only_of(
        &self,
        alloc: Global,
        number: usize,
        query: &Query,
        slots: &[TableSlot],
    ) -> Result<Option<Choices>, AllocError>
        ensures found { IfOk result (λ o. MatchOption o
            ((c : ChoicesState) → FindsChoices (cache_list self.now) number query.now slots.now c → ⊥)
            (FindsChoices (cache_list self.now) number query.now slots.now)) }
        ensures kept { IfOk result (λ o. IfSome o (λ c. (types : ℕ → Option (List Ids)) →
            AreExact types (cache_list self.now) → AreKept types query.now slots.now c)) }
    {
        match self.list.get(number) {
            Some(cache) if cache.query.is(query) => cache.only_of(alloc, slots),
            _ => Ok(None),
        }
    }

    /// The same caches once more. An `Err` comes where memory is refused.
    pub fn try_copy(&self, alloc: Global) -> Result<Caches, AllocError>
        ensures same { IfOk result (λ c. cache_states (cache_list c) ≡ cache_states (cache_list self.now)) }
        ensures exact { IfOk result (λ c. StayExact (cache_list self.now) (cache_list c)) }
    {
        let mut list = Vec::with_capacity(alloc, self.list.len())?;
        for cache in &self.list {
            list.push(cache.try_copy(alloc)?)?;
        }
        Ok(Caches { list })
    }
}
