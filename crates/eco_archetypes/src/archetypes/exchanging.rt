//! The table whose type has one id in the place of another.
ghost use Rattle.std.specs.Prelude.{◌≡◌, ◌≢◌, ◌<◌, ◌+◌, drop, length, slice_get, take, Some, IsSome, IsTrue, true};
ghost use Rattle.std.specs.Prelude.{false, IfOk, IfSome};
ghost use Rattle.eco_ids.specs.Order.{id_cmp, has_item};
ghost use Rattle.eco_tables.specs.Tables.{slot_of, table_in};
ghost use Rattle.eco_index.specs.Edges.{exchanged};
ghost use Rattle.eco_archetypes.specs.Archetypes.{type_at, FindsRoom};

use crate::archetypes::{Archetypes, are_same, type_in};
use eco_entities::EntityIndex;
use eco_ids::{FEW_IDS, Id, TableSlot, TypeList};
use std::alloc::AllocError;

// The type with one id in the place of another.
fn exchanged(type_list: &TypeList, leaving: Id, coming: Id) -> Result<TypeList, AllocError>
    ensures { IfOk result (λ ids. ids ≡ exchanged type_list.now leaving coming) }
{
    let mut ids = type_list.try_copy()?;
    ids.remove(leaving);
    ids.insert(coming)?;
    Ok(ids)
}

// Whether two lists are the same before a place that both have.
#[inline(always)]
fn are_same_before(own: &[Id], other: &[Id], place: usize) -> bool
    requires places { (place < length own.now) × (place < length other.now) }
    ensures { IsTrue result → take place own.now ≡ take place other.now }
{
    are_same(&own[..place], &other[..place])
}

// Whether two lists are the same behind a place that both have.
#[inline(always)]
fn are_same_behind(own: &[Id], other: &[Id], place: usize) -> bool
    requires places { (place < length own.now) × (place < length other.now) }
    ensures { IsTrue result → drop (place + 1) own.now ≡ drop (place + 1) other.now }
{
    are_same(&own[place + 1..], &other[place + 1..])
}

// Whether the other list has an id at the place, and is the same as the own one before and behind it.
#[inline(always)]
fn differs_there(own: &[Id], other: &[Id], place: usize, id: Id) -> bool
    requires { place < length own.now }
    ensures there { IsTrue result → slice_get other.now place ≡ Some id }
    ensures before { IsTrue result → take place own.now ≡ take place other.now }
    ensures behind { IsTrue result → drop (place + 1) own.now ≡ drop (place + 1) other.now }
{
    place < other.len()
        && other[place].is(id)
        && are_same_before(own, other, place)
        && are_same_behind(own, other, place)
}

impl Archetypes {
    /// The slot of the table whose type is that of the table in this slot with one id, which it has, exchanged for another,
    /// which it lacks. The table has room for one more row, and where there was none it is made. An `Err` comes where memory
    /// is refused, and then nothing has changed. No row changes.
    pub fn exchange(
        &mut self,
        entities: &EntityIndex,
        slot: TableSlot,
        leaving: Id,
        coming: Id,
    ) -> Result<TableSlot, AllocError>
        requires slot { IsSome (slot_of self.old slot) }
        requires there { has_item id_cmp (table_in self.old slot).ids leaving ≡ true }
        requires absent { has_item id_cmp (table_in self.old slot).ids coming ≡ false }
        ensures finds { FindsRoom entities.now self.old self.new
            (exchanged (table_in self.old slot).ids leaving coming) 1 result }
        ensures apart { IfOk result (λ n. slot ≢ n) }
    {
        match self.known_exchange(slot, leaving, coming) {
            Some(to) => {
                self.reserve_rows(to, 1)?;
                Ok(to)
            }
            None => self.exchange_by_type(entities, slot, leaving, coming),
        }
    }

    // The slot of the table with the exchanged type, where it is found without that type.
    #[inline(always)]
    fn known_exchange(&self, slot: TableSlot, leaving: Id, coming: Id) -> Option<TableSlot>
        requires slot { IsSome (slot_of self.now slot) }
        requires there { has_item id_cmp (table_in self.now slot).ids leaving ≡ true }
        requires absent { has_item id_cmp (table_in self.now slot).ids coming ≡ false }
        ensures there { IfSome result (λ n. IsSome (slot_of self.now n)) }
        ensures apart { IfSome result (λ n. slot ≢ n) }
        ensures typed { IfSome result
            (λ n. type_at self.now n ≡ Some (exchanged (table_in self.now slot).ids leaving coming)) }
    {
        // To compare a few ids costs less than to look for two edges, which lie apart from their tables.
        if type_in(&self.tables, slot).as_slice().len() <= FEW_IDS
            && let Some(to) = self.first_exchanged(slot, leaving, coming)
        {
            return Some(to);
        }
        match self.lead_on(slot, leaving, coming) {
            Some(to) => Some(to),
            None => self.first_exchanged(slot, leaving, coming),
        }
    }

    // The slot of the first table that has the coming id, if its type is the exchanged one and the two ids stand at one place.
    // Who gets another target mostly joins those who have all else alike, so no type has to be made and hashed to find them.
    #[inline(never)]
    fn first_exchanged(&self, slot: TableSlot, leaving: Id, coming: Id) -> Option<TableSlot>
        requires slot { IsSome (slot_of self.now slot) }
        requires absent { has_item id_cmp (table_in self.now slot).ids coming ≡ false }
        ensures there { IfSome result (λ n. IsSome (slot_of self.now n)) }
        ensures apart { IfSome result (λ n. slot ≢ n) }
        ensures typed { IfSome result
            (λ n. type_at self.now n ≡ Some (exchanged (table_in self.now slot).ids leaving coming)) }
    {
        let to = self.by_id.any(coming)?;
        let own = type_in(&self.tables, slot);
        let other = self.tables.get(to)?.type_list();
        let place = own.find(leaving)?;
        if differs_there(own.as_slice(), other.as_slice(), place, coming) {
            Some(to)
        } else {
            None
        }
    }

    // The slot to which two edges lead, one after the other, if both are stored: through the table that has neither id.
    fn lead_on(&self, slot: TableSlot, leaving: Id, coming: Id) -> Option<TableSlot>
        requires slot { IsSome (slot_of self.now slot) }
        requires there { has_item id_cmp (table_in self.now slot).ids leaving ≡ true }
        requires absent { has_item id_cmp (table_in self.now slot).ids coming ≡ false }
        ensures there { IfSome result (λ n. IsSome (slot_of self.now n)) }
        ensures apart { IfSome result (λ n. slot ≢ n) }
        ensures typed { IfSome result
            (λ n. type_at self.now n ≡ Some (exchanged (table_in self.now slot).ids leaving coming)) }
    {
        let between = self.lead(slot, leaving)?;
        let to = self.lead(between, coming)?;
        Some(to)
    }

    // What `exchange` does where an edge is missing.
    #[inline(never)]
    fn exchange_by_type(
        &mut self,
        entities: &EntityIndex,
        slot: TableSlot,
        leaving: Id,
        coming: Id,
    ) -> Result<TableSlot, AllocError>
        requires slot { IsSome (slot_of self.old slot) }
        requires absent { has_item id_cmp (table_in self.old slot).ids coming ≡ false }
        ensures finds { FindsRoom entities.now self.old self.new
            (exchanged (table_in self.old slot).ids leaving coming) 1 result }
        ensures apart { IfOk result (λ n. slot ≢ n) }
    {
        let type_list = exchanged(type_in(&self.tables, slot), leaving, coming)?;
        self.room_for(entities, &type_list, 1)
    }
}
