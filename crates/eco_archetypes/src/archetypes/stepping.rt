//! The step from a type to the one that has an id more, or less.
ghost use Rattle.std.specs.Prelude.{◌≡◌, ◌≢◌, Some, IsSome, IsTrue, IfOk, IfSome};
ghost use Rattle.eco_ids.specs.Order.{id_cmp, is_ascending};
ghost use Rattle.eco_tables.specs.Tables.{slot_of, table_in, SetsRoom};
ghost use Rattle.eco_index.specs.Edges.{toggled};
ghost use Rattle.eco_archetypes.specs.Archetypes.{type_at, FindsRoom};

use crate::archetypes::{Archetypes, type_in};
use eco_entities::EntityIndex;
use eco_ids::{Id, TableSlot, TypeList};
use std::alloc::AllocError;

// The type with the id, or without it where it has it.
pub(super) fn toggled(type_list: &TypeList, id: Id) -> Result<TypeList, AllocError>
    ensures is { IfOk result (λ ids. ids ≡ toggled type_list.now id) }
    ensures ascending { IsTrue (is_ascending id_cmp type_list.now) }
{
    if type_list.has(id) {
        type_list.without(id)
    } else {
        type_list.with(id)
    }
}

impl Archetypes {
    /// The slot of the table that an id leads to: its type has the id where that of the table in this slot lacks it, and
    /// lacks it where that has it. The table has room for so many more rows, and where there was none it is made. An `Err`
    /// comes where memory is refused, and then nothing has changed. No row changes.
    #[inline(always)]
    pub fn step(
        &mut self,
        entities: &EntityIndex,
        slot: TableSlot,
        id: Id,
        more: usize,
    ) -> Result<TableSlot, AllocError>
        requires { IsSome (slot_of self.old slot) }
        ensures finds { FindsRoom entities.now self.old self.new
            (toggled (table_in self.old slot).ids id) more result }
        ensures apart { IfOk result (λ n. slot ≢ n) }
    {
        match self.lead(slot, id) {
            Some(to) => {
                self.reserve_rows(to, more)?;
                Ok(to)
            }
            None => self.step_anew(entities, slot, id, more),
        }
    }

    /// The slot of the table that the id leads to, if an edge is stored. Mostly one is, where an entity steps as others did.
    #[inline(always)]
    pub fn lead(&self, slot: TableSlot, id: Id) -> Option<TableSlot>
        ensures there { IfSome result (λ n. IsSome (slot_of self.now n)) }
        ensures apart { IfSome result (λ n. slot ≢ n) }
        ensures typed { IfSome result
            (λ n. type_at self.now n ≡ Some (toggled (table_in self.now slot).ids id)) }
    {
        let to = self.edges.get(slot, id)?;
        Some(to)
    }

    /// Room for so many more rows in the table in this slot, which is the answer. An `Err` comes where memory is refused. No row
    /// and no other table changes.
    #[inline(always)]
    pub fn make_room(
        &mut self,
        entities: &EntityIndex,
        slot: TableSlot,
        more: usize,
    ) -> Result<TableSlot, AllocError>
        requires { IsSome (slot_of self.old slot) }
        ensures same { IfOk result (λ n. n ≡ slot) }
        ensures finds { FindsRoom entities.now self.old self.new (table_in self.old slot).ids more result }
        ensures sets { SetsRoom self.old self.new slot }
    {
        self.reserve_rows(slot, more)?;
        Ok(slot)
    }

    // What `step` does where no edge is stored. One is stored where the table was there already: to one that this step makes, it
    // may be the only one.
    #[cold]
    #[inline(never)]
    fn step_anew(
        &mut self,
        entities: &EntityIndex,
        slot: TableSlot,
        id: Id,
        more: usize,
    ) -> Result<TableSlot, AllocError>
        requires { IsSome (slot_of self.old slot) }
        ensures finds { FindsRoom entities.now self.old self.new
            (toggled (table_in self.old slot).ids id) more result }
        ensures apart { IfOk result (λ n. slot ≢ n) }
    {
        let type_list = toggled(type_in(&self.tables, slot), id)?;
        let Some(to) = self.find(&type_list) else {
            return self.make_with_room(entities, type_list, more);
        };
        self.link(slot, id, to);
        self.make_room(entities, to, more)
    }

    // The id leads from either of the two tables to the other, unless memory is refused for that.
    fn link(&mut self, from: TableSlot, id: Id, to: TableSlot)
        requires from { IsSome (slot_of self.old from) }
        requires ascending { IsTrue (is_ascending id_cmp (table_in self.old from).ids) }
        requires to { type_at self.old to ≡ Some (toggled (table_in self.old from).ids id) }
        ensures { self.new ≡ self.old }
    {
        if self.edges.get(from, id).is_none() {
            let _linked = self.edges.link(from, id, to);
        }
    }
}
