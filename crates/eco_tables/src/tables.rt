//! Tables, each in a slot of its own.
ghost use Rattle.std.specs.Prelude.{◌≡◌, ◌≢◌, ℕ, ◌<◌, ◌≤◌, ◌+◌, ◌-◌, [], ◌∷◌, length, slice_get, slice_index_or};
ghost use Rattle.std.specs.Prelude.{slice_set, None, Some, IsSome, is_some, OnSome, IfNone, count_by, OnOk, OnErr};
ghost use Rattle.std.specs.Prelude.{IsOk, IfOk, option_copied, unwrap_or};
ghost use Rattle.std.specs.FinMap.Entries.{find};
ghost use Rattle.eco_ids.specs.declared.value.TheConstants.{FIELD_COUNT};
ghost use Rattle.eco_ids.specs.Order.{id_cmp};
ghost use Rattle.eco_tables.specs.Column.{value_in, with_held};
ghost use Rattle.std.specs.List.{All};
ghost use Rattle.std.specs.Slice.Iter.{iter_rest};
ghost use Rattle.eco_tables.specs.Table.{TableState, TableRow, entities_of, empty_table, Agree, FitsId, RowsHaveIds};
ghost use Rattle.eco_tables.specs.Table.{StoresFields, TypeAscends};
ghost use Rattle.eco_tables.specs.Tables.{slot_of, table_in, row_in, no_row, SetsSlot, SetsRoom, Moves, MovesAll};
ghost use Rattle.eco_tables.specs.Tables.{cleared, new_row, with_room, with_row, with_rows, with_written, without_row};
ghost use Rattle.eco_tables.specs.Tables.{without_rows, no_table, rowless_type, AllAscend, AllHaveIds};
ghost use Rattle.std.specs.Prelude.{IsTrue, drop, take};
ghost use Rattle.eco_ids.specs.Data.{is_zero_past};
ghost use Rattle.eco_ids.specs.Order.{has_item};
ghost use Rattle.eco_ids.specs.declared.value.Value.{Value as Values};
ghost use Rattle.eco_tables.specs.Runs.{IsLongestRun, IsRunOf, run_values, table_with_run};

use crate::table::Table;
use crate::tables::lending::{table_mut, two_mut};
use eco_ids::{Entity, Id, TableSlot, TypeList, Value};
use std::alloc::{AllocError, Global};
use std::marker::Model;
use std::slice;

mod copies;
mod lending;
mod turning;

/// A contract sees a list of slots, each with a table or nothing. A slot keeps its number as long as its table lives; a
/// slot whose table was dropped may be used again.
pub struct Tables {
    alloc: Global,
    slots: Vec<Option<Table>>,
    // The slots without a table, with room for all of them, so that a table is dropped without memory.
    vacant: Vec<TableSlot>,
}

// By hand, so that dropping it is one call: a derived drop is proved anew at each early return of whoever holds it.
impl Drop for Tables {
    fn drop(self) {
        let Tables {
            alloc: _,
            slots: _,
            vacant: _,
        } = self;
    }
}

impl Model for Tables {
    ghost use Rattle.std.specs.Prelude.{List, Option, vec_capacity};
    ghost use Rattle.eco_tables.specs.Table.{TableState};
    ghost use Rattle.eco_tables.specs.Tables.{AreSlots};

    ghost Value = { List (Option TableState) };

    ghost view = { λ t. t.slots.items };

    ghost invariant = { λ t. AreSlots t.slots.items t.vacant.items (vec_capacity t.vacant) };
}

impl Tables {
    /// No table. What grows later takes its memory from `alloc`.
    pub fn new(alloc: Global) -> Tables
        ensures { (n : ℕ) → slot_of result n ≡ None }
    {
        Tables {
            alloc,
            slots: Vec::new(alloc),
            vacant: Vec::new(alloc),
        }
    }

    /// Does nothing, and its contract says that each row of each table has a value for each id of the table's type.
    pub fn rows_have_ids(&self)
        ensures { AllHaveIds self.now }
    {
        let _slots = &self.slots;
    }

    /// Does nothing, and its contract says that the ids of each table's type ascend, each once.
    pub fn types_ascend(&self)
        ensures { AllAscend self.now }
    {
        let _slots = &self.slots;
    }

    /// A new table without rows, in a slot that was empty; the answer is the slot. An `Err` comes where memory is refused
    /// and changes nothing.
    pub fn insert(&mut self, type_list: TypeList, widths: &[u8]) -> Result<TableSlot, AllocError>
        requires lengths { length type_list ≡ length widths.now }
        requires widths { All (λ w. w ≤ FIELD_COUNT) widths.now }
        ensures vacant { IfOk result (λ n. slot_of self.old n ≡ None) }
        ensures sets { IfOk result (λ n. SetsSlot self.old self.new n
            (Some (empty_table type_list widths.now))) }
        ensures err { OnErr result (self.new ≡ self.old) }
    {
        let table = Table::new(self.alloc, type_list, widths)?;
        match self.vacant.pop() {
            Some(slot) => {
                self.slots[slot] = Some(table);
                Ok(slot)
            }
            None => self.insert_last(table),
        }
    }

    // The table in a slot of its own, where none is vacant.
    fn insert_last(&mut self, table: Table) -> Result<TableSlot, AllocError>
        requires full { count_by is_some self.old ≡ length self.old }
        requires rows { RowsHaveIds table }
        requires ascends { TypeAscends table }
        ensures vacant { IfOk result (λ n. slot_of self.old n ≡ None) }
        ensures sets { IfOk result (λ n. SetsSlot self.old self.new n (Some table)) }
        ensures err { OnErr result (self.new ≡ self.old) }
    {
        let slot = self.slots.len();
        self.slots.reserve(1)?;
        self.vacant.reserve(slot + 1)?;
        self.slots.push_reserved(Some(table));
        Ok(slot)
    }

    /// How many slots there are, with a table or without.
    pub fn slot_count(&self) -> usize
        ensures { result ≡ length self.now }
    {
        self.slots.len()
    }

    /// The table in a slot, if there is one.
    pub fn get(&self, slot: TableSlot) -> Option<&Table>
        ensures { option_copied result ≡ slot_of self.now slot }
    {
        match self.slots.get(slot) {
            Some(Some(table)) => Some(table),
            _ => None,
        }
    }

    /// The table in a slot that has one.
    #[inline]
    pub fn table(&self, slot: TableSlot) -> &Table
        requires { IsSome (slot_of self.now slot) }
        ensures { slot_of self.now slot ≡ Some result.now }
    {
        there_for_sure(&self.slots[slot])
    }

    /// The slot has a table.
    pub fn contains(&self, slot: TableSlot) -> bool
        ensures { result ≡ is_some (slot_of self.now slot) }
    {
        self.get(slot).is_some()
    }

    /// How many rows a table has, 0 where the slot is empty.
    pub fn row_count(&self, slot: TableSlot) -> usize
        ensures { result ≡ length (table_in self.now slot).rows }
    {
        match self.get(slot) {
            Some(table) => table.row_count(),
            None => 0,
        }
    }

    /// The slot has a table without rows.
    pub fn is_rowless(&self, slot: TableSlot) -> bool
        ensures { result ≡ is_some (rowless_type (slot_of self.now slot)) }
    {
        match self.get(slot) {
            Some(table) => is_rowless(table),
            None => false,
        }
    }

    /// Drops the table in a slot if it has no rows, and answers its type. Any other slot stays as it is.
    pub fn drop_empty(&mut self, slot: TableSlot) -> Option<TypeList>
        ensures answer { result ≡ rowless_type (slot_of self.old slot) }
        ensures dropped { OnSome result (SetsSlot self.old self.new slot None) }
        ensures kept { IfNone result (self.new ≡ self.old) }
    {
        if !self.is_rowless(slot) {
            return None;
        }
        let table = self.slots[slot].take()?;
        self.vacant.push_reserved(slot);
        Some(table.into_type_list())
    }

    /// How many tables there are.
    pub fn len(&self) -> usize
        ensures { result ≡ count_by is_some self.now }
    {
        self.slots.len() - self.vacant.len()
    }

    /// The slots in their order, each with its table if there is one.
    pub fn iter(&self) -> slice::Iter<'_, Option<Table>>
        ensures { iter_rest result ≡ self.now }
    {
        self.slots.iter()
    }

    /// Room for more rows in a table. An `Err` keeps all rows and the room that was there.
    pub fn reserve_rows(&mut self, slot: TableSlot, more: usize) -> Result<(), AllocError>
        requires { IsSome (slot_of self.old slot) }
        ensures sets { SetsRoom self.old self.new slot }
        ensures kept { (table_in self.old slot).room ≤ (table_in self.new slot).room }
        ensures room { OnOk result (more ≤ (table_in self.new slot).room) }
        ensures err { OnErr result ((table_in self.new slot).room ≡ (table_in self.old slot).room) }
        ensures ready { more ≤ (table_in self.old slot).room → IsOk result }
    {
        table_mut(&mut self.slots, slot).reserve(more)
    }

    /// Room for so many rows more than a table had room for, and for no more than that. An `Err` keeps all rows and the room
    /// that was there.
    pub fn reserve_more(&mut self, slot: TableSlot, more: usize) -> Result<(), AllocError>
        requires { IsSome (slot_of self.old slot) }
        ensures sets { SetsRoom self.old self.new slot }
        ensures kept { (table_in self.old slot).room ≤ (table_in self.new slot).room }
        ensures room { OnOk result ((table_in self.new slot).room ≡ (table_in self.old slot).room + more) }
        ensures err { OnErr result ((table_in self.new slot).room ≡ (table_in self.old slot).room) }
        ensures ready { more ≡ 0 → IsOk result }
    {
        table_mut(&mut self.slots, slot).reserve_more(more)
    }

    /// Takes the promise of room in a table back. Its memory stays.
    pub fn waive(&mut self, slot: TableSlot)
        requires { IsSome (slot_of self.old slot) }
        ensures { SetsSlot self.old self.new slot (Some (with_room (table_in self.old slot) 0)) }
    {
        table_mut(&mut self.slots, slot).waive();
    }

    /// Gives up the room in a table but for so many more rows. The memory of the rest goes back, where the allocator takes it.
    pub fn shrink(&mut self, slot: TableSlot, room: usize)
        requires there { IsSome (slot_of self.old slot) }
        requires room { room ≤ (table_in self.old slot).room }
        ensures { SetsSlot self.old self.new slot (Some (with_room (table_in self.old slot) room)) }
    {
        table_mut(&mut self.slots, slot).shrink(room);
    }

    /// Writes the value of an id in a row, and takes no memory. The answer is whether the table's type has the id; where it
    /// lacks it nothing is written. The id's column is looked for at the place `near` first, where it is remembered.
    #[inline(always)]
    pub fn set_value(
        &mut self,
        slot: TableSlot,
        row: usize,
        id: Id,
        value: Value,
        near: &mut usize,
    ) -> bool
        requires row { row < length (table_in self.old slot).rows }
        requires fits { FitsId (table_in self.old slot) id value }
        ensures written { SetsSlot self.old self.new slot
            (Some (with_written (table_in self.old slot) row id value)) }
        ensures had { result ≡ is_some (find id_cmp id (row_in self.old slot row).held) }
    {
        table_mut(&mut self.slots, slot).set_value(row, id, value, near)
    }

    /// Writes values of an id in rows one behind the other, from this one on: of the sets, each of an entity and the first fields of
    /// its value, as many as are of the entities of these rows, at indices no lower than the least, with zeros past so many fields.
    /// It takes no memory. The answer is how many are written; none where no fields of the id are kept.
    #[inline]
    pub fn set_rows<const N: usize>(
        &mut self,
        slot: TableSlot,
        row: usize,
        id: Id,
        sets: &[(Entity, [i64; N])],
        arity: u8,
        least: u32,
    ) -> usize
        requires few { N ≤ FIELD_COUNT }
        requires row { row < length (table_in self.old slot).rows }
        requires fits { (v : Values) → length v.0 ≡ FIELD_COUNT → IsTrue (is_zero_past arity v)
            → FitsId (table_in self.old slot) id v }
        ensures written { SetsSlot self.old self.new slot
            (Some (table_with_run (table_in self.old slot) row id (run_values (take result sets.now)))) }
        ensures run { IsRunOf (drop row (entities_of (table_in self.old slot).rows)) arity least
            (take result sets.now) }
        ensures within { result ≤ length sets.now }
        ensures long { All (λ s. length s.1 ≡ N) (take result sets.now) }
        ensures had { 0 < result → IsTrue (has_item id_cmp (table_in self.old slot).ids id) }
        ensures longest { IsTrue (has_item id_cmp (table_in self.old slot).ids id)
            → StoresFields (table_in self.old slot) id
            → IsLongestRun (drop row (entities_of (table_in self.old slot).rows)) arity least sets.now result }
    {
        table_mut(&mut self.slots, slot).set_rows(row, id, sets, arity, least)
    }

    /// A row for a new entity, with zeros, in room that was reserved.
    pub fn push_row(&mut self, slot: TableSlot, entity: Entity)
        requires { 0 < (table_in self.old slot).room }
        ensures { SetsSlot self.old self.new slot
            (Some (with_row (table_in self.old slot) (new_row entity))) }
    {
        table_mut(&mut self.slots, slot).push_row(entity);
    }

    /// Takes a row out, and takes no memory. The answer is the entity that stands in its place now: none where the row was
    /// the last.
    pub fn swap_out(&mut self, slot: TableSlot, row: usize) -> Option<Entity>
        requires { row < length (table_in self.old slot).rows }
        ensures rows { SetsSlot self.old self.new slot (Some (without_row (table_in self.old slot) row)) }
        ensures moved { result ≡ slice_get (entities_of (table_in self.new slot).rows) row }
    {
        table_mut(&mut self.slots, slot).swap_out(row)
    }

    /// All rows of a table go, and their room is won. The table stays, and so does its memory. It takes no memory.
    pub fn clear(&mut self, slot: TableSlot)
        requires { IsSome (slot_of self.old slot) }
        ensures { SetsSlot self.old self.new slot (Some (cleared (table_in self.old slot))) }
    {
        table_mut(&mut self.slots, slot).clear();
    }

    /// Moves a row into room that was reserved in another table, where it is the last row. Values of ids that both types
    /// have, which are as wide in both, stay, and new ids hold zeros. It takes no memory and cannot fail. The answer is the
    /// entity that stands in the hole now: none where the row was the last.
    pub fn move_row(&mut self, from: TableSlot, row: usize, to: TableSlot) -> Option<Entity>
        requires apart { from ≢ to }
        requires row { row < length (table_in self.old from).rows }
        requires room { 0 < (table_in self.old to).room }
        requires widths { Agree (table_in self.old to) (table_in self.old from) }
        ensures moves { Moves self.old self.new from row to }
        ensures moved { result ≡ slice_get (entities_of (table_in self.new from).rows) row }
    {
        let (source, target) = two_mut(self.slots.as_mut_slice(), from, to);
        move_between(source, row, target)
    }

    /// Moves all rows of a table, in their order, to the end of another, into room that was reserved. Values of ids that both
    /// types have, which are as wide in both, stay, and new ids hold zeros. It takes no memory and cannot fail.
    pub fn move_rows(&mut self, from: TableSlot, to: TableSlot)
        requires apart { from ≢ to }
        requires source { IsSome (slot_of self.old from) }
        requires target { IsSome (slot_of self.old to) }
        requires room { length (table_in self.old from).rows ≤ (table_in self.old to).room }
        requires widths { Agree (table_in self.old to) (table_in self.old from) }
        ensures { MovesAll self.old self.new from to }
    {
        let (source, target) = two_mut(self.slots.as_mut_slice(), from, to);
        move_all_between(source, target);
    }
}

// The table of a slot that has one.
//
// Where there is none an index of an empty list is read, which is never done: so the table is lent without a look at whether it is
// there, where `unreachable!` would look and stop.
#[inline(always)]
fn there_for_sure(slot: &Option<Table>) -> &Table
    requires { IsSome slot.now }
    ensures { slot.now ≡ Some result.now }
{
    match slot {
        Some(table) => table,
        None => {
            let nothing: &[&Table] = &[];
            nothing[0]
        }
    }
}

// The table has no rows.
fn is_rowless(table: &Table) -> bool
    ensures { result ≡ is_some (rowless_type (Some table.now)) }
{
    table.rows().is_empty()
}

// A row goes from the table of one slot to that of another.
#[inline(always)]
fn move_between(
    source: &mut Option<Table>,
    row: usize,
    target: &mut Option<Table>,
) -> Option<Entity>
    requires row { row < length (unwrap_or source.old no_table).rows }
    requires room { 0 < (unwrap_or target.old no_table).room }
    requires widths { Agree (unwrap_or target.old no_table) (unwrap_or source.old no_table) }
    ensures source { source.new ≡ Some (without_row (unwrap_or source.old no_table) row) }
    ensures target { target.new ≡ Some (with_row (unwrap_or target.old no_table)
        (slice_index_or (unwrap_or source.old no_table).rows row no_row)) }
    ensures moved { result ≡
        slice_get (entities_of (without_row (unwrap_or source.old no_table) row).rows) row }
{
    match (source, target) {
        (Some(source), Some(target)) => target.take_row(source, row),
        _ => unreachable!(),
    }
}

// All rows go from the table of one slot to that of another.
fn move_all_between(source: &mut Option<Table>, target: &mut Option<Table>)
    requires source { IsSome source.old }
    requires target { IsSome target.old }
    requires room { length (unwrap_or source.old no_table).rows ≤ (unwrap_or target.old no_table).room }
    requires widths { Agree (unwrap_or target.old no_table) (unwrap_or source.old no_table) }
    ensures source { source.new ≡ Some (without_rows (unwrap_or source.old no_table)) }
    ensures target { target.new ≡ Some
        (with_rows (unwrap_or target.old no_table) (unwrap_or source.old no_table).rows) }
{
    match (source, target) {
        (Some(source), Some(target)) => target.take_rows(source),
        _ => unreachable!(),
    }
}
