//! The tables of a store, one for each type, found by type and by the patterns that match its ids.
ghost use Rattle.std.specs.Prelude.{◌≡◌, ◌≢◌, List, ℕ, ◌<◌, ◌≤◌, ◌∷◌, false, true, find as find_first, length, nat_eq};
ghost use Rattle.std.specs.Prelude.{slice_get, Some, None, IsSome, IfOk, IfSome, IfNone, OnOk, OnErr, OnSome, is_some};
ghost use Rattle.std.specs.List.{All};
ghost use Rattle.std.specs.FinMap.Entries.{find};
ghost use Rattle.eco_ids.specs.declared.id.Id.{Id as Ids};
ghost use Rattle.eco_ids.specs.declared.value.TheConstants.{FIELD_COUNT};
ghost use Rattle.eco_ids.specs.Order.{id_cmp};
ghost use Rattle.eco_tables.specs.Table.{StoresFields, TableState, entities_of, empty_table};
ghost use Rattle.eco_tables.specs.Tables.{slot_of, table_in, row_in, SetsSlot, SetsRoom, Moves, MovesAll};
ghost use Rattle.eco_tables.specs.Tables.{cleared, new_row, with_row, with_written, without_row, rowless_type};
ghost use Rattle.eco_ids.specs.Fingerprint.{fingerprint};
ghost use Rattle.eco_ids.specs.declared.pattern.Pattern.{Pattern as Patterns};
ghost use Rattle.eco_index.specs.Contents.{lists_in, slots_by_mark};
ghost use Rattle.eco_index.specs.IdIndex.{ListsSame, Turns, any_matches};
ghost use Rattle.eco_index.specs.TypeMap.{IsTypeMap, same_ids};
ghost use Rattle.eco_archetypes.specs.Archetypes.{is_type, type_at, IsIdIndex, SameSlots, RowlessIn, SameRows, FindsRoom};
ghost use Rattle.eco_archetypes.specs.Widths.{AreWidths, FitsIn, KeepsWidths, MeetsNeeds, StillCover};
ghost use Rattle.std.specs.Prelude.{IsTrue, drop, take};
ghost use Rattle.eco_ids.specs.Data.{is_zero_past};
ghost use Rattle.eco_ids.specs.Order.{has_item};
ghost use Rattle.eco_ids.specs.declared.value.Value.{Value as Values};
ghost use Rattle.eco_tables.specs.Runs.{IsLongestRun, IsRunOf, run_values, table_with_run};

use eco_entities::EntityIndex;
use eco_ids::{Entity, Id, TableSlot, TypeList, Value};
use eco_index::{Caches, Edges, IdIndex, Seed, TypeMap};
use eco_tables::Tables;
use std::alloc::{AllocError, Global};
use std::marker::Model;

mod caching;
mod copying;
mod exchanging;
mod preparing;
mod searching;
mod stepping;
mod sweeping;
mod turning;
mod widths;

/// A contract sees the tables in their slots. No two tables have the same type.
pub struct Archetypes {
    alloc: Global,
    seed: Seed,
    tables: Tables,
    by_type: TypeMap,
    // The slot of the type that was asked for last.
    last: TableSlot,
    by_id: IdIndex,
    edges: Edges,
    caches: Caches,
}

// By hand, so that dropping it is one call: a derived drop is proved anew at each early return of whoever holds it.
impl Drop for Archetypes {
    fn drop(self) {
        let Archetypes {
            alloc: _,
            seed: _,
            tables: _,
            by_type: _,
            last: _,
            by_id: _,
            edges: _,
            caches: _,
        } = self;
    }
}

impl Model for Archetypes {
    ghost use Rattle.std.specs.Prelude.{List, Option};
    ghost use Rattle.eco_tables.specs.Table.{TableState};
    ghost use Rattle.eco_index.specs.CachesContents.{cache_list};
    ghost use Rattle.eco_index.specs.Contents.{edge_lists, lists_in, slots_by_mark};
    ghost use Rattle.eco_archetypes.specs.Archetypes.{IsArchetypes};

    ghost Value = { List (Option TableState) };

    ghost view = { λ a. a.tables };

    ghost invariant = { λ a. IsArchetypes a.tables (slots_by_mark a.by_type) (lists_in a.by_id)
        (edge_lists a.edges) (cache_list a.caches) };
}

impl Archetypes {
    /// No table. What tables are found by is hashed with this seed.
    pub fn new(alloc: Global, seed: Seed) -> Archetypes
        ensures { (n : ℕ) → slot_of result n ≡ None }
    {
        Archetypes {
            alloc,
            seed,
            tables: Tables::new(alloc),
            by_type: TypeMap::new(alloc, seed),
            last: 0,
            by_id: IdIndex::new(alloc, seed),
            edges: Edges::new(alloc, seed),
            caches: Caches::new(alloc),
        }
    }

    /// The tables, to read.
    pub fn tables(&self) -> &Tables
        ensures same { result.now ≡ self.now }
        ensures kinds { (n m : ℕ) (ids : List Ids) →
            type_at self.now n ≡ Some ids → type_at self.now m ≡ Some ids → n ≡ m }
    {
        &self.tables
    }

    // The slot of the table with a type. The type that was asked for last is compared before any is searched for, since many
    // entities of one type are often made one after another.
    #[inline]
    fn find(&mut self, type_list: &TypeList) -> Option<TableSlot>
        ensures found { IfSome result (λ n. type_at self.old n ≡ Some type_list.now) }
        ensures none { IfNone result ((n : ℕ) → type_at self.old n ≢ Some type_list.now) }
        ensures same { self.new ≡ self.old }
    {
        if has_type(&self.tables, self.last, type_list.as_slice()) {
            return Some(self.last);
        }
        self.look_up(type_list)
    }

    // What `find` does with another type than the last, apart, so that the last one costs no more than a look at it.
    #[inline(never)]
    fn look_up(&mut self, type_list: &TypeList) -> Option<TableSlot>
        ensures found { IfSome result (λ n. type_at self.old n ≡ Some type_list.now) }
        ensures none { IfNone result ((n : ℕ) → type_at self.old n ≢ Some type_list.now) }
        ensures same { self.new ≡ self.old }
    {
        let slots = self.by_type.slots(type_list.mark());
        let slot = first_of_type(&self.tables, slots, type_list.as_slice())?;
        self.last = slot;
        Some(slot)
    }

    /// The slot of the table whose type has just these ids, and how many rows it has, where that type was asked for last and
    /// one more row fits without memory.
    #[inline]
    pub fn last_with_room(&self, ids: &[Id]) -> Option<(TableSlot, usize)>
        ensures typed { IfSome result (λ p. type_at self.now p.0 ≡ Some ids.now) }
        ensures room { IfSome result (λ p. 0 < (table_in self.now p.0).room) }
        ensures row { IfSome result (λ p. p.1 ≡ length (table_in self.now p.0).rows) }
    {
        if !has_type(&self.tables, self.last, ids) {
            return None;
        }
        let table = self.tables.get(self.last)?;
        if table.room() == 0 {
            return None;
        }
        Some((self.last, table.row_count()))
    }

    /// The slot of the table with a type, with room for so many more rows. Where there is no table of the type, one without
    /// rows is made. An `Err` comes where memory is refused, and then nothing has changed. No row changes.
    #[inline(always)]
    pub fn room_for(
        &mut self,
        entities: &EntityIndex,
        type_list: &TypeList,
        more: usize,
    ) -> Result<TableSlot, AllocError>
        ensures { FindsRoom entities.now self.old self.new type_list.now more result }
    {
        if let Some(slot) = self.find(type_list) {
            self.reserve_rows(slot, more)?;
            return Ok(slot);
        }
        let own = type_list.try_copy()?;
        self.make_with_room(entities, own, more)
    }

    // What `room_for` does where there is no table of the type. Rare beside finds.
    #[cold]
    #[inline(never)]
    fn make_with_room(
        &mut self,
        entities: &EntityIndex,
        type_list: TypeList,
        more: usize,
    ) -> Result<TableSlot, AllocError>
        requires { (n : ℕ) → type_at self.old n ≢ Some type_list }
        ensures { FindsRoom entities.now self.old self.new type_list more result }
    {
        let slot = self.make(entities, type_list)?;
        match self.reserve_rows(slot, more) {
            Ok(()) => Ok(slot),
            Err(refused) => {
                self.drop_empty(slot);
                Err(refused)
            }
        }
    }

    // A table without rows of a type that has none, in a slot that was empty. Every table is made here: what is to be told of
    // new tables is told here.
    fn make(&mut self, entities: &EntityIndex, type_list: TypeList) -> Result<TableSlot, AllocError>
        requires { (n : ℕ) → type_at self.old n ≢ Some type_list }
        ensures vacant { IfOk result (λ n. slot_of self.old n ≡ None) }
        ensures makes { IfOk result (λ n. SetsSlot self.old self.new n
            (Some (empty_table type_list (table_in self.new n).widths))) }
        ensures widths { OnOk result (StillCover entities.now self.old self.new) }
        ensures err { OnErr result (SameSlots self.old self.new) }
    {
        let widths = self.widths_of(entities, type_list.as_slice())?;
        self.make_as_wide(type_list, widths.as_slice())
    }

    // What `make` does with these widths of the ids.
    fn make_as_wide(&mut self, type_list: TypeList, widths: &[u8]) -> Result<TableSlot, AllocError>
        requires absent { (n : ℕ) → type_at self.old n ≢ Some type_list }
        requires widths { (need : Ids → ℕ) × AreWidths need self.old type_list widths.now }
        ensures vacant { IfOk result (λ n. slot_of self.old n ≡ None) }
        ensures makes { IfOk result (λ n. SetsSlot self.old self.new n
            (Some (empty_table type_list (table_in self.new n).widths))) }
        ensures widths { OnOk result ((need : Ids → ℕ) → AreWidths need self.old type_list widths.now
            → MeetsNeeds need self.old → MeetsNeeds need self.new) }
        ensures err { OnErr result (SameSlots self.old self.new) }
    {
        self.caches.reserve_one()?;
        let slot = insert(
            &mut self.tables,
            &mut self.by_type,
            &mut self.by_id,
            self.alloc,
            type_list,
            widths,
        )?;
        self.caches.tell(slot, type_in(&self.tables, slot));
        Ok(slot)
    }

    /// Drops the table in a slot if it has no rows: it is found no more. No row changes. It takes no memory.
    pub fn drop_empty(&mut self, slot: TableSlot)
        ensures dropped { OnSome (rowless_type (slot_of self.old slot))
            (SetsSlot self.old self.new slot None) }
        ensures kept { IfNone (rowless_type (slot_of self.old slot)) (SameSlots self.old self.new) }
        ensures rowless { (slots : List ℕ) → RowlessIn self.old (slot ∷ slots) → RowlessIn self.new slots }
        ensures rows { SameRows self.old self.new }
        ensures widths { KeepsWidths self.old self.new }
    {
        if self.tables.is_rowless(slot) {
            self.forget(slot);
        }
    }

    // What `drop_empty` does, apart, so that a table with rows costs no more than a look at it. Tables are dropped here
    // and in `drop_together`: what is to be told of dropped tables is told in both.
    #[cold]
    #[inline(never)]
    fn forget(&mut self, slot: TableSlot)
        ensures dropped { OnSome (rowless_type (slot_of self.old slot))
            (SetsSlot self.old self.new slot None) }
        ensures kept { IfNone (rowless_type (slot_of self.old slot)) (SameSlots self.old self.new) }
        ensures rows { SameRows self.old self.new }
    {
        if let Some(type_list) = self.tables.drop_empty(slot) {
            self.by_type.take(type_list.mark(), slot);
            self.by_id.take_all(type_list.as_slice(), slot);
            self.edges.cut(slot);
            self.caches.forget(slot);
        }
    }

    /// Room for more rows in a table. An `Err` comes where memory is refused, and changes nothing.
    #[inline]
    pub(crate) fn reserve_rows(&mut self, slot: TableSlot, more: usize) -> Result<(), AllocError>
        requires { IsSome (slot_of self.old slot) }
        ensures sets { SetsRoom self.old self.new slot }
        ensures kept { (table_in self.old slot).room ≤ (table_in self.new slot).room }
        ensures room { OnOk result (more ≤ (table_in self.new slot).room) }
        ensures err { OnErr result ((table_in self.new slot).room ≡ (table_in self.old slot).room) }
        ensures refused { OnErr result (SameSlots self.old self.new) }
        ensures rows { SameRows self.old self.new }
        ensures widths { KeepsWidths self.old self.new }
    {
        self.tables.reserve_rows(slot, more)
    }

    /// Writes the value of an id in a row, which has no more fields than the tables keep of it, and takes no memory. The answer
    /// is whether the table's type has the id; where it lacks it nothing is written. The id's column is looked for at the place
    /// `near` first, where it is remembered.
    #[inline(always)]
    pub fn set_value(
        &mut self,
        slot: TableSlot,
        row: usize,
        id: Id,
        value: Value,
        near: &mut usize,
    ) -> bool
        requires row { row < length (table_in self.old slot).rows }
        requires fits { FitsIn self.old id value }
        ensures written { SetsSlot self.old self.new slot
            (Some (with_written (table_in self.old slot) row id value)) }
        ensures had { result ≡ is_some (find id_cmp id (row_in self.old slot row).held) }
        ensures widths { KeepsWidths self.old self.new }
    {
        self.tables.set_value(slot, row, id, value, near)
    }

    /// Writes values of an id in rows one behind the other, from this one on: of the sets, each of an entity and the first fields of
    /// its value, as many as are of the entities of these rows, at indices no lower than the least, with zeros past so many fields.
    /// It takes no memory. The answer is how many are written; none where no fields of the id are kept.
    pub fn set_rows<const N: usize>(
        &mut self,
        slot: TableSlot,
        row: usize,
        id: Id,
        sets: &[(Entity, [i64; N])],
        arity: u8,
        least: u32,
    ) -> usize
        requires few { N ≤ FIELD_COUNT }
        requires row { row < length (table_in self.old slot).rows }
        requires fits { (v : Values) → length v.0 ≡ FIELD_COUNT → IsTrue (is_zero_past arity v)
            → FitsIn self.old id v }
        ensures written { SetsSlot self.old self.new slot
            (Some (table_with_run (table_in self.old slot) row id (run_values (take result sets.now)))) }
        ensures run { IsRunOf (drop row (entities_of (table_in self.old slot).rows)) arity least
            (take result sets.now) }
        ensures within { result ≤ length sets.now }
        ensures long { All (λ s. length s.1 ≡ N) (take result sets.now) }
        ensures had { 0 < result → IsTrue (has_item id_cmp (table_in self.old slot).ids id) }
        ensures longest { IsTrue (has_item id_cmp (table_in self.old slot).ids id)
            → StoresFields (table_in self.old slot) id
            → IsLongestRun (drop row (entities_of (table_in self.old slot).rows)) arity least sets.now result }
        ensures widths { KeepsWidths self.old self.new }
    {
        self.tables.set_rows(slot, row, id, sets, arity, least)
    }

    /// A row for a new entity, with zeros, in room that was reserved.
    #[inline]
    pub fn push_row(&mut self, slot: TableSlot, entity: Entity)
        requires { 0 < (table_in self.old slot).room }
        ensures row { SetsSlot self.old self.new slot
            (Some (with_row (table_in self.old slot) (new_row entity))) }
        ensures widths { KeepsWidths self.old self.new }
    {
        self.tables.push_row(slot, entity);
    }

    /// Takes a row out, and takes no memory. The answer is the entity that stands in its place now.
    pub fn swap_out(&mut self, slot: TableSlot, row: usize) -> Option<Entity>
        requires { row < length (table_in self.old slot).rows }
        ensures rows { SetsSlot self.old self.new slot (Some (without_row (table_in self.old slot) row)) }
        ensures moved { result ≡ slice_get (entities_of (table_in self.new slot).rows) row }
        ensures widths { KeepsWidths self.old self.new }
    {
        self.tables.swap_out(slot, row)
    }

    /// Takes all rows of a table out, and takes no memory. The table stays, and the room of its rows is won.
    pub fn clear(&mut self, slot: TableSlot)
        requires { IsSome (slot_of self.old slot) }
        ensures rows { SetsSlot self.old self.new slot (Some (cleared (table_in self.old slot))) }
        ensures widths { KeepsWidths self.old self.new }
    {
        self.tables.clear(slot);
    }

    /// Moves a row into room that was reserved in another table. The answer is the entity that stands in the hole now.
    pub fn move_row(&mut self, from: TableSlot, row: usize, to: TableSlot) -> Option<Entity>
        requires apart { from ≢ to }
        requires row { row < length (table_in self.old from).rows }
        requires room { 0 < (table_in self.old to).room }
        ensures moves { Moves self.old self.new from row to }
        ensures moved { result ≡ slice_get (entities_of (table_in self.new from).rows) row }
        ensures widths { KeepsWidths self.old self.new }
    {
        self.tables.move_row(from, row, to)
    }

    /// Moves all rows of a table, in their order, to the end of another, into room that was reserved.
    pub fn move_rows(&mut self, from: TableSlot, to: TableSlot)
        requires apart { from ≢ to }
        requires source { IsSome (slot_of self.old from) }
        requires target { IsSome (slot_of self.old to) }
        requires room { length (table_in self.old from).rows ≤ (table_in self.old to).room }
        ensures moves { MovesAll self.old self.new from to }
        ensures widths { KeepsWidths self.old self.new }
    {
        self.tables.move_rows(from, to);
    }
}

// Whether two types have the same ids. Most entities are made without any, and two types without ids cost no call.
#[inline]
fn are_same(own: &[Id], other: &[Id]) -> bool
    ensures { result ≡ same_ids own.now other.now }
{
    if own.is_empty() {
        return other.is_empty();
    }
    own == other
}

// The type of the table in a slot that has one.
#[inline]
fn type_in(tables: &Tables, slot: TableSlot) -> &TypeList
    requires { IsSome (slot_of tables.now slot) }
    ensures ids { result.now ≡ (table_in tables.now slot).ids }
    ensures typed { type_at tables.now slot ≡ Some result.now }
{
    tables.get(slot).unwrap().type_list()
}

// Whether there is a table in the slot, whose type has just these ids.
#[inline]
fn has_type(tables: &Tables, slot: TableSlot, ids: &[Id]) -> bool
    ensures { result ≡ is_type (type_at tables.now slot) ids.now }
{
    match tables.get(slot) {
        Some(table) => are_same(table.type_list().as_slice(), ids),
        None => false,
    }
}

// The first of these slots that has a table whose type has just these ids.
fn first_of_type(tables: &Tables, slots: &[TableSlot], ids: &[Id]) -> Option<TableSlot>
    ensures { result ≡ find_first (λ n. is_type (type_at tables.now n) ids.now) slots.now }
{
    slots
        .iter()
        .copied()
        .find(|slot| has_type(tables, *slot, ids))
}

// A table without rows in a slot that was empty, which is listed under its type and the ids of that.
fn insert(
    tables: &mut Tables,
    by_type: &mut TypeMap,
    by_id: &mut IdIndex,
    alloc: Global,
    type_list: TypeList,
    widths: &[u8],
) -> Result<TableSlot, AllocError>
    requires lengths { length type_list ≡ length widths.now }
    requires widths { All (λ w. w ≤ FIELD_COUNT) widths.now }
    requires types { IsTypeMap (type_at tables.old) (slots_by_mark by_type.old) }
    requires index { IsIdIndex (type_at tables.old) (lists_in by_id.old) }
    ensures vacant { IfOk result (λ n. slot_of tables.old n ≡ None) }
    ensures makes { IfOk result (λ n. SetsSlot tables.old tables.new n
        (Some (empty_table type_list widths.now))) }
    ensures err { OnErr result (SameSlots tables.old tables.new) }
    ensures types { IsTypeMap (type_at tables.new) (slots_by_mark by_type.new) }
    ensures index { IsIdIndex (type_at tables.new) (lists_in by_id.new) }
{
    let slot = tables.insert(type_list, widths)?;
    match list(by_type, by_id, alloc, type_in(tables, slot), slot) {
        Ok(()) => Ok(slot),
        Err(refused) => {
            let _ = tables.drop_empty(slot);
            Err(refused)
        }
    }
}

// Lists a new table's slot under its type and the ids of that. An `Err` changes nothing that is listed.
fn list(
    by_type: &mut TypeMap,
    by_id: &mut IdIndex,
    alloc: Global,
    type_list: &TypeList,
    slot: TableSlot,
) -> Result<(), AllocError>
    requires types { (mark : ℕ) → slots_by_mark by_type.old mark slot ≡ false }
    requires index { (p : Patterns) → lists_in by_id.old p slot ≡ false }
    ensures types { OnOk result (Turns true (nat_eq (fingerprint type_list.now))
        (slots_by_mark by_type.old) (slots_by_mark by_type.new) slot) }
    ensures index { OnOk result (Turns true (any_matches type_list.now)
        (lists_in by_id.old) (lists_in by_id.new) slot) }
    ensures same_types { OnErr result (ListsSame (slots_by_mark by_type.old) (slots_by_mark by_type.new)) }
    ensures same_index { OnErr result (ListsSame (lists_in by_id.old) (lists_in by_id.new)) }
{
    by_type.add(alloc, type_list.mark(), slot)?;
    let listed = by_id.add_all(alloc, type_list.as_slice(), slot);
    if listed.is_err() {
        by_type.take(type_list.mark(), slot);
    }
    listed
}
