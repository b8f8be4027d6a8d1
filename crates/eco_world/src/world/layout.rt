//! The tables that a world lists.
ghost use Rattle.std.specs.Prelude.{◌≡◌, ◌<◌, [], All, IfNone, IfOk, IfSome, IsTrue, length, map, OnErr};
ghost use Rattle.std.specs.List.Sorted.{IsPermutation};
ghost use Rattle.eco_ids.specs.Data.{arity};
ghost use Rattle.eco_ids.specs.Layout.{IsLayout};
ghost use Rattle.eco_world.specs.Columns.{ListsColumns};
ghost use Rattle.eco_world.specs.Queries.{is_answered, is_matched, is_passed};
ghost use Rattle.eco_world.specs.Layouts.{HasTable, IsByType, IsWhole, lent, lent_at, LendsValues, listed, ListsBy, ListsOf, ListsWith};

use crate::columns::Columns;
use crate::table_rows::TableRows;
use crate::type_order::is_below;
use crate::world::World;
use eco_ids::{Id, Pattern, TableSlot};
use eco_query::{Query, exactly};
use eco_store::{Asking, Tables, TypeTest};
use std::alloc::AllocError;

impl World {
    /// The tables of the world (Flecs manual, Queries, archetypes): each type that some living entity has, with all who
    /// have it and their values. Types ascend as lists of ids: the first id that differs decides, and a beginning comes first.
    ///
    /// An `Err` comes where a growth of the list was refused.
    pub fn tables(&self) -> Result<Vec<TableRows<'_>>, AllocError>
        ensures layout { IfOk result (λ tables. IsLayout self.now (listed tables.items)) }
        ensures values { IfOk result (λ tables. All (LendsValues self.now) tables.items) }
    {
        let mut tables = Vec::new(self.alloc);
        for slot in self.store.tables().iter() {
            if let Some(table) = slot
                && table.row_count() > 0
            {
                tables.push(TableRows::of(self, table))?;
            }
        }
        sort_by_type(&mut tables);
        Ok(tables)
    }

    /// The tables whose type has an id that the pattern matches, as [`tables`](World::tables) lists them (Flecs manual,
    /// Queries, wildcards). Where the pattern names an entity, only tables whose type names that entity are looked at.
    ///
    /// An `Err` comes where a growth of the list was refused, and never where nobody has such an id.
    pub fn tables_with(&self, pattern: Pattern) -> Result<Vec<TableRows<'_>>, AllocError>
        ensures all { IfOk result (λ tables. ListsWith self.now pattern (listed tables.items)) }
        ensures values { IfOk result (λ tables. All (LendsValues self.now) tables.items) }
        ensures some { OnErr result (IsTrue (is_matched self.now pattern)) }
    {
        self.tables_by(&pattern)
    }

    /// The tables whose type the query matches, as [`tables`](World::tables) lists them (Flecs manual, Queries, archetypes):
    /// those in which the entities of its results stand. Only tables are looked at whose types have an id that one plain term
    /// or group of the query asks for.
    ///
    /// An `Err` comes where a growth of the list was refused, and never where no living entity's type matches.
    pub fn tables_of(&self, query: &Query) -> Result<Vec<TableRows<'_>>, AllocError>
        ensures all { IfOk result (λ tables. ListsOf self.now query.now (listed tables.items)) }
        ensures values { IfOk result (λ tables. All (LendsValues self.now) tables.items) }
        ensures some { OnErr result (IsTrue (is_answered self.now query.now)) }
    {
        self.tables_by(&Asking { query, cache: None })
    }

    /// The columns of an id (Flecs manual, Queries, archetypes): for each type that has the id, who has that type and their
    /// values of the id, all of it to be read in one loop. Columns come in any order, and so do the entities of each. A table
    /// that lost its last entity is kept for a while, and its column has no rows then. An id that is no data has no columns.
    ///
    /// It takes no memory. Each column is found in a time that does not grow with its rows, one ahead of the column that is
    /// asked for.
    pub fn columns(&self, id: Id) -> Columns<'_>
        ensures data { IfSome (arity self.now id) (λ fields. ListsColumns self.now id result) }
        ensures none { IfNone (arity self.now id) (result ≡ []) }
    {
        let archetypes = self.store.archetypes();
        let tables = archetypes.tables();
        if self.arity(id).is_none() {
            return Columns::of(id, &[], tables);
        }
        Columns::of(id, archetypes.listed(exactly(id)), tables)
    }

    // The tables whose type passes the test.
    pub(super) fn tables_by<T: TypeTest>(&self, test: &T) -> Result<Vec<TableRows<'_>>, AllocError>
        ensures all { IfOk result (λ tables. ListsBy self.now (T.test test.now) (listed tables.items)) }
        ensures values { IfOk result (λ tables. All (LendsValues self.now) tables.items) }
        ensures some { OnErr result (IsTrue (is_passed self.now (T.test test.now))) }
    {
        let found = self.store.tables_by(test)?;
        let mut tables = tables_in(self, found.tables, &found.slots)?;
        sort_by_type(&mut tables);
        Ok(tables)
    }
}

// The table in a slot that has one.
fn table_in<'a>(world: &'a World, tables: &'a Tables, slot: TableSlot) -> TableRows<'a>
    requires { HasTable tables.now slot }
    ensures lent { lent result ≡ lent_at world.now tables.now slot }
    ensures whole { IsWhole result }
{
    TableRows::of(world, tables.get(slot).unwrap())
}

// The tables in these slots, each of which has one.
fn tables_in<'a>(
    world: &'a World,
    tables: &'a Tables,
    slots: &[TableSlot],
) -> Result<Vec<TableRows<'a>>, AllocError>
    requires { All (HasTable tables.now) slots.now }
    ensures lent { IfOk result (λ found. map lent found.items
        ≡ map (lent_at world.now tables.now) slots.now) }
    ensures whole { IfOk result (λ found. All IsWhole found.items) }
    ensures some { OnErr result (0 < length slots.now) }
{
    let mut found = Vec::with_capacity(world.alloc, slots.len())?;
    for slot in slots {
        let table = table_in(world, tables, *slot);
        found.push_reserved(table);
    }
    Ok(found)
}

// Whether no table's type comes before that of the table before it.
fn is_by_type(tables: &[TableRows<'_>]) -> bool
    ensures { IsTrue result → IsByType tables.now }
{
    let mut last: &[Id] = &[];
    for table in tables {
        if is_below(table.ids, last) {
            return false;
        }
        last = table.ids;
    }
    true
}

// The same tables, by type. Mostly they were found in this order, and to see so costs less than a sort.
fn sort_by_type(tables: &mut Vec<TableRows<'_>>)
    ensures same { IsPermutation tables.old.items tables.new.items }
    ensures ordered { IsByType tables.new.items }
{
    if !is_by_type(tables) {
        tables.sort_unstable_by_key(|table| table.ids);
    }
}
