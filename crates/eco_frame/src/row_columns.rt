//! The columns in which consecutive rows show their values.
ghost use Rattle.std.specs.Prelude.{◌≡◌, ◌<◌, ◌≤◌, ◌+◌, ◌-◌, ◌^◌, ◌∷◌, ℕ, [], drop, length, map, option_map, slice_get, take};
ghost use Rattle.std.specs.Prelude.{vec_capacity};
ghost use Rattle.std.specs.Prelude.{IfNone, IfSome, IsTrue, None, OnOk, Some};
ghost use Rattle.eco_ids.specs.World.{record_of};
ghost use Rattle.eco_query.specs.Queries.{slot_view};
ghost use Rattle.eco_systems.specs.Rows.{entry_values, valued_rows};
ghost use Rattle.eco_frame.specs.Rows.{IsRun, LendsRows, column_rows, entities_in, lent_in, lent_rows_from, run_row};
ghost use Rattle.eco_frame.specs.Rows.{shown_in};

use crate::column::Column;
use crate::column_rows::ColumnRows;
use crate::system_rows::SystemRows;
use eco_ids::entity::CHILD_OF;
use eco_ids::{Entity, Id};
use eco_query::{Query, Slot};
use eco_world::{TableRows, World};
use std::alloc::AllocError;

/// The columns of a table, which are looked for once for consecutive rows that stand in it and share their entries (Flecs
/// manual, Systems; Queries, archetypes).
pub(crate) struct RowColumns<'a> {
    rows: &'a SystemRows<'a>,
    // Of what these are the rows.
    world: &'a World,
    query: &'a Query,
    // The place among them of the row for which the columns were looked for, and its entries.
    place: usize,
    entries: &'a [Option<Id>],
    // Who stands in the table.
    entities: &'a [Entity],
    // What each slot shows there.
    columns: Vec<Column<'a>>,
    // Who was sought last, and the row in the table.
    entity: Entity,
    row: usize,
}

// By hand, so that dropping it is one call: a derived drop is proved anew at each early return of whoever holds it.
impl Drop for RowColumns<'_> {
    fn drop(self) {
        let RowColumns {
            rows: _,
            world: _,
            query: _,
            place: _,
            entries: _,
            entities: _,
            columns: _,
            entity: _,
            row: _,
        } = self;
    }
}

// Lists what each slot shows in the table that was found, where the entries are these.
fn push_columns<'a>(
    columns: &mut Vec<Column<'a>>,
    found: &Option<(TableRows<'a>, usize)>,
    slots: &[Slot],
    entries: &[Option<Id>],
)
    requires none { columns.old.items ≡ [] }
    requires room { length entries.now ≤ vec_capacity columns.old }
    ensures { (row : ℕ) → map (shown_in row) columns.new.items
        ≡ entry_values (lent_in found.now row) (map slot_view slots.now) entries.now }
{
    for k in 0..slots.len().min(entries.len()) {
        columns.push_reserved(Column::of(found, &slots[k], &entries[k]));
    }
}

// Who stands in the table that was found: nobody, where there is none.
fn entities_in<'a>(found: &Option<(TableRows<'a>, usize)>) -> &'a [Entity]
    ensures { result.now ≡ entities_in found.now }
{
    match found {
        Some((table, _)) => table.entities,
        None => &[],
    }
}

// The row there.
fn row_in(found: &Option<(TableRows<'_>, usize)>) -> usize
    ensures { IfSome found.now (λ x. result ≡ x.1) }
{
    match found {
        Some((_, row)) => *row,
        None => 0,
    }
}

impl<'a> RowColumns<'a> {
    /// No columns yet, for some rows.
    pub(crate) fn new(rows: &'a SystemRows<'a>) -> RowColumns<'a>
        ensures run { IsRun result }
        ensures rows { result.rows.now ≡ rows.now }
    {
        let (world, query) = rows.source();
        RowColumns {
            rows,
            world,
            query,
            place: 0,
            entries: &[],
            entities: &[],
            columns: Vec::new(rows.alloc()),
            entity: CHILD_OF,
            row: 0,
        }
    }

    // Whether the columns show the row of this place, which is the entity's, in this row of the table.
    #[inline(always)]
    fn show(&self, row: usize, place: usize, entity: Entity) -> bool
        requires run { IsRun self.now }
        requires place { place < length self.now.rows.now }
        requires own { option_map (λ r. r.entity) (slice_get self.now.rows.now place) ≡ Some entity }
        ensures stands { IsTrue result → slice_get self.now.entities.now row ≡ Some entity }
        ensures shows { IsTrue result → slice_get self.now.rows.now place ≡ Some (run_row self.now row entity) }
    {
        match self.entities.get(row) {
            Some(other) => other.is(entity) && self.rows.share_entries(self.place, place),
            None => false,
        }
    }

    // Looks for the columns of the row of this place, whose entity stands where it was found.
    fn renew(
        &mut self,
        place: usize,
        found: &Option<(TableRows<'a>, usize)>,
    ) -> Result<(), AllocError>
        requires rows { self.old.rows.now ≡ valued_rows self.old.world.now self.old.query.now }
        requires place { place < length self.old.rows.now }
        requires own { option_map (λ r. r.entity) (slice_get self.old.rows.now place) ≡ Some self.old.entity }
        requires dead { IfNone found.now (record_of self.old.world.now self.old.entity ≡ None) }
        requires lent { IfSome found.now (λ x. LendsRows self.old.world.now x.0) }
        requires there { IfSome found.now (λ x. slice_get x.0.entities.now x.1 ≡ Some self.old.entity) }
        ensures rows { self.new.rows.now ≡ self.old.rows.now }
        ensures run { OnOk result (IsRun self.new) }
        ensures at { OnOk result (slice_get self.new.rows.now place
            ≡ Some (run_row self.new self.new.row self.new.entity)) }
    {
        let entries = self.rows.entries(place);
        self.columns.clear();
        self.columns.reserve(entries.len())?;
        push_columns(&mut self.columns, found, self.query.slots(), entries);
        self.place = place;
        self.entries = entries;
        self.entities = entities_in(found);
        self.row = row_in(found);
        Ok(())
    }

    // Seeks the row of this place elsewhere than behind the last: in the same table, else in another.
    #[inline(never)]
    fn seek_elsewhere(&mut self, place: usize) -> Result<(), AllocError>
        requires run { IsRun self.old }
        requires place { place < length self.old.rows.now }
        requires own { option_map (λ r. r.entity) (slice_get self.old.rows.now place) ≡ Some self.old.entity }
        ensures rows { self.new.rows.now ≡ self.old.rows.now }
        ensures run { OnOk result (IsRun self.new) }
        ensures at { OnOk result (slice_get self.new.rows.now place
            ≡ Some (run_row self.new self.new.row self.new.entity)) }
    {
        let found = self.world.table_of(self.entity);
        let row = row_in(&found);
        if self.show(row, place, self.entity) {
            self.row = row;
            return Ok(());
        }
        self.renew(place, &found)
    }

    /// Seeks the row of a place among all. An `Err` comes where there is no memory to list its columns.
    #[inline(always)]
    pub(crate) fn seek(&mut self, place: usize) -> Result<(), AllocError>
        requires run { IsRun self.old }
        requires place { place < length self.old.rows.now }
        ensures rows { self.new.rows.now ≡ self.old.rows.now }
        ensures run { OnOk result (IsRun self.new) }
        ensures at { OnOk result (slice_get self.new.rows.now place
            ≡ Some (run_row self.new self.new.row self.new.entity)) }
    {
        self.entity = self.rows.entity(place);
        // Rows mostly stand in a table as they come.
        let next = self.row.saturating_add(1);
        if self.show(next, place, self.entity) {
            self.row = next;
            return Ok(());
        }
        self.seek_elsewhere(place)
    }

    // How many rows from this place to below another stand one after another in the table, where the first was sought, and
    // share their entries.
    #[inline(always)]
    fn run_length(&self, place: usize, end: usize) -> usize
        requires run { IsRun self.now }
        requires places { (place < end) × (end ≤ length self.now.rows.now) }
        ensures few { result ≤ end - place }
        ensures within { result ≤ length (drop self.now.row self.now.entities.now) }
        ensures are { lent_rows_from self.now.entries.now self.now.columns.items self.now.row
            (take result (drop self.now.row self.now.entities.now))
            ≡ take result (drop place self.now.rows.now) }
    {
        let most = (end - place).min(self.entities.len().saturating_sub(self.row));
        let mut count = 0;
        while count < most
            && self.show(
                self.row + count,
                place + count,
                self.rows.entity(place + count),
            )
        {
            count += 1;
        }
        count
    }

    // Whose so many rows of the table are, from where the last was sought; its entity alone, where they are none.
    #[inline(always)]
    fn entities_of(&self, count: usize) -> &[Entity]
        requires { count ≤ length (drop self.now.row self.now.entities.now) }
        ensures none { count ≡ 0 → result.now ≡ self.now.entity ∷ [] }
        ensures some { 0 < count → result.now ≡ take count (drop self.now.row self.now.entities.now) }
        ensures fit { self.now.row + length result.now ≤ 2 ^ 64 }
    {
        let first = self.row;
        if count == 0 {
            std::slice::from_ref(&self.entity)
        } else {
            &self.entities[first..first + count]
        }
    }

    /// The row of this place, which was sought last, with those behind it to below another place that stand one after another
    /// in the table, and share their entries.
    #[inline(always)]
    pub(crate) fn run(&self, place: usize, end: usize) -> ColumnRows<'_>
        requires run { IsRun self.now }
        requires places { (place < end) × (end ≤ length self.now.rows.now) }
        requires at { slice_get self.now.rows.now place
            ≡ Some (run_row self.now self.now.row self.now.entity) }
        ensures some { 0 < length (column_rows result) }
        ensures few { length (column_rows result) ≤ end - place }
        ensures are { column_rows result
            ≡ take (length (column_rows result)) (drop place self.now.rows.now) }
    {
        let count = self.run_length(place, end);
        ColumnRows {
            entities: self.entities_of(count),
            entries: self.entries,
            columns: &self.columns,
            first: self.row,
        }
    }
}
