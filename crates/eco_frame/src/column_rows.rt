//! Rows that columns lend.
ghost use Rattle.std.specs.Prelude.{◌≡◌, ◌+◌, ◌<◌, ◌≤◌, ◌^◌, length, slice_get, Some};

use crate::column::Column;
use crate::column_row::ColumnRow;
use eco_bodies::BodyRows;
use eco_ids::{Entity, Id};
use eco_stages::Stage;
use std::alloc::AllocError;

/// Consecutive rows of a query's results that stand one after another in a table, and share their entries (Flecs manual,
/// Systems). They own nothing.
pub(crate) struct ColumnRows<'a> {
    // Whose they are.
    pub(crate) entities: &'a [Entity],
    // The entry of each in each slot of the query.
    pub(crate) entries: &'a [Option<Id>],
    // What each slot shows in the table.
    pub(crate) columns: &'a [Column<'a>],
    // Where the first of them stands there.
    pub(crate) first: usize,
    ghost fit: { first + length entities.now ≤ 2 ^ 64 },
}

// By hand, so that dropping it is one call: a derived drop is proved anew at each early return of whoever holds it.
impl Drop for ColumnRows<'_> {
    fn drop(self) {
        let ColumnRows {
            entities: _,
            entries: _,
            columns: _,
            first: _,
        } = self;
    }
}

impl ColumnRows<'_> {
    // Whose one of them is, and where it stands in the table.
    #[inline(always)]
    fn seat(&self, place: usize) -> (Entity, usize)
        requires { place < length self.now.entities.now }
        ensures { (slice_get self.now.entities.now place ≡ Some result.0)
            × (result.1 ≡ self.now.first + place) }
    {
        (self.entities[place], self.first + place)
    }
}

impl<'a> BodyRows for ColumnRows<'a> {
    type Row = ColumnRow<'a>;

    ghost use Rattle.eco_frame.specs.Rows.{column_rows};

    ghost rows_of = { column_rows };

    #[inline(always)]
    fn len(&self) -> usize {
        self.entities.len()
    }

    #[inline(always)]
    fn entries(&self) -> &[Option<Id>] {
        self.entries
    }

    #[inline(always)]
    fn row(&self, place: usize) -> ColumnRow<'a> {
        let (entity, row) = self.seat(place);
        ColumnRow {
            entity,
            entries: self.entries,
            columns: self.columns,
            row,
        }
    }

    #[inline(always)]
    fn set_sums(
        &self,
        into: usize,
        from: usize,
        id: Id,
        stage: &mut Stage,
    ) -> Result<(), AllocError> {
        match (self.columns.get(into), self.columns.get(from)) {
            (Some(column), Some(other)) => {
                column.set_sums(other, self.first, self.entities, id, stage)
            }
            _ => Ok(()),
        }
    }
}
