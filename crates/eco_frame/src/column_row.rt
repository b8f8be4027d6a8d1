//! A row that columns lend.
use crate::column::Column;
use eco_bodies::BodyRow;
use eco_ids::{Entity, Id, Value};
use eco_stages::Stage;
use std::alloc::AllocError;

/// A row of a query's results, lent from the columns in which it shows its values (Flecs manual, Systems). It owns nothing.
#[derive(Drop)]
pub(crate) struct ColumnRow<'a> {
    pub(crate) entity: Entity,
    // Its entry in each slot of the query.
    pub(crate) entries: &'a [Option<Id>],
    // What each slot shows in its table.
    pub(crate) columns: &'a [Column<'a>],
    // Where it stands there.
    pub(crate) row: usize,
}

impl BodyRow for ColumnRow<'_> {
    ghost use Rattle.eco_frame.specs.Rows.{column_row};

    ghost row_of = { column_row };

    fn entity(&self) -> Entity {
        self.entity
    }

    fn entries(&self) -> &[Option<Id>] {
        self.entries
    }

    #[inline(always)]
    fn value(&self, slot: usize) -> Option<Value> {
        match self.columns.get(slot) {
            Some(column) => column.value(self.row),
            None => None,
        }
    }

    #[inline(always)]
    fn set_sum(
        &self,
        into: usize,
        from: usize,
        id: Id,
        stage: &mut Stage,
    ) -> Result<(), AllocError> {
        match (self.columns.get(into), self.columns.get(from)) {
            (Some(column), Some(other)) => column.set_sum(other, self.row, self.entity, id, stage),
            _ => Ok(()),
        }
    }
}
