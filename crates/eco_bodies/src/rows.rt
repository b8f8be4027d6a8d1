//! Rows that a system's body is handed at once.
ghost use Rattle.std.specs.Prelude.{◌≡◌, ◌++◌, ◌<◌, List, Some, flat_map, length, slice_get, OnOk};
ghost use Rattle.std.specs.List.{AllByRecursion};
ghost use Rattle.eco_systems.specs.Rows.{ValuedRow};
ghost use Rattle.eco_bodies.specs.RowSums.{set_sum_of};

use crate::row::BodyRow;
use eco_ids::Id;
use eco_stages::Stage;
use std::alloc::AllocError;

/// Consecutive rows of a system's query that share their entries, so that a body may ask once for all of them what it would
/// ask in each (Flecs manual, Systems). Nothing of them is owned.
pub trait BodyRows {
    /// One of them.
    type Row: BodyRow + Drop;

    // The rows as definitions have them.
    ghost rows_of: { Self → List ValuedRow };

    /// How many there are.
    fn len(&self) -> usize
        ensures { result ≡ length (rows_of self.now) };

    /// The entries that all of them have, one or none for each slot of the query.
    fn entries(&self) -> &[Option<Id>]
        ensures { AllByRecursion (λ row. row.entries ≡ result.now) (rows_of self.now) };

    /// One of them.
    fn row(&self, place: usize) -> Self::Row
        requires { place < length (rows_of self.now) }
        ensures { slice_get (rows_of self.now) place ≡ Some (Self.Row.row_of result) };

    /// Records for each row in turn that its entity's id is set to the sum of the values in two slots, where there are both.
    /// An `Err` comes where there is no memory.
    fn set_sums(
        &self,
        into: usize,
        from: usize,
        id: Id,
        stage: &mut Stage,
    ) -> Result<(), AllocError>
        ensures { OnOk result (stage.new ≡ stage.old ++ flat_map (set_sum_of into from id) (rows_of self.now)) };
}
