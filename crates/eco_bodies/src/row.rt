//! What a system's body is handed of a row.
ghost use Rattle.std.specs.Prelude.{◌≡◌, ◌++◌, option_map, option_to_list, OnErr, OnOk};
ghost use Rattle.eco_ids.specs.Run.{Set};
ghost use Rattle.eco_systems.specs.Rows.{ValuedRow};
ghost use Rattle.eco_bodies.specs.Lent.{item_at};
ghost use Rattle.eco_bodies.specs.Sums.{sum_of_both};

use crate::recording::put_command;
use crate::sum::sum_of;
use eco_ids::{Entity, Id, Value};
use eco_stages::{Command, Stage};
use std::alloc::AllocError;

/// A row of a system's query: an entity, its entry in each slot, and a value where the entry is data and the slot's access
/// shows it (Flecs manual, Systems; Queries, "Access modifiers"). Nothing of it is owned: entries may stand once for all
/// rows of a table, and a value is read where it stands once somebody asks for it.
pub trait BodyRow {
    // The row as definitions have it.
    ghost row_of: { Self → ValuedRow };

    /// The entity.
    fn entity(&self) -> Entity
        ensures { result ≡ (row_of self.now).entity };

    /// Its entries, one or none for each slot of the query.
    fn entries(&self) -> &[Option<Id>]
        ensures { result.now ≡ (row_of self.now).entries };

    /// The value of the entry in a slot. None where there is no such slot, where it has no entry or one that is no data,
    /// and where its access is neither in nor inout.
    fn value(&self, slot: usize) -> Option<Value>
        ensures { result ≡ item_at (row_of self.now).values slot };

    /// The sum of the values in two slots, where there are both.
    #[inline(always)]
    fn sum(&self, into: usize, from: usize) -> Option<Value>
        ensures { result ≡ sum_of_both (item_at (row_of self.now).values into)
            (item_at (row_of self.now).values from) }
    {
        match (self.value(into), self.value(from)) {
            (Some(value), Some(other)) => Some(sum_of(value, other)),
            _ => None,
        }
    }

    /// Records that the entity's id is set to the sum of the values in two slots, where there are both. A row whose values
    /// stand in columns may know how many fields there are to add. An `Err` leaves the stage as it was.
    #[inline(always)]
    fn set_sum(&self, into: usize, from: usize, id: Id, stage: &mut Stage) -> Result<(), AllocError>
        ensures ok { OnOk result (stage.new ≡ stage.old ++ option_to_list (option_map
            (λ sum. Set (row_of self.now).entity id sum)
            (sum_of_both (item_at (row_of self.now).values into) (item_at (row_of self.now).values from)))) }
        ensures err { OnErr result (stage.new ≡ stage.old) }
    {
        match self.sum(into, from) {
            Some(sum) => put_command(stage, Command::Set(self.entity(), id, sum)),
            None => Ok(()),
        }
    }
}

/// A row whose entries and values stand in slices, one or none for each slot.
#[derive(Clone, Copy, Debug)]
pub struct LentRow<'a> {
    /// The entity.
    pub entity: Entity,
    /// Its entry in each slot.
    pub entries: &'a [Option<Id>],
    /// The value of each entry that has one and may be read.
    pub values: &'a [Option<Value>],
}

impl BodyRow for LentRow<'_> {
    ghost use Rattle.eco_bodies.specs.LentRows.{lent_row};

    ghost row_of = { lent_row };

    fn entity(&self) -> Entity {
        self.entity
    }

    fn entries(&self) -> &[Option<Id>] {
        self.entries
    }

    fn value(&self, slot: usize) -> Option<Value> {
        match self.values.get(slot) {
            Some(value) => *value,
            None => None,
        }
    }
}
