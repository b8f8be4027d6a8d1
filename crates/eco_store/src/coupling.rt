//! Steps of two entities, both or neither. One of them goes to a table in which its room is taken first; so where the other
//! stands alone, its table takes its next type where it stands, and no table of all its ids is made.
ghost use Rattle.std.specs.Prelude.{◌≡◌, ◌≢◌, false, Some, IsTrue, length, nat_eq};
ghost use Rattle.std.specs.List.{list_any};
ghost use Rattle.eco_entities.specs.Registration.{own_place};
ghost use Rattle.eco_ids.specs.Indices.{is_alive};
ghost use Rattle.eco_ids.specs.Order.{entity_eq};
ghost use Rattle.eco_store.specs.Layout.{seen, Attempts, IsLaid, StepsBeside, TurnsTable};
ghost use Rattle.eco_archetypes.specs.Records.{stepped};
ghost use Rattle.eco_tables.specs.Tables.{table_in};

use crate::layout::Layout;
use eco_entities::Place;
use eco_ids::{Entity, Id, TableSlot};
use eco_tables::Tables;
use std::alloc::AllocError;

// How many ids the type of the table in a slot has.
fn id_count(tables: &Tables, slot: TableSlot) -> usize
    ensures { result ≡ length (table_in tables.now slot).ids }
{
    match tables.get(slot) {
        Some(table) => table.type_list().as_slice().len(),
        None => 0,
    }
}

// Whether the first of two tables, rather than the second, takes its next type where it stands: it has one row, and to make its
// next table would cost more. It saves work, and decides nothing.
fn is_dearer(tables: &Tables, first: TableSlot, second: TableSlot) -> bool {
    tables.row_count(first) == 1
        && (tables.row_count(second) != 1 || id_count(tables, first) > id_count(tables, second))
}

impl Layout {
    /// Each of two entities gets the id beside it, or loses it: both or neither. An `Err` comes where memory is refused.
    pub(crate) fn step_both(
        &mut self,
        first: (Entity, Id),
        second: (Entity, Id),
    ) -> Result<(), AllocError>
        requires laid { IsLaid self.old }
        requires first { IsTrue (is_alive self.old.entities first.0) }
        requires second { IsTrue (is_alive self.old.entities second.0) }
        requires apart { entity_eq second.0 first.0 ≡ false }
        ensures { Attempts self.old self.new (stepped (stepped (seen self.old) first) second) result }
    {
        let own = self.entities.place_of(first.0).unwrap();
        let other = self.entities.place_of(second.0).unwrap();
        if is_dearer(self.archetypes.tables(), own.table, other.table) {
            self.step_in_turn(first, second)
        } else {
            self.step_in_turn(second, first)
        }
    }

    // The first of two entities takes its step, and then the second one, whose table and room are taken before.
    fn step_in_turn(&mut self, first: (Entity, Id), second: (Entity, Id)) -> Result<(), AllocError>
        requires laid { IsLaid self.old }
        requires first { IsTrue (is_alive self.old.entities first.0) }
        requires second { IsTrue (is_alive self.old.entities second.0) }
        requires apart { first.0 ≢ second.0 }
        ensures { Attempts self.old self.new (stepped (stepped (seen self.old) first) second) result }
    {
        let place = self.place_of(second.0);
        let to = self.step_target(place.table, second.1)?;
        self.step_beside(first, to)?;
        self.go_to(second.0, to);
        Ok(())
    }

    // The entity gets the id, or loses it. The table in the slot `kept`, a target, keeps its type, and room but for one row.
    fn step_beside(&mut self, step: (Entity, Id), kept: TableSlot) -> Result<(), AllocError>
        requires laid { IsLaid self.old }
        requires alive { IsTrue (is_alive self.old.entities step.0) }
        requires kept { IsTrue (list_any (nat_eq kept) self.old.staying.targets) }
        ensures { StepsBeside self.old self.new step kept result }
    {
        let place = self.place_of(step.0);
        if place.table != kept && self.turn(step, place)? {
            return Ok(());
        }
        let to = self.step_target(place.table, step.1)?;
        self.go_to(step.0, to);
        Ok(())
    }

    /// Where an entity stands alone in its table, and no other has its next type, the table takes that along, and the answer is
    /// true; else nothing changes. An `Err` comes where memory is refused, and then nothing has changed.
    pub(crate) fn turn(&mut self, step: (Entity, Id), place: Place) -> Result<bool, AllocError>
        requires laid { IsLaid self.old }
        requires own { own_place self.old.entities step.0 ≡ Some place }
        ensures { TurnsTable self.old self.new step place.table result }
    {
        self.archetypes.tables().rows_have_ids();
        self.archetypes
            .step_alone(&self.entities, place.table, step.1)
    }
}
