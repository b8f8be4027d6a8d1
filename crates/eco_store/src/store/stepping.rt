//! An entity gets an id, or loses one that it has, or two entities do.
ghost use Rattle.std.specs.Prelude.{◌≡◌, false, IsTrue};
ghost use Rattle.eco_ids.specs.Indices.{is_alive};
ghost use Rattle.eco_ids.specs.Order.{entity_eq};
ghost use Rattle.eco_archetypes.specs.Records.{stepped, Tries};

use crate::store::Store;
use eco_ids::{Entity, Id};
use std::alloc::AllocError;

impl Store {
    /// Gives an entity an id that it lacks, with zeros, or takes one away that it has. The values of its other ids stay. An
    /// `Err` comes where memory is refused, and then no entity has changed.
    #[inline(always)]
    pub fn step(&mut self, e: Entity, id: Id) -> Result<(), AllocError>
        requires { IsTrue (is_alive self.old.entities e) }
        ensures { Tries self.old.entities (stepped self.old.entities (e, id)) result self.new.entities }
    {
        let place = self.layout.place_of(e);
        let Some(led) = self.layout.archetypes.lead(place.table, id) else {
            // A copy of its own, since what is handed over stands in memory: so an id that an edge is stored for need not.
            let new = id;
            return self.step_anew(e, new);
        };
        let to = self
            .layout
            .archetypes
            .make_room(&self.layout.entities, led, 1)?;
        self.layout.carry(e, place, to);
        Ok(())
    }

    // What `step` does, also where no edge is stored. An entity that stands alone in its table takes that along, where no other
    // table has its next type.
    #[cold]
    #[inline(never)]
    fn step_anew(&mut self, e: Entity, id: Id) -> Result<(), AllocError>
        requires { IsTrue (is_alive self.old.entities e) }
        ensures { Tries self.old.entities (stepped self.old.entities (e, id)) result self.new.entities }
    {
        let place = self.layout.place_of(e);
        if self.layout.turn((e, id), place)? {
            return Ok(());
        }
        let to = self
            .layout
            .archetypes
            .step(&self.layout.entities, place.table, id, 1)?;
        self.layout.carry(e, place, to);
        Ok(())
    }

    /// Gives each of two entities the id beside it, with zeros, or takes that away where it has it, as [`step`](Store::step)
    /// does: both or neither. Where one of them stands alone in its table, no other table is made for it, however many ids it has.
    /// An `Err` comes where memory is refused, and then no entity has changed.
    pub fn step_both(&mut self, first: (Entity, Id), second: (Entity, Id)) -> Result<(), AllocError>
        requires first { IsTrue (is_alive self.old.entities first.0) }
        requires second { IsTrue (is_alive self.old.entities second.0) }
        requires apart { entity_eq second.0 first.0 ≡ false }
        ensures { Tries self.old.entities (stepped (stepped self.old.entities first) second)
            result self.new.entities }
    {
        let stepped = self.layout.step_both(first, second);
        self.layout.forget();
        stepped
    }
}
