//! An entity gets one id in the place of another.
ghost use Rattle.std.specs.Prelude.{◌≡◌, true, false, IsTrue};
ghost use Rattle.eco_ids.specs.Indices.{changed, is_alive};
ghost use Rattle.eco_archetypes.specs.Records.{has_in_store, with_exchanged, Tries};

use crate::store::Store;
use eco_ids::{Entity, Id};
use std::alloc::AllocError;

impl Store {
    /// Gives an entity an id that it lacks, with zeros, in the place of one that it has. The values of its other ids stay. An
    /// `Err` comes where memory is refused, and then no entity has changed.
    pub fn exchange(&mut self, e: Entity, leaving: Id, coming: Id) -> Result<(), AllocError>
        requires alive { IsTrue (is_alive self.old.entities e) }
        requires there { has_in_store self.old.entities e leaving ≡ true }
        requires absent { has_in_store self.old.entities e coming ≡ false }
        ensures { Tries self.old.entities (changed self.old.entities e (with_exchanged leaving coming))
            result self.new.entities }
    {
        let place = self.layout.place_of(e);
        let to = self
            .layout
            .archetypes
            .exchange(&self.layout.entities, place.table, leaving, coming)?;
        self.layout.carry(e, place, to);
        Ok(())
    }
}
