//! An entity gets another type, or many do.
ghost use Rattle.std.specs.Prelude.{◌≡◌, [], Some, IsTrue, IsOk};
ghost use Rattle.eco_ids.specs.Indices.{changed, is_alive};
ghost use Rattle.eco_store.specs.Moving.{after_moves};
ghost use Rattle.eco_archetypes.specs.Records.{type_in_store, with_type, Tries};

use crate::moving::Move;
use crate::store::Store;
use eco_ids::{Entity, TypeList};
use std::alloc::AllocError;

impl Store {
    /// Gives an entity another type: values of ids that both have stay, new ids hold zeros. Where the type is its own, it takes
    /// no memory and succeeds. An `Err` comes where memory is refused, and then no entity has changed.
    pub fn retype(&mut self, e: Entity, type_list: &TypeList) -> Result<(), AllocError>
        requires { IsTrue (is_alive self.old.entities e) }
        ensures tries { Tries self.old.entities (changed self.old.entities e (with_type type_list.now))
            result self.new.entities }
        ensures own { type_in_store self.old.entities e ≡ Some type_list.now → IsOk result }
    {
        let place = self.layout.place_of(e);
        let table = self.layout.archetypes.tables().get(place.table).unwrap();
        // Under its own type an entity holds what it held, since the ids of its row ascend.
        if table.type_list().as_slice() == type_list.as_slice() {
            return Ok(());
        }
        let to = self
            .layout
            .archetypes
            .room_for(&self.layout.entities, type_list, 1)?;
        self.layout.carry(e, place, to);
        Ok(())
    }

    /// Gives each of these entities the type beside it, as [`retype`](Store::retype) does, one after another; one that doesn't
    /// live is passed over. All or none: the tables and the room of all moves are taken before the first entity changes, and
    /// from then on it takes no memory. An `Err` comes where memory is refused, and changes nothing. Without moves it takes none.
    ///
    /// Values of ids that came are written after it ([`set_value`](Store::set_value)), which takes no memory either.
    pub fn retype_all(&mut self, moves: &[Move]) -> Result<(), AllocError>
        ensures tries { Tries self.old.entities (after_moves self.old.entities moves.now)
            result self.new.entities }
        ensures nothing { moves.now ≡ [] → IsOk result }
    {
        let planned = self.layout.plan_moves(self.alloc, moves);
        if let Ok(slots) = &planned {
            self.layout.make_moves(moves, slots);
        }
        self.layout.forget();
        planned.map(|_| ())
    }
}
