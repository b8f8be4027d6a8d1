//! An entity goes to another table.
ghost use Rattle.std.specs.Prelude.{◌≡◌, ◌≢◌, ◌<◌, length, Some, IsSome, IsTrue};
ghost use Rattle.eco_entities.specs.Registration.{own_place};
ghost use Rattle.eco_ids.specs.Indices.{changed, is_alive};
ghost use Rattle.eco_store.specs.Layout.{seen, Carries, IsLaid, IsLaidBeside};
ghost use Rattle.eco_archetypes.specs.Records.{type_in_store, with_type};
ghost use Rattle.eco_tables.specs.Tables.{slot_of, table_in};

use crate::layout::Layout;
use crate::placing::fix_place;
use eco_entities::Place;
use eco_entities::laws::needs_never_grow;
use eco_ids::{Entity, TableSlot};

impl Layout {
    /// Where a living entity stands, in the table of its ids.
    #[inline(always)]
    pub(crate) fn place_of(&self, e: Entity) -> Place
        requires laid { IsLaid self.now }
        requires alive { IsTrue (is_alive self.now.entities e) }
        ensures own { own_place self.now.entities e ≡ Some result }
        ensures row { result.row < length (table_in self.now.archetypes result.table).rows }
        ensures there { IsSome (slot_of self.now.archetypes result.table) }
        ensures typed { type_in_store (seen self.now) e
            ≡ Some (table_in self.now.archetypes result.table).ids }
    {
        // Each row has a value for each id of its table.
        self.archetypes.tables().rows_have_ids();
        self.entities.seat_of(e)
    }

    /// The entity goes from its place to the end of the table in this slot, where its room was taken. It takes no memory.
    #[inline(always)]
    pub(crate) fn carry(&mut self, e: Entity, place: Place, to: TableSlot)
        requires laid { IsLaidBeside self.old to }
        requires own { own_place self.old.entities e ≡ Some place }
        requires apart { place.table ≢ to }
        requires room { 0 < (table_in self.old.archetypes to).room }
        ensures carries { Carries self.old self.new to }
        ensures seen { seen self.new
            ≡ changed (seen self.old) e (with_type (table_in self.old.archetypes to).ids) }
    {
        // A place's row fits, as a table has no more rows than there are indices.
        self.entities.rules();
        needs_never_grow();
        let row = self.archetypes.tables().row_count(to);
        let filler = self.archetypes.move_row(place.table, place.row, to);
        fix_place(&mut self.entities, filler, place);
        self.entities.set_place(e, Place { table: to, row });
        self.release_row(place);
    }
}
