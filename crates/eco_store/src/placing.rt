//! An entity that came to a row is placed there.
ghost use Rattle.std.specs.Prelude.{◌≡◌, ◌<◌, length, IsTrue, IfSome, Some};
ghost use Rattle.eco_ids.specs.Indices.{is_alive};
ghost use Rattle.eco_tables.specs.Tables.{table_in};
ghost use Rattle.eco_store.specs.Placing.{fixed};
ghost use Rattle.eco_store.specs.Layout.{SeatsEntity};

use crate::layout::Layout;
use eco_entities::laws::needs_never_grow;
use eco_entities::{EntityIndex, Place};
use eco_ids::{Entity, TableSlot};

/// The entity that a removal put into this row, if it put one there, is placed there.
pub fn fix_place(entities: &mut EntityIndex, moved: Option<Entity>, place: Place)
    requires living { IfSome moved (λ e. IsTrue (is_alive entities.old e)) }
    requires fits { place.row < 4294967295 }
    ensures { entities.new ≡ fixed entities.old moved place }
{
    if let Some(entity) = moved {
        entities.set_place(entity, place);
    }
}

impl Layout {
    /// The entity gets a row at the end of the table in this slot, where its room was taken, and is placed there.
    #[inline(always)]
    pub(crate) fn seat(&mut self, e: Entity, slot: TableSlot)
        requires alive { IsTrue (is_alive self.old.entities e) }
        requires room { 0 < (table_in self.old.archetypes slot).room }
        requires fits { length (table_in self.old.archetypes slot).rows < 4294967295 }
        ensures { SeatsEntity self.old self.new e slot }
    {
        needs_never_grow();
        let row = self.archetypes.tables().row_count(slot);
        self.archetypes.push_row(slot, e);
        self.entities.set_place(e, Place { table: slot, row });
    }
}
