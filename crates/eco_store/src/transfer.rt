//! All rows of a table go to another, and their entities with them.
ghost use Rattle.std.specs.Prelude.{◌≡◌, ◌≢◌, ◌≤◌, length, map, IsSome};
ghost use Rattle.eco_tables.specs.Tables.{slot_of, table_in};
ghost use Rattle.eco_store.specs.Layout.{seen, Empties, IsLaid};
ghost use Rattle.eco_archetypes.specs.Retyping.{after_change, after_changes, IsOneWay};
ghost use Rattle.eco_archetypes.specs.Shown.{IsStore};
ghost use Rattle.eco_store.specs.Transfers.{change_of, with_places, IsNamed, AreTransfersReady};

use crate::layout::Layout;
use eco_entities::{EntityIndex, Place};
use eco_ids::TableSlot;
use eco_tables::Tables;
use std::alloc::AllocError;

/// The slots of a table whose rows all go, and of the one that they go to.
#[derive(Clone, Copy)]
pub struct Transfer {
    pub from: TableSlot,
    pub to: TableSlot,
}

impl Transfer {
    // The entities of the table that is left get their places in the other one, in their order, behind those who stand there.
    fn place_rows(self, entities: &mut EntityIndex, tables: &Tables)
        requires store { IsStore entities.old tables.now }
        requires there { IsSome (slot_of tables.now self.from) }
        ensures { entities.new
            ≡ with_places entities.old self (length (table_in tables.now self.to).rows)
            (length (table_in tables.now self.from).rows) }
    {
        // A place's row fits, as no table has more rows than there are indices.
        entities.rules();
        let end = tables.row_count(self.to);
        let moved = tables.get(self.from).unwrap().rows();
        for row in 0..moved.len() {
            entities.set_place(
                moved[row],
                Place {
                    table: self.to,
                    row: end + row,
                },
            );
        }
    }
}

impl Layout {
    /// Carries the transfers out, one after another. It takes no memory.
    pub(crate) fn move_all(&mut self, transfers: &[Transfer])
        requires laid { IsLaid self.old }
        requires ready { AreTransfersReady self.old.archetypes self.old.staying.targets transfers.now
            (map (change_of self.old.archetypes) transfers.now) }
        requires one_way { IsOneWay (map (change_of self.old.archetypes) transfers.now) }
        ensures laid { IsLaid self.new }
        ensures seen { seen self.new
            ≡ after_changes (seen self.old) (map (change_of self.old.archetypes) transfers.now) }
    {
        for transfer in transfers {
            self.move_rows(*transfer);
        }
    }

    // All rows of a table go to the end of the other one, in their order. It takes no memory.
    fn move_rows(&mut self, transfer: Transfer)
        requires laid { IsLaid self.old }
        requires named { IsNamed self.old.staying.targets transfer }
        requires apart { transfer.from ≢ transfer.to }
        requires source { IsSome (slot_of self.old.archetypes transfer.from) }
        requires target { IsSome (slot_of self.old.archetypes transfer.to) }
        requires room { length (table_in self.old.archetypes transfer.from).rows
            ≤ (table_in self.old.archetypes transfer.to).room }
        ensures empties { Empties self.old self.new transfer.from transfer.to }
        ensures seen { seen self.new ≡ after_change (seen self.old) (change_of self.old.archetypes transfer) }
    {
        let tables = self.archetypes.tables();
        tables.rows_have_ids();
        transfer.place_rows(&mut self.entities, tables);
        self.archetypes.move_rows(transfer.from, transfer.to);
    }
}
