//! Where tables stand, as an index asks.
ghost use Rattle.eco_archetypes.specs.Sweeping.{has_table};

use eco_ids::TableSlot;
use eco_index::Occupancy;
use eco_tables::Tables;

/// The slots of these tables.
#[derive(Drop)]
pub struct Occupied<'a> {
    pub tables: &'a Tables,
}

impl<'a> Occupancy for Occupied<'a> {
    ghost has_table = { λ o. has_table o.tables.now };

    fn has_table(&self, slot: TableSlot) -> bool {
        self.tables.contains(slot)
    }
}
