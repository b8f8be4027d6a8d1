//! The entities and the tables of a store, to read and to search.
ghost use Rattle.std.specs.Prelude.{◌≡◌};
ghost use Rattle.eco_store.specs.Lent.{AreTablesOf};

use crate::store::Store;
use eco_archetypes::{Archetypes, Places};

impl Store {
    /// The entities and the tables, to read and to search.
    #[inline]
    pub fn places(&self) -> Places<'_>
        ensures { result.entities ≡ self.now.entities }
    {
        Places::new(&self.layout.entities, &self.layout.archetypes)
    }

    /// The tables, to read and to find by the ids of their types: as [`tables`](Store::tables) says, each living entity stands
    /// in one row, in the table of its own ids, no two tables have the same type, and they keep fields of each id that is data.
    #[inline]
    pub fn archetypes(&self) -> &Archetypes
        ensures { AreTablesOf self.now.entities result.now }
    {
        let archetypes = &self.layout.archetypes;
        archetypes.tables().rows_have_ids();
        archetypes
    }
}
