//! The slots of many tables go from all lists at once.
ghost use Rattle.eco_index.specs.Sweeping.{KeepsListed};

use crate::id_index::IdIndex;
use crate::occupancy::Occupancy;

impl IdIndex {
    ghost use Rattle.eco_index.specs.Contents.{lists_in};

    /// The slots without a table go off the lists of all patterns. It takes no memory.
    pub fn keep_there<T: Occupancy>(&mut self, tables: &T)
        ensures { KeepsListed (T.has_table tables.now) (lists_in self.old) (lists_in self.new) }
    {
        // No two keys are equal, as the length says.
        let _count = self.slots.len();
        self.slots.retain(|_, slots| slots.keep_there(tables));
    }
}
