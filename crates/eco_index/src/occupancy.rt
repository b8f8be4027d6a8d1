//! Where tables stand, as whoever has these says.
ghost use Rattle.std.specs.Prelude.{◌≡◌, ℕ, Bool};

use eco_ids::TableSlot;

/// Which slots have a table. An index knows no table: asked to forget those that went, it asks back.
pub trait Occupancy {
    /// A table stands in the slot.
    ghost has_table: { Self → ℕ → Bool };

    /// Whether a table stands in the slot.
    fn has_table(&self, slot: TableSlot) -> bool
        ensures { result ≡ has_table self.now slot };
}
