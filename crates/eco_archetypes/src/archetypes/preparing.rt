//! Room that is promised before rows come, so that changes of many entities take all of theirs before the first row moves.
ghost use Rattle.std.specs.Prelude.{◌≡◌, ◌≤◌, ◌+◌, List, ℕ, Some, IsSome, OnOk, OnErr};
ghost use Rattle.eco_tables.specs.Tables.{slot_of, table_in, SetsSlot, SetsRoom};
ghost use Rattle.eco_archetypes.specs.Archetypes.{RowlessIn, SameRows, SameTypes};
ghost use Rattle.eco_archetypes.specs.Widths.{KeepsWidths};

use crate::archetypes::Archetypes;
use eco_ids::TableSlot;
use std::alloc::AllocError;

impl Archetypes {
    /// Room for so many rows more than a table had room for, and for no more than that. An `Err` comes where memory is
    /// refused, and keeps the room that was there.
    pub fn reserve_more(&mut self, slot: TableSlot, more: usize) -> Result<(), AllocError>
        requires { IsSome (slot_of self.old slot) }
        ensures sets { SetsRoom self.old self.new slot }
        ensures kept { (table_in self.old slot).room ≤ (table_in self.new slot).room }
        ensures room { OnOk result ((table_in self.new slot).room ≡ (table_in self.old slot).room + more) }
        ensures err { OnErr result ((table_in self.new slot).room ≡ (table_in self.old slot).room) }
        ensures types { SameTypes self.old self.new }
        ensures rowless { (slots : List ℕ) → RowlessIn self.old slots → RowlessIn self.new slots }
        ensures rows { SameRows self.old self.new }
        ensures widths { KeepsWidths self.old self.new }
    {
        self.tables.reserve_more(slot, more)
    }

    /// Takes the promise of room in a table back, so that what a refused call reserved serves the next one.
    pub fn waive(&mut self, slot: TableSlot)
        requires { IsSome (slot_of self.old slot) }
        ensures sets { SetsSlot self.old self.new slot (Some (record (table_in self.old slot) { room = 0 })) }
        ensures types { SameTypes self.old self.new }
        ensures rowless { (slots : List ℕ) → RowlessIn self.old slots → RowlessIn self.new slots }
        ensures rows { SameRows self.old self.new }
        ensures widths { KeepsWidths self.old self.new }
    {
        self.tables.waive(slot);
    }

    /// Gives up the room in a table but for so many more rows. The memory of the rest goes back, where the allocator takes it.
    pub fn shrink(&mut self, slot: TableSlot, room: usize)
        requires there { IsSome (slot_of self.old slot) }
        requires room { room ≤ (table_in self.old slot).room }
        ensures sets { SetsSlot self.old self.new slot
            (Some (record (table_in self.old slot) { room = room })) }
        ensures types { SameTypes self.old self.new }
        ensures rowless { (slots : List ℕ) → RowlessIn self.old slots → RowlessIn self.new slots }
        ensures rows { SameRows self.old self.new }
        ensures widths { KeepsWidths self.old self.new }
    {
        self.tables.shrink(slot, room);
    }
}
