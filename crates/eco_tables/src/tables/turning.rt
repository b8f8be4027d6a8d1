//! The table in a slot takes another type where it stands.
ghost use Rattle.std.specs.Prelude.{◌≡◌, ◌≤◌, false, Some, IsSome, OnOk, OnErr};
ghost use Rattle.eco_ids.specs.Order.{id_cmp, has_item, with_item, without_item};
ghost use Rattle.eco_tables.specs.Tables.{slot_of, table_in, turned, SetsSlot};

use crate::tables::Tables;
use crate::tables::lending::table_mut;
use eco_ids::value::FIELD_COUNT;
use eco_ids::{Id, TableSlot};
use std::alloc::AllocError;

impl Tables {
    /// The type of a table gets an id that it lacks, of which each row holds zeros in so many fields. An `Err` comes where
    /// memory is refused, and then nothing has changed.
    pub fn gain(&mut self, slot: TableSlot, id: Id, width: u8) -> Result<(), AllocError>
        requires there { IsSome (slot_of self.old slot) }
        requires absent { has_item id_cmp (table_in self.old slot).ids id ≡ false }
        requires width { width ≤ FIELD_COUNT }
        ensures ok { OnOk result (SetsSlot self.old self.new slot
            (Some (turned (table_in self.old slot)
            (with_item id_cmp (table_in self.old slot).ids id) id width))) }
        ensures err { OnErr result (SetsSlot self.old self.new slot (slot_of self.old slot)) }
    {
        table_mut(&mut self.slots, slot).gain(self.alloc, id, width)?;
        Ok(())
    }

    /// The type of a table loses an id, if it has it, and each row the value. It takes no memory.
    pub fn lose(&mut self, slot: TableSlot, id: Id)
        requires { IsSome (slot_of self.old slot) }
        ensures { SetsSlot self.old self.new slot
            (Some (turned (table_in self.old slot)
            (without_item id_cmp (table_in self.old slot).ids id) id 0)) }
    {
        table_mut(&mut self.slots, slot).lose(id);
    }
}
