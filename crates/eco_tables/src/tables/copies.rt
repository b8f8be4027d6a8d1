//! All tables once more.
ghost use Rattle.std.specs.Prelude.{◌≡◌, ◌≤◌, map, vec_capacity, IfOk};
ghost use Rattle.eco_tables.specs.Tables.{without_room, AreCopies};

use crate::table::Table;
use crate::tables::Tables;
use eco_ids::TableSlot;
use std::alloc::{AllocError, Global};

impl Tables {
    /// The same tables once more, each in the slot that it has, and none of them with room. An `Err` comes where memory is
    /// refused.
    pub fn try_copy(&self) -> Result<Tables, AllocError>
        ensures { IfOk result (λ t. AreCopies self.now t) }
    {
        let slots = copy_slots(self.alloc, self.slots.as_slice())?;
        let vacant = copy_with_room(self.alloc, self.vacant.as_slice(), slots.len())?;
        Ok(Tables {
            alloc: self.alloc,
            slots,
            vacant,
        })
    }
}

// The table once more, if there is one.
fn copy_slot(slot: &Option<Table>) -> Result<Option<Table>, AllocError>
    ensures { IfOk result (λ o. o ≡ without_room slot.now) }
{
    match slot {
        Some(table) => Ok(Some(table.try_copy()?)),
        None => Ok(None),
    }
}

// The tables once more, each in the slot that it has.
fn copy_slots(alloc: Global, slots: &[Option<Table>]) -> Result<Vec<Option<Table>>, AllocError>
    ensures { IfOk result (λ v. v.items ≡ map without_room slots.now) }
{
    let mut copies = Vec::with_capacity(alloc, slots.len())?;
    for slot in slots {
        let copy = copy_slot(slot)?;
        copies.push(copy)?;
    }
    Ok(copies)
}

// The numbers once more, with room for so many in all.
fn copy_with_room(
    alloc: Global,
    numbers: &[TableSlot],
    room: usize,
) -> Result<Vec<TableSlot>, AllocError>
    ensures same { IfOk result (λ v. v.items ≡ numbers.now) }
    ensures room { IfOk result (λ v. room ≤ vec_capacity v) }
{
    let mut copies = Vec::with_capacity(alloc, room)?;
    copies.extend_from_slice(numbers)?;
    Ok(copies)
}
