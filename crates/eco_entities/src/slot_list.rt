//! The list of slots.
ghost use Rattle.std.specs.Prelude.{◌≡◌, ◌+◌, ◌<◌, ◌≤◌, ◌++◌, false, length, replicate, slice_get, vec_capacity, vec_len};
ghost use Rattle.std.specs.Prelude.{IsFalse, IsTrue, OnErr, OnOk};
ghost use Rattle.eco_entities.specs.Slots.{living_slot, put_at, IsNextSlot};

use crate::free_set::FreeSet;
use crate::slot::Slot;
use eco_ids::Entity;
use std::alloc::AllocError;

/// The slot of a known index.
#[inline]
pub(crate) fn slot_at(slots: &[Slot], index: usize) -> Option<Slot>
    ensures { result ≡ slice_get slots.now index }
{
    slots.get(index).copied()
}

/// The slot of an entity, if it lives.
#[inline]
pub(crate) fn living(slots: &[Slot], entity: Entity) -> Option<Slot>
    ensures { result ≡ living_slot slots.now entity }
{
    match slot_at(slots, entity.index as usize) {
        Some(slot) if slot.is_living() && entity.generation == slot.generation() => Some(slot),
        _ => None,
    }
}

/// The slot is at the index from now on, which is known or the first unknown one, and the index isn't free. An `Err` leaves
/// both.
#[inline(always)]
pub(crate) fn put(
    slots: &mut Vec<Slot>,
    free: &mut FreeSet,
    index: usize,
    slot: Slot,
) -> Result<(), AllocError>
    requires { IsNextSlot index (length slots.old.items) (length free.old) }
    ensures slots { OnOk result (slots.new.items ≡ put_at index slot slots.old.items) }
    ensures free { OnOk result (free.new ≡ put_at index false free.old) }
    ensures err_slots { OnErr result (slots.new.items ≡ slots.old.items) }
    ensures err_free { OnErr result (free.new ≡ free.old) }
{
    if index < slots.len() {
        free.remove(index);
        slots[index] = slot;
        return Ok(());
    }
    if slots.len() == slots.capacity() {
        grow(slots)?;
    }
    free.grow(1)?;
    slots.push_reserved(slot);
    Ok(())
}

// A quarter of the most indices that a world may have.
const QUARTER: usize = 262_144;

// Room for one more slot, where there is none. The list grows fourfold, or doubles where so much is refused: it is copied less
// often than one that only doubles, and the blocks that it leaves behind are small beside it, so that an allocator that
// keeps some memory for the next world keeps them all.
#[cold]
#[inline(never)]
fn grow(slots: &mut Vec<Slot>) -> Result<(), AllocError>
    ensures items { slots.new.items ≡ slots.old.items }
    ensures room { OnOk result (vec_len slots.new < vec_capacity slots.new) }
{
    let known = slots.len();
    if known <= QUARTER {
        let _ = slots.reserve(3 * known);
    }
    slots.reserve(1)
}

/// What `put` does, where it wants no memory. The answer says whether it does; if it would, both stay as they are.
#[inline(always)]
pub(crate) fn put_in_room(
    slots: &mut Vec<Slot>,
    free: &mut FreeSet,
    index: usize,
    slot: Slot,
) -> bool
    requires { IsNextSlot index (length slots.old.items) (length free.old) }
    ensures slots { IsTrue result → slots.new.items ≡ put_at index slot slots.old.items }
    ensures free { IsTrue result → free.new ≡ put_at index false free.old }
    ensures same_slots { IsFalse result → slots.new.items ≡ slots.old.items }
    ensures same_free { IsFalse result → free.new ≡ free.old }
{
    if index < slots.len() {
        free.remove(index);
        slots[index] = slot;
        return true;
    }
    if slots.len() == slots.capacity() || !free.push_in_room() {
        return false;
    }
    slots.push_reserved(slot);
    true
}

/// Appends copies of a slot, for which there is room.
pub(crate) fn push_copies(slots: &mut Vec<Slot>, slot: Slot, count: usize)
    requires { vec_len slots.old + count ≤ vec_capacity slots.old }
    ensures { slots.new.items ≡ slots.old.items ++ replicate count slot }
{
    for _ in 0..count {
        slots.push_reserved(slot);
    }
}
