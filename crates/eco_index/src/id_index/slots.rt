//! The slots of the tables that one key finds.
ghost use Rattle.std.specs.Prelude.{◌≡◌, ◌≢◌, ◌∷◌, ◌&&◌, ℕ, [], nat_eq, not, true, false, Some, IfOk, OnOk, OnErr};
ghost use Rattle.std.specs.List.{list_any, IsDistinct};
ghost use Rattle.eco_index.specs.IdIndex.{slots_of, is_empty, is_only, SameSlotsOf, TurnsSlot};

use crate::id_index::slot_list::SlotList;
use crate::occupancy::Occupancy;
use eco_ids::TableSlot;
use indexmap::IndexSet;
use std::alloc::{AllocError, Global};
use std::slice;

/// At least one slot, each once. Most keys find one table, which takes no memory of its own.
pub enum Slots {
    /// This slot.
    One(TableSlot),
    /// These slots, which lie close together. The last of them may be alone again. The list is boxed, as the set is, so that what
    /// the map moves about stays small.
    Close(Box<SlotList>),
    /// These slots, some of which lie far from the others.
    Many(Box<IndexSet<TableSlot>>),
}

// By hand, so that dropping it is one call: a derived drop is proved anew at each early return of whoever holds it.
impl Drop for Slots {
    fn drop(self) {
        match self {
            Slots::One(_) | Slots::Close(_) | Slots::Many(_) => {}
        }
    }
}

impl Slots {
    /// The slots, each once.
    pub fn as_slice(&self) -> &[TableSlot]
        ensures slots { result.now ≡ slots_of self.now }
        ensures distinct { IsDistinct nat_eq (slots_of self.now) }
    {
        match self {
            Slots::One(own) => slice::from_ref(own),
            Slots::Close(slots) => slots.as_slice(),
            Slots::Many(slots) => slots.as_slice(),
        }
    }

    /// Whether the slot is one of them.
    pub fn has(&self, slot: TableSlot) -> bool
        ensures { result ≡ list_any (nat_eq slot) (slots_of self.now) }
    {
        match self {
            Slots::One(own) => slot == *own,
            Slots::Close(slots) => slots.place(slot).is_some(),
            Slots::Many(slots) => slots.contains(&slot),
        }
    }

    /// Puts the slot to the others; the answer is whether it came now. An `Err` changes nothing.
    pub fn add(&mut self, alloc: Global, slot: TableSlot) -> Result<bool, AllocError>
        ensures ok { OnOk result (TurnsSlot true (slots_of self.old) (slots_of self.new) slot) }
        ensures is_new { IfOk result (λ came. came ≡ not (list_any (nat_eq slot) (slots_of self.old))) }
        ensures err { OnErr result (SameSlotsOf (slots_of self.old) (slots_of self.new)) }
        ensures full { is_empty (Some self.old) ≡ false → is_empty (Some self.new) ≡ false }
    {
        match self {
            Slots::One(own) => {
                let is_new = *own != slot;
                if is_new {
                    *self = both(alloc, *own, slot)?;
                }
                Ok(is_new)
            }
            Slots::Close(slots) => {
                if slots.place(slot).is_some() {
                    return Ok(false);
                }
                if !slots.offer(slot)? {
                    *self = widened(alloc, slots, slot)?;
                }
                Ok(true)
            }
            Slots::Many(slots) => Ok(slots.insert(slot)?),
        }
    }

    /// Whether the slot is there, and alone.
    pub fn is_only(&self, slot: TableSlot) -> bool
        ensures { result ≡ is_only (slots_of self.now) slot }
    {
        let slots = self.as_slice();
        slots.len() == 1 && slots[0] == slot
    }

    /// The slots without a table go. The answer is whether one is left; if not, a slot may still stand here.
    pub fn keep_there<T: Occupancy>(&mut self, tables: &T) -> bool
        ensures left { (n : ℕ) → (result && list_any (nat_eq n) (slots_of self.new))
            ≡ (list_any (nat_eq n) (slots_of self.old) && T.has_table tables.now n) }
        ensures full { result ≡ true → is_empty (Some self.new) ≡ false }
    {
        match self {
            Slots::One(own) => tables.has_table(*own),
            Slots::Close(slots) => {
                slots.keep_there(tables);
                !slots.as_slice().is_empty()
            }
            Slots::Many(slots) => {
                slots.retain(|slot| tables.has_table(*slot));
                !slots.is_empty()
            }
        }
    }

    /// Takes the slot from the others, if it is one of them.
    pub fn take(&mut self, slot: TableSlot)
        requires { is_only (slots_of self.old) slot ≡ false }
        ensures taken { TurnsSlot false (slots_of self.old) (slots_of self.new) slot }
        ensures full { is_empty (Some self.old) ≡ false → is_empty (Some self.new) ≡ false }
    {
        match self {
            Slots::One(_) => {}
            Slots::Close(slots) => slots.take(slot),
            Slots::Many(slots) => {
                slots.swap_remove(&slot);
            }
        }
    }
}

fn set_of_two(
    alloc: Global,
    one: TableSlot,
    other: TableSlot,
) -> Result<IndexSet<TableSlot>, AllocError>
    requires { one ≢ other }
    ensures { IfOk result (λ slots. slots.keys ≡ one ∷ other ∷ []) }
{
    let mut slots = IndexSet::with_capacity(alloc, 2)?;
    // There is room for both.
    slots.insert(one).unwrap();
    slots.insert(other).unwrap();
    Ok(slots)
}

// Both slots, which differ.
#[cold]
#[inline(never)]
fn both(alloc: Global, one: TableSlot, other: TableSlot) -> Result<Slots, AllocError>
    requires { one ≢ other }
    ensures { IfOk result (λ slots. slots_of slots ≡ one ∷ other ∷ []) }
{
    let mut list = SlotList::new(alloc, one.min(other));
    if list.offer(one)? && list.offer(other)? {
        return Ok(Slots::Close(Box::new(alloc, list)?));
    }
    Ok(Slots::Many(Box::new(alloc, set_of_two(alloc, one, other)?)?))
}

// The slots of a list, and one that lies far from them.
#[cold]
#[inline(never)]
fn widened(alloc: Global, list: &SlotList, slot: TableSlot) -> Result<Slots, AllocError>
    ensures turned { IfOk result (λ slots. TurnsSlot true list.now.slots (slots_of slots) slot) }
    ensures full { IfOk result (λ slots. is_empty (Some slots) ≡ false) }
{
    let mut slots = set_of(alloc, list.as_slice())?;
    slots.insert(slot)?;
    Ok(Slots::Many(Box::new(alloc, slots)?))
}

// These slots, as a set.
fn set_of(alloc: Global, slots: &[TableSlot]) -> Result<IndexSet<TableSlot>, AllocError>
    ensures { IfOk result (λ set. SameSlotsOf slots.now set.keys) }
{
    let mut set = IndexSet::with_capacity(alloc, slots.len())?;
    for slot in slots {
        set.insert(*slot)?;
    }
    Ok(set)
}
