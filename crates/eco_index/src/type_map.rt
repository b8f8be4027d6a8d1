//! Which slots have the tables whose types have a fingerprint.
ghost use Rattle.std.specs.Prelude.{◌≡◌, ℕ, false, true, not, ◌&&◌, nat_eq, IfOk, OnOk, OnErr};
ghost use Rattle.std.specs.List.{list_any};
ghost use Rattle.eco_index.specs.IdIndex.{ListsNone, ListsSame, Turns};
ghost use Rattle.eco_index.specs.Sweeping.{KeepsListed};
ghost use Rattle.eco_index.specs.TypeMap.{is_but};

use crate::id_index::slots::Slots;
use crate::occupancy::Occupancy;
use crate::seed::Seed;
use eco_ids::TableSlot;
use indexmap::IndexMap;
use std::alloc::{AllocError, Global};

/// From the fingerprint of a type to the slots of the tables whose types have it: mostly one, and whoever looks for a type
/// compares the ids with those of the table. No model: contracts see the lists, as `slots_by_mark`. A fingerprint under which
/// no slot is listed is not kept.
#[derive(Drop)]
pub struct TypeMap {
    slots: IndexMap<u64, Slots, Seed>,
}

impl TypeMap {
    ghost use Rattle.eco_index.specs.Contents.{slots_by_mark};

    /// No slot is listed. Fingerprints are hashed with this seed.
    pub fn new(alloc: Global, seed: Seed) -> TypeMap
        ensures { ListsNone (slots_by_mark result) }
    {
        TypeMap {
            slots: IndexMap::with_hasher(alloc, seed),
        }
    }

    /// The slots that are listed under the fingerprint.
    #[inline]
    pub fn slots(&self, mark: u64) -> &[TableSlot]
        ensures { (n : ℕ) → list_any (nat_eq n) result.now ≡ slots_by_mark self.now mark n }
    {
        match self.slots.get(&mark) {
            Some(slots) => slots.as_slice(),
            None => &[],
        }
    }

    /// Lists the slot under the fingerprint. An `Err` comes where memory is refused, and changes nothing that is listed.
    pub fn add(&mut self, alloc: Global, mark: u64, slot: TableSlot) -> Result<(), AllocError>
        ensures ok { OnOk result
            (Turns true (nat_eq mark) (slots_by_mark self.old) (slots_by_mark self.new) slot) }
        ensures err { OnErr result (ListsSame (slots_by_mark self.old) (slots_by_mark self.new)) }
    {
        match self.slots.get_mut(&mark) {
            Some(own) => {
                own.add(alloc, slot)?;
            }
            None => {
                self.slots.insert(mark, Slots::One(slot))?;
            }
        }
        Ok(())
    }

    /// Takes the slot off the list of the fingerprint, and with the last one the list. It takes no memory.
    pub fn take(&mut self, mark: u64, slot: TableSlot)
        ensures { Turns false (nat_eq mark) (slots_by_mark self.old) (slots_by_mark self.new) slot }
    {
        let Some(own) = self.slots.get(&mark) else {
            return;
        };
        if own.is_only(slot) {
            self.slots.swap_remove(&mark);
        } else if let Some(own) = self.slots.get_mut(&mark) {
            own.take(slot);
        }
    }

    /// Takes the slot off the list of the fingerprint, unless that is this other one. It takes no memory.
    pub fn leave(&mut self, mark: u64, other: u64, slot: TableSlot)
        ensures { Turns false (is_but mark other) (slots_by_mark self.old) (slots_by_mark self.new) slot }
    {
        if mark != other {
            self.take(mark, slot);
        }
    }

    /// The slots without a table go off all lists. It takes no memory.
    pub fn keep_there<T: Occupancy>(&mut self, tables: &T)
        ensures { KeepsListed (T.has_table tables.now) (slots_by_mark self.old) (slots_by_mark self.new) }
    {
        // No two fingerprints are equal, as the length says.
        let _count = self.slots.len();
        self.slots.retain(|_, slots| slots.keep_there(tables));
    }

    /// The same slots once more, listed under the same fingerprints. An `Err` comes where memory is refused.
    pub fn try_copy(&self) -> Result<TypeMap, AllocError>
        ensures { IfOk result (λ t. ListsSame (slots_by_mark self.now) (slots_by_mark t)) }
    {
        Ok(TypeMap {
            slots: self.slots.clone()?,
        })
    }
}
