//! The index once more.
ghost use Rattle.std.specs.Prelude.{◌≡◌, IfOk};
ghost use Rattle.eco_index.specs.IdIndex.{slots_of, ListsSame};
ghost use Rattle.eco_index.specs.Marks.{AreMarked};

use crate::id_index::IdIndex;
use crate::id_index::key::Key;
use crate::id_index::marks::Marks;
use crate::id_index::slots::Slots;
use crate::seed::Seed;
use indexmap::IndexMap;
use std::alloc::{AllocError, Global};

impl Clone for Slots {
    ghost is_clone = { λ s copy. slots_of copy ≡ slots_of s };

    fn clone(&self) -> Result<Slots, AllocError> {
        match self {
            Slots::One(slot) => Ok(Slots::One(*slot)),
            Slots::Close(slots) => Ok(Slots::Close(slots.clone()?)),
            Slots::Many(slots) => Ok(Slots::Many(slots.clone()?)),
        }
    }
}

impl IdIndex {
    ghost use Rattle.eco_index.specs.Contents.{lists_in};

    /// The same slots once more, listed under the same patterns. An `Err` comes where memory is refused.
    pub fn try_copy(&self, alloc: Global) -> Result<IdIndex, AllocError>
        ensures { IfOk result (λ i. ListsSame (lists_in self.now) (lists_in i)) }
    {
        let slots = self.slots.clone()?;
        let marks = marks_of(alloc, &slots)?;
        Ok(IdIndex { slots, marks })
    }
}

// Marks for the keys that are kept, and not for those that went.
fn marks_of(alloc: Global, slots: &IndexMap<Key, Slots, Seed>) -> Result<Marks, AllocError>
    ensures { IfOk result (λ marks. AreMarked marks slots.now) }
{
    let mut marks = Marks::new(alloc);
    for place in 0..slots.len() {
        let (key, _) = slots.get_index(place).unwrap();
        marks.note(*key, place)?;
    }
    Ok(marks)
}
