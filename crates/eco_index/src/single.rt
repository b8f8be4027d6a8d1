//! The one choice of a type, where each slot may have just one entry.
ghost use Rattle.std.specs.Prelude.{◌≡◌, ◌∷◌, ◌++◌, ◌+◌, ◌≢◌, [], length, map, IfOk, IsFalse, IsTrue};
ghost use Rattle.eco_ids.specs.Answer as definitions;
ghost use Rattle.eco_index.specs.Answers.{asks};

use crate::entries::put;
use crate::only_entry::only_entry;
use eco_ids::{Id, TypeList};
use eco_query::Slot;
use std::alloc::AllocError;

/// Whether each slot may have just one entry. Then these are the one choice, and stand behind the entries that were there. Else
/// there is no choice, or there are several.
#[inline(always)]
pub fn add_only(
    slots: &[Slot],
    ids: &TypeList,
    entries: &mut Vec<Option<Id>>,
) -> Result<bool, AllocError>
    ensures only { IfOk result (λ is. IsTrue is →
        map (λ c. entries.old.items ++ c) (definitions.choices ids.now (asks slots.now))
        ≡ entries.new.items ∷ []) }
    ensures long { IfOk result (λ is. IsTrue is →
        length entries.new.items ≡ length entries.old.items + length slots.now) }
    ensures several { IfOk result (λ is. IsFalse is →
        length (definitions.choices ids.now (asks slots.now)) ≢ 1) }
{
    for place in 0..slots.len() {
        let Some(entry) = only_entry(&slots[place], ids) else {
            return Ok(false);
        };
        put(entry, entries)?;
    }
    Ok(true)
}
