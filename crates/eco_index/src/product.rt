//! All choices of entries that a query has on the entities of one type.
ghost use Rattle.std.specs.Prelude.{◌≡◌, ◌≢◌, ◌∷◌, [], length, IfOk, IsFalse, IsTrue};
ghost use Rattle.eco_ids.specs.Answer as definitions;
ghost use Rattle.eco_query.specs.Queries.{term_view};
ghost use Rattle.eco_index.specs.Answers.{asks};

use crate::choices::Choices;
use crate::entries::add_entries;
use crate::single::add_only;
use eco_ids::{Id, TypeList};
use eco_query::Slot;
use std::alloc::{AllocError, Global};

// The entries that the slot may have.
fn own_entries(alloc: Global, slot: &Slot, ids: &TypeList) -> Result<Vec<Option<Id>>, AllocError>
    ensures { IfOk result (λ own. own.items ≡ definitions.entries_of ids.now (term_view slot.now.term)) }
{
    let mut own = Vec::new(alloc);
    add_entries(slot, ids, &mut own)?;
    Ok(own)
}

/// Each choice of one entry for each slot, in the order of the slots. They are made from the last slot to the first, so
/// that none is made twice. Where all slots hold, no list on the way is longer than what is answered.
pub fn choices_of(alloc: Global, slots: &[Slot], ids: &TypeList) -> Result<Choices, AllocError>
    ensures { IfOk result (λ c.
        c ≡ record { width = length slots.now; all = definitions.choices ids.now (asks slots.now) }) }
{
    if slots.is_empty() {
        return Ok(Choices::one(alloc));
    }
    let mut left = slots.len() - 1;
    let mut choices = Choices::each(own_entries(alloc, &slots[left], ids)?);
    while left > 0 {
        left -= 1;
        let own = own_entries(alloc, &slots[left], ids)?;
        choices = choices.led_by(alloc, &own, slots.len() - left)?;
    }
    Ok(choices)
}

/// Whether each slot may have just one entry. Then these are the one choice, and the buffer has them from then on, whatever
/// it had. Else there is no choice, or there are several.
pub fn find_only(
    slots: &[Slot],
    ids: &TypeList,
    buffer: &mut Vec<Option<Id>>,
) -> Result<bool, AllocError>
    ensures only { IfOk result (λ is. IsTrue is →
        definitions.choices ids.now (asks slots.now) ≡ buffer.new.items ∷ []) }
    ensures long { IfOk result (λ is. IsTrue is → length buffer.new.items ≡ length slots.now) }
    ensures several { IfOk result (λ is. IsFalse is →
        length (definitions.choices ids.now (asks slots.now)) ≢ 1) }
{
    buffer.clear();
    add_only(slots, ids, buffer)
}
