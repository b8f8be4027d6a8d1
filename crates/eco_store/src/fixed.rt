//! The one choice of entries that some slots have wherever they hold, where it is the same everywhere.
ghost use Rattle.std.specs.Prelude.{◌≡◌, IfOk, IfSome};
ghost use Rattle.eco_store.specs.Answers.{asks};
ghost use Rattle.eco_store.specs.Fixed.{AreFixed, IsFixed};
ghost use Rattle.eco_query.specs.Queries.{exactly, term_view};

use eco_ids::{Id, Part, Pattern};
use eco_query::{Slot, Term};
use smallvec::SmallVec;
use std::alloc::{AllocError, Global};

// The only id that a pattern matches: none, where it may match several.
fn exact_id(pattern: Pattern) -> Option<Id>
    ensures { IfSome result (λ i. pattern ≡ exactly i) }
{
    match pattern {
        Pattern::One(entity) => Some(Id::One(entity)),
        Pattern::Two(Part::Is(relationship), Part::Is(target)) => {
            Some(Id::Two(relationship, target))
        }
        Pattern::Two(..) => None,
    }
}

// The entry that a slot has on each type on which it holds, where it is the same on all.
#[tactic(auto, using(crate::proofs::FixedEntries::not_fixed))]
fn fixed_entry(slot: &Slot) -> Option<Option<Id>>
    ensures { IfSome result (IsFixed (term_view slot.now.term)) }
{
    match &slot.term {
        Term::And(pattern) => match exact_id(*pattern) {
            Some(id) => Some(Some(id)),
            None => None,
        },
        Term::Not(_) => Some(None),
        Term::Optional(_) | Term::Or(_) => None,
    }
}

// So many entries are kept without memory: most queries have no more slots, and what is larger takes longer to move.
const INLINE_ENTRIES: usize = 2;

/// An entry for each of some slots, which takes memory only where there are more than two.
pub type FixedChoice = SmallVec<Option<Id>, INLINE_ENTRIES>;

/// The entries that the slots have on each type on which they hold, where they are the same on all.
pub fn fixed_choice(alloc: Global, slots: &[Slot]) -> Result<Option<FixedChoice>, AllocError>
    ensures { IfOk result (λ o. IfSome o (λ c. AreFixed (asks slots.now) c.items)) }
{
    let mut choice = SmallVec::new(alloc);
    for slot in slots {
        let Some(entry) = fixed_entry(slot) else {
            return Ok(None);
        };
        choice.push(entry)?;
    }
    Ok(Some(choice))
}
