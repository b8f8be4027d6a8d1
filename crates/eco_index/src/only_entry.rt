//! The entry that a slot may have on an entity, where it is the only one.
ghost use Rattle.std.specs.Prelude.{◌≡◌, ◌≢◌, ◌∷◌, [], filter, length, option_map, IfNone, IfSome, IsTrue, Some};
ghost use Rattle.eco_ids.specs.Answer.{entries_of, is_least_match};
ghost use Rattle.eco_ids.specs.Order.{id_cmp, is_ascending};
ghost use Rattle.eco_query.specs.Queries.{term_view};
ghost use Rattle.eco_index.specs.First.{IsNext, IsOther};

use crate::entries::{fills_alike, first_of, has_match};
use eco_ids::{Id, Part, Pattern, TypeList};
use eco_query::{Slot, Term};

/// The entry that the slot may have on an entity of this type, where it is the only one. None, where it has none or several. It
/// takes no memory.
#[inline(always)]
pub(crate) fn only_entry(slot: &Slot, ids: &TypeList) -> Option<Option<Id>>
    ensures one { IfSome result (λ e. entries_of ids.now (term_view slot.now.term) ≡ e ∷ []) }
    ensures several { IfNone result (length (entries_of ids.now (term_view slot.now.term)) ≢ 1) }
{
    match &slot.term {
        Term::And(pattern) => some_entry(only_match(pattern, ids.as_slice())),
        Term::Not(pattern) => {
            if has_match(ids.as_slice(), *pattern) {
                None
            } else {
                Some(None)
            }
        }
        Term::Optional(id) => Some(if ids.has(*id) { Some(*id) } else { None }),
        Term::Or(alternatives) => some_entry(first_of(ids, alternatives)),
    }
}

// The id as an entry, where there is one.
#[inline(always)]
fn some_entry(id: Option<Id>) -> Option<Option<Id>>
    ensures { result ≡ option_map Some id }
{
    match id {
        Some(id) => Some(Some(id)),
        None => None,
    }
}

// The least match, where all that match fill the pattern as it does; else none. Most queries ask for single ids and for the
// targets of a relationship: each of these has a loop of its own, which the compiler makes for its pattern alone.
#[inline(always)]
fn only_match(pattern: &Pattern, ids: &[Id]) -> Option<Id>
    requires { IsTrue (is_ascending id_cmp ids.now) }
    ensures one { IfSome result (λ i. filter (is_least_match pattern.now ids.now) ids.now ≡ i ∷ []) }
    ensures several { IfNone result (length (filter (is_least_match pattern.now ids.now) ids.now) ≢ 1) }
{
    match *pattern {
        Pattern::One(entity) => only_match_of(Pattern::One(entity), ids),
        Pattern::Two(Part::Is(relationship), Part::Each) => {
            only_match_of(Pattern::Two(Part::Is(relationship), Part::Each), ids)
        }
        _ => only_match_of_any(*pattern, ids),
    }
}

// The same of any pattern.
#[inline(never)]
fn only_match_of_any(pattern: Pattern, ids: &[Id]) -> Option<Id>
    requires { IsTrue (is_ascending id_cmp ids.now) }
    ensures one { IfSome result (λ i. filter (is_least_match pattern ids.now) ids.now ≡ i ∷ []) }
    ensures several { IfNone result (length (filter (is_least_match pattern ids.now) ids.now) ≢ 1) }
{
    only_match_of(pattern, ids)
}

// The loop over the ids. It is a part of each of its two callers, so that the compiler makes it anew for what is known of the
// pattern there.
#[inline(always)]
fn only_match_of(pattern: Pattern, ids: &[Id]) -> Option<Id>
    requires { IsTrue (is_ascending id_cmp ids.now) }
    ensures one { IfSome result (λ i. filter (is_least_match pattern ids.now) ids.now ≡ i ∷ []) }
    ensures several { IfNone result (length (filter (is_least_match pattern ids.now) ids.now) ≢ 1) }
{
    let mut first = None;
    for id in ids {
        first = with_next(pattern, first, *id)?;
    }
    first
}

// The first match among some ids and one more, where the one fills the pattern as it does. None, where the one matches and does
// not.
#[inline(always)]
fn with_next(pattern: Pattern, first: Option<Id>, id: Id) -> Option<Option<Id>>
    ensures next { IfSome result (IsNext pattern id first) }
    ensures other { IfNone result (IsOther pattern id first) }
{
    if !pattern.matches(id) {
        return Some(first);
    }
    match first {
        None => Some(Some(id)),
        Some(own) => {
            if fills_alike(pattern, own, id) {
                Some(first)
            } else {
                None
            }
        }
    }
}
