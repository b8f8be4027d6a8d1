//! A query is a test of types.
ghost use Rattle.std.specs.Prelude.{◌≡◌, ◌<◌, ◌^◌, filter, length, slice_get, Some};
ghost use Rattle.std.specs.Option.{option_copied};
ghost use Rattle.eco_index.specs.TypeTests.{group_at};
ghost use Rattle.eco_store.specs.Answers.{asks};
ghost use Rattle.eco_store.specs.Groups.{groups_of, number_after, others_hold};
ghost use Rattle.eco_query.specs.Queries.{is_positive, patterns_of, term_view};

use eco_archetypes::TypeTest;
use eco_ids::{Pattern, TypeList};
use eco_query::{Query, Slot, Term, exactly};

/// Which types fulfil all slots of a query. Each slot that asks for something to be there, a plain term or a group, makes
/// a group of patterns. Where the store keeps the query at hand, `cache` is the number that it gave, and no table is
/// searched for.
#[derive(Clone, Copy, Debug)]
pub struct Asking<'a> {
    pub query: &'a Query,
    pub cache: Option<usize>,
}

// Whether the slot asks for something to be there.
fn is_positive(slot: &Slot) -> bool
    ensures { result ≡ is_positive (term_view slot.now.term) }
{
    match &slot.term {
        Term::And(_) | Term::Or(_) => true,
        Term::Not(_) | Term::Optional(_) => false,
    }
}

// How many slots do.
fn positive_count(slots: &[Slot]) -> usize
    ensures { result ≡ length (filter (λ s. is_positive (term_view s.term)) slots.now) }
{
    slots.iter().filter(|slot| is_positive(*slot)).count()
}

// One of those that do.
fn positive_at(slots: &[Slot], group: usize) -> Option<&Slot>
    ensures { option_copied result
        ≡ slice_get (filter (λ s. is_positive (term_view s.term)) slots.now) group }
{
    slots.iter().filter(|slot| is_positive(*slot)).nth(group)
}

// How many patterns a slot reads.
fn pattern_count(slot: &Slot) -> usize
    ensures { result ≡ length (patterns_of (term_view slot.now.term)) }
{
    match &slot.term {
        Term::And(_) | Term::Not(_) | Term::Optional(_) => 1,
        Term::Or(alternatives) => alternatives.len(),
    }
}

// The pattern at a place among those that a slot reads.
fn pattern_at(slot: &Slot, place: usize) -> Pattern
    requires { place < length (patterns_of (term_view slot.now.term)) }
    ensures { slice_get (patterns_of (term_view slot.now.term)) place ≡ Some result }
{
    match &slot.term {
        Term::And(pattern) | Term::Not(pattern) => *pattern,
        Term::Optional(id) => exactly(*id),
        Term::Or(alternatives) => exactly(alternatives[place]),
    }
}

// How many slots that ask for something to be there have come, with this one.
fn number_after(before: usize, slot: &Slot) -> usize
    requires { before < 2 ^ 63 }
    ensures { result ≡ number_after before (term_view slot.now.term) }
{
    if is_positive(slot) {
        before + 1
    } else {
        before
    }
}

// Whether each slot holds on an entity of this type, but for the one that makes the group.
fn others_hold(slots: &[Slot], group: usize, ids: &TypeList) -> bool
    ensures { result ≡ others_hold ids.now (asks slots.now) 0 group }
{
    let mut before = 0;
    for slot in slots {
        let is_own = before == group && is_positive(slot);
        if !is_own && !slot.holds(ids) {
            return false;
        }
        before = number_after(before, slot);
    }
    true
}

impl<'a> Asking<'a> {
    // The slot that makes a group.
    fn slot_of(&self, group: usize) -> &Slot
        requires { group < length (groups_of self.now.query.now) }
        ensures { group_at (groups_of self.now.query.now) group ≡ patterns_of (term_view result.now.term) }
    {
        positive_at(self.query.slots(), group).unwrap()
    }
}

impl<'a> TypeTest for Asking<'a> {
    ghost use Rattle.eco_store.specs.Groups.{groups_of};
    ghost use Rattle.eco_query.specs.Queries.{matches_type};

    ghost test = { λ a ids. matches_type ids a.query.now };

    ghost groups = { λ a. groups_of a.query.now };

    fn group_count(&self) -> usize {
        self.query.is_positive();
        positive_count(self.query.slots())
    }

    fn pattern_count(&self, group: usize) -> usize {
        pattern_count(self.slot_of(group))
    }

    fn pattern(&self, group: usize, place: usize) -> Pattern {
        pattern_at(self.slot_of(group), place)
    }

    fn passes(&self, type_list: &TypeList) -> bool {
        self.query.matches_type(type_list)
    }

    fn passes_found(&self, group: usize, type_list: &TypeList) -> bool {
        // The slot that makes the group holds where one of its patterns matches an id.
        others_hold(self.query.slots(), group, type_list)
    }

    fn cached(&self) -> Option<(usize, &Query)> {
        match self.cache {
            Some(cache) => Some((cache, self.query)),
            None => None,
        }
    }
}
