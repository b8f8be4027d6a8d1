//! The entries that a slot may have on an entity.
ghost use Rattle.std.specs.Prelude.{◌≡◌, ◌++◌, ◌∷◌, [], map, filter, find, Some, OnOk, option_to_list, ◌&&◌, IsTrue};
ghost use Rattle.std.specs.List.{list_any};
ghost use Rattle.std.specs.Ordering.{is_lt};
ghost use Rattle.eco_ids.specs.Answer.{entries_of, is_least_match, same_filling};
ghost use Rattle.eco_index.specs.Answers.{has_any_part, parts_alike};
ghost use Rattle.eco_ids.specs.Matching.{pattern_matches};
ghost use Rattle.eco_ids.specs.Order.{has_item, id_cmp, is_ascending};
ghost use Rattle.eco_query.specs.Queries.{term_view};

use crate::fillings::add_first_of_each;
use eco_ids::{Entity, Id, Part, Pattern, TypeList};
use eco_query::{Slot, Term};
use std::alloc::AllocError;

// Up to so many ids are compared with one another, which takes no memory.
const FEW_IDS: usize = 12;

// Whether two ids that match fill the `*` parts alike.
pub(crate) fn fills_alike(pattern: Pattern, id: Id, other: Id) -> bool
    ensures { result ≡ same_filling pattern id other }
{
    match (pattern, id, other) {
        (Pattern::Two(first, second), Id::Two(r, t), Id::Two(s, u)) => {
            is_alike(first, r, s) && is_alike(second, t, u)
        }
        _ => true,
    }
}

// Whether two entities stand alike at the part.
fn is_alike(part: Part, entity: Entity, other: Entity) -> bool
    ensures { result ≡ parts_alike part entity other }
{
    match part {
        Part::Each => entity == other,
        Part::Is(_) | Part::Any => true,
    }
}

// Whether it is the least of the ids that match with its filling.
fn is_least(pattern: Pattern, ids: &[Id], id: Id) -> bool
    ensures { result ≡ is_least_match pattern ids.now id }
{
    pattern.matches(id) && !has_less(pattern, ids, id)
}

// Whether an id that matches is below another with its filling.
fn has_less(pattern: Pattern, ids: &[Id], id: Id) -> bool
    ensures { result ≡ list_any
        (λ j. is_lt (id_cmp j id) && (pattern_matches pattern j && same_filling pattern j id)) ids.now }
{
    ids.iter().any(|j| is_less(pattern, *j, id))
}

// Whether an id that matches is below another with its filling.
fn is_less(pattern: Pattern, id: Id, other: Id) -> bool
    ensures { result
        ≡ (is_lt (id_cmp id other) && (pattern_matches pattern id && same_filling pattern id other)) }
{
    id < other && pattern.matches(id) && fills_alike(pattern, id, other)
}

// Puts one more behind others. There is room for it mostly.
#[inline]
pub(crate) fn put(entry: Option<Id>, entries: &mut Vec<Option<Id>>) -> Result<(), AllocError>
    ensures { OnOk result (entries.new.items ≡ entries.old.items ++ entry ∷ []) }
{
    if entries.len() == entries.capacity() {
        entries.reserve(1)?;
    }
    entries.push_reserved(entry);
    Ok(())
}

// Puts the least match of each filling behind other entries. Most queries ask for single ids and for the targets of a
// relationship: each of these has a loop of its own, which the compiler makes for its pattern alone.
#[inline(always)]
fn add_least(pattern: &Pattern, ids: &[Id], entries: &mut Vec<Option<Id>>) -> Result<(), AllocError>
    requires { IsTrue (is_ascending id_cmp ids.now) }
    ensures { OnOk result (entries.new.items
        ≡ entries.old.items ++ map Some (filter (is_least_match pattern.now ids.now) ids.now)) }
{
    match *pattern {
        Pattern::One(entity) => add_matches(Pattern::One(entity), ids, entries),
        Pattern::Two(Part::Is(relationship), Part::Each) => {
            let targets = Pattern::Two(Part::Is(relationship), Part::Each);
            add_matches(targets, ids, entries)
        }
        _ => add_least_of(*pattern, ids, entries),
    }
}

// Puts the least match of each filling of any pattern behind other entries.
#[inline(never)]
fn add_least_of(
    pattern: Pattern,
    ids: &[Id],
    entries: &mut Vec<Option<Id>>,
) -> Result<(), AllocError>
    requires { IsTrue (is_ascending id_cmp ids.now) }
    ensures { OnOk result (entries.new.items
        ≡ entries.old.items ++ map Some (filter (is_least_match pattern ids.now) ids.now)) }
{
    if has_any(pattern) {
        add_least_alike(pattern, ids, entries)
    } else {
        // No two ids fill it alike.
        add_matches(pattern, ids, entries)
    }
}

// Puts the least match of each filling behind other entries, where several may fill the pattern alike.
fn add_least_alike(
    pattern: Pattern,
    ids: &[Id],
    entries: &mut Vec<Option<Id>>,
) -> Result<(), AllocError>
    requires { IsTrue (is_ascending id_cmp ids.now) }
    ensures { OnOk result (entries.new.items
        ≡ entries.old.items ++ map Some (filter (is_least_match pattern ids.now) ids.now)) }
{
    if ids.len() <= FEW_IDS {
        add_least_of_few(pattern, ids, entries)
    } else {
        add_first_of_each(pattern, ids, entries)
    }
}

// Whether a part of the pattern is `_`.
fn has_any(pattern: Pattern) -> bool
    ensures { result ≡ has_any_part pattern }
{
    match pattern {
        Pattern::Two(Part::Any, _) | Pattern::Two(_, Part::Any) => true,
        Pattern::One(_) | Pattern::Two(..) => false,
    }
}

// Puts the ids that match behind other entries.
#[inline(always)]
fn add_matches(
    pattern: Pattern,
    ids: &[Id],
    entries: &mut Vec<Option<Id>>,
) -> Result<(), AllocError>
    ensures { OnOk result (entries.new.items
        ≡ entries.old.items ++ map Some (filter (pattern_matches pattern) ids.now)) }
{
    for id in ids {
        if pattern.matches(*id) {
            put(Some(*id), entries)?;
        }
    }
    Ok(())
}

// Puts the least match of each filling behind other entries: each id is compared with all.
fn add_least_of_few(
    pattern: Pattern,
    ids: &[Id],
    entries: &mut Vec<Option<Id>>,
) -> Result<(), AllocError>
    ensures { OnOk result (entries.new.items
        ≡ entries.old.items ++ map Some (filter (is_least_match pattern ids.now) ids.now)) }
{
    for id in ids {
        if is_least(pattern, ids, *id) {
            entries.push(Some(*id))?;
        }
    }
    Ok(())
}

/// Puts the entries that the slot may have on an entity of this type behind others: none, where the slot doesn't hold.
#[inline(always)]
pub fn add_entries(
    slot: &Slot,
    ids: &TypeList,
    entries: &mut Vec<Option<Id>>,
) -> Result<(), AllocError>
    ensures { OnOk result (entries.new.items
        ≡ entries.old.items ++ entries_of ids.now (term_view slot.now.term)) }
{
    match &slot.term {
        Term::And(pattern) => add_least(pattern, ids.as_slice(), entries)?,
        Term::Not(pattern) => {
            if !has_match(ids.as_slice(), *pattern) {
                entries.push(None)?;
            }
        }
        Term::Optional(id) => entries.push(if ids.has(*id) { Some(*id) } else { None })?,
        Term::Or(alternatives) => add_first(ids, alternatives, entries)?,
    }
    Ok(())
}

// Whether one of the ids matches.
#[inline(never)]
pub(crate) fn has_match(ids: &[Id], pattern: Pattern) -> bool
    ensures { result ≡ list_any (pattern_matches pattern) ids.now }
{
    ids.iter().any(|id| pattern.matches(*id))
}

// Puts the first of the alternatives that the type has behind other entries.
#[inline(never)]
fn add_first(
    ids: &TypeList,
    alternatives: &[Id],
    entries: &mut Vec<Option<Id>>,
) -> Result<(), AllocError>
    ensures { OnOk result (entries.new.items ≡ entries.old.items
        ++ map Some (option_to_list (find (has_item id_cmp ids.now) alternatives.now))) }
{
    if let Some(id) = first_of(ids, alternatives) {
        entries.push(Some(id))?;
    }
    Ok(())
}

// The first of the alternatives that the type has.
pub(crate) fn first_of(ids: &TypeList, alternatives: &[Id]) -> Option<Id>
    ensures { result ≡ find (has_item id_cmp ids.now) alternatives.now }
{
    alternatives.iter().copied().find(|id| ids.has(*id))
}
