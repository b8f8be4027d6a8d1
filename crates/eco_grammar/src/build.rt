//! From the atoms of a text to its query.
ghost use Rattle.std.specs.Prelude.{◌≡◌, ◌⊎◌, ◌≤◌, [], ◌∷◌, ◌++◌, Err, IfErr, IsOk, IsTrue, OnOk, map};
ghost use Rattle.std.specs.List.{list_any};
ghost use Rattle.eco_grammar.specs.Readings as reading;
ghost use Rattle.eco_query.specs.Queries.{slot_view};
ghost use Rattle.eco_grammar.specs.Readings.{InMemory, is_positive_body, query_of, slots_of_written};
ghost use Rattle.eco_grammar.specs.LastTerms.{IsLast, ends_positive, left_over, term_with};
ghost use Rattle.eco_scan.specs.Marks.{AreWhole, slots_from};
ghost use Rattle.eco_grammar.specs.Proper.{AreProperMarks};
ghost use Rattle.eco_scan.specs.Grammar.{count_atoms};

use crate::last_term::{LastTerm, last_term, misplaces_last};
use crate::names::Names;
use crate::range::id_is_in_range;
use crate::resolve::id_of_atom;
use eco_ids::{Id, Refusal};
use eco_query::{Access, Query, Slot};
use eco_scan::{Head, Mark};
use std::alloc::Global;

/// Whether a wildcard stands where none may stand: as a single id, behind `?` or among alternatives.
fn misplaces_wildcard(marks: &[Mark<'_>]) -> bool
    requires { AreWhole marks.now }
    ensures { result ≡ list_any reading.misplaces_wildcard (slots_from [] marks.now) }
{
    let mut grouped = false;
    for mark in marks {
        match *mark {
            Mark::Same => {}
            Mark::Begin => {}
            Mark::Other(_, atom) => {
                if atom.has_wildcard() {
                    return true;
                }
                grouped = true;
            }
            Mark::Slot(_, head, atom) => {
                if misplaces_last(head, grouped, atom) {
                    return true;
                }
                grouped = false;
            }
        }
    }
    false
}

/// Whether an atom ends a slot that asks for something that is there.
fn asks(mark: Mark<'_>) -> bool
    ensures { result ≡ ends_positive mark.entry }
{
    match mark {
        Mark::Slot(_, head, _) => match head {
            Head::Plain | Head::Alone => true,
            Head::Not | Head::Optional => false,
        },
        _ => false,
    }
}

/// Whether some slot asks for something that is there.
#[tactic(auto, using(crate::proofs::Built::positive_found, crate::proofs::Built::positive_none))]
fn has_positive(marks: &[Mark<'_>]) -> bool
    ensures { result ≡ list_any (λ s. is_positive_body s.body) (slots_from [] marks.now) }
{
    for mark in marks {
        if asks(*mark) {
            return true;
        }
    }
    false
}

/// Looks up all names, in order, without memory.
fn check_names<N: Names>(marks: &[Mark<'_>], names: &N) -> Result<(), Refusal>
    requires whole { AreWhole marks.now }
    requires proper { AreProperMarks marks.now }
    ensures known { OnOk result (IsOk
        (slots_of_written (N.entity_named names.now) (slots_from [] marks.now))) }
    ensures unknown { IfErr result (λ e. slots_of_written (N.entity_named names.now) (slots_from [] marks.now)
        ≡ Err e) }
{
    let mut grouped = false;
    for mark in marks {
        match *mark {
            Mark::Same => {}
            Mark::Begin => {}
            Mark::Other(_, atom) => {
                id_of_atom(atom, names)?;
                grouped = true;
            }
            Mark::Slot(_, head, atom) => {
                last_term(head, grouped, atom, names)?;
                grouped = false;
            }
        }
    }
    Ok(())
}

/// Puts the slot that its last atom and the alternatives before make behind others. What it makes is in range.
fn add_slot(
    slots: &mut Vec<Slot>,
    group: &mut Vec<Id>,
    access: Access,
    last: LastTerm,
    alloc: Global,
) -> Result<(), Refusal>
    ensures range { IsLast last }
    ensures added { OnOk result (map slot_view slots.new.items
        ≡ map slot_view slots.old.items
        ++ record { access = access; term = term_with group.old.items last } ∷ []) }
    ensures left { OnOk result (group.new.items ≡ left_over group.old.items last) }
    ensures memory { IfErr result (λ e. e ≡ Refusal.OutOfMemory) }
{
    last.is_in_range();
    let term = last.into_term(alloc, group)?;
    slots.push(Slot { access, term })?;
    Ok(())
}

/// Makes the query.
fn build_query<N: Names>(alloc: Global, marks: &[Mark<'_>], names: &N) -> Result<Query, Refusal>
    requires whole { AreWhole marks.now }
    requires proper { AreProperMarks marks.now }
    requires few { count_atoms (slots_from [] marks.now) ≤ 32 }
    requires positive { IsTrue (list_any (λ s. is_positive_body s.body) (slots_from [] marks.now)) }
    ensures { (result ≡ Err Refusal.OutOfMemory)
        ⊎ (result ≡ slots_of_written (N.entity_named names.now) (slots_from [] marks.now)) }
{
    let mut slots = Vec::new(alloc);
    let mut group = Vec::new(alloc);
    let mut grouped = false;
    for mark in marks {
        match *mark {
            Mark::Same => {}
            Mark::Begin => {}
            Mark::Other(_, atom) => {
                let id = id_of_atom(atom, names)?;
                id_is_in_range(id);
                group.push(id)?;
                grouped = true;
            }
            Mark::Slot(access, head, atom) => {
                let last = last_term(head, grouped, atom, names)?;
                add_slot(&mut slots, &mut group, access, last, alloc)?;
                grouped = false;
            }
        }
    }
    Ok(Query::of_slots(slots))
}

/// The query of the atoms of a text, or the first refusal that holds: a wildcard where none may stand, nothing that a slot
/// asks for, an unknown name; then that memory for it is wanting.
pub fn query_from<N: Names>(alloc: Global, marks: &[Mark<'_>], names: &N) -> Result<Query, Refusal>
    requires whole { AreWhole marks.now }
    requires proper { AreProperMarks marks.now }
    requires few { count_atoms (slots_from [] marks.now) ≤ 32 }
    ensures { InMemory (query_of (N.entity_named names.now) (slots_from [] marks.now)) result }
{
    if misplaces_wildcard(marks) {
        return Err(Refusal::WildcardHere);
    }
    if !has_positive(marks) {
        return Err(Refusal::NoPositive);
    }
    check_names(marks, names)?;
    build_query(alloc, marks, names)
}
