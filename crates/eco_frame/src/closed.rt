//! The closed writes of a system.
ghost use Rattle.std.specs.Prelude.{◌≡◌, ◌↔◌, ◌++◌, ◌≤◌, List, length, map, take, IfNone, IfOk, IfSome, IsTrue, OnOk};
ghost use Rattle.std.specs.List.{IsDistinct, list_any};
ghost use Rattle.indexmap.specs.IndexSet.{insert_all, insert_key};
ghost use Rattle.eco_ids.specs.declared.pattern.Pattern.{Pattern as PatternData};
ghost use Rattle.eco_ids.specs.World.{is_widened};
ghost use Rattle.eco_systems.specs.Closing.{ListsClosed};
ghost use Rattle.eco_systems.specs.Writes as writes;
ghost use Rattle.eco_frame.specs.Brought.{pattern_key, unrepeated, key_pattern, same_pattern};
ghost use Rattle.eco_frame.specs.Outlines.{ListsFew};

use crate::brought::{bring_nothing, closure};
use crate::key::Key;
use eco_ids::entity::{EXCLUSIVE, SYMMETRIC};
use eco_ids::{Entity, Id, Part, Pattern};
use eco_traits::{Holdings, has};
use indexmap::IndexSet;
use std::alloc::{AllocError, Global};

// So many patterns are compared with each other, which takes no memory.
const FEW: usize = 8;

// What is done to one pair of the relationship may touch others of its pairs.
fn is_widened<H: Holdings>(holdings: &H, relationship: Entity) -> bool
    ensures { result ≡ is_widened (H.world holdings.now) relationship }
{
    (holdings.edition().has_symmetric() && has(holdings, relationship, Id::One(SYMMETRIC)))
        || has(holdings, relationship, Id::One(EXCLUSIVE))
}

// Pairs of an exclusive or symmetric relationship become all its pairs.
#[inline]
fn widened<H: Holdings>(holdings: &H, pattern: Pattern) -> Pattern
    ensures { result ≡ writes.widened (H.world holdings.now) pattern }
{
    match pattern {
        Pattern::Two(Part::Is(relationship), _) if is_widened(holdings, relationship) => {
            Pattern::Two(Part::Is(relationship), Part::Each)
        }
        _ => pattern,
    }
}

fn stands_in(patterns: &[Pattern], pattern: Pattern) -> bool
    ensures { result ≡ list_any (same_pattern pattern) patterns.now }
{
    patterns.iter().any(|other| pattern == *other)
}

// Puts a pattern behind others, unless it stands there.
fn add_once(pattern: Pattern, closed: &mut Vec<Pattern>) -> Result<(), AllocError>
    ensures { OnOk result (closed.new.items ≡ insert_key same_pattern closed.old.items pattern) }
{
    if stands_in(closed, pattern) {
        return Ok(());
    }
    closed.push(pattern)?;
    Ok(())
}

// Widens a few patterns, and puts each once behind others.
fn add_few<H: Holdings>(
    holdings: &H,
    patterns: &[Pattern],
    closed: &mut Vec<Pattern>,
) -> Result<(), AllocError>
    ensures { OnOk result (closed.new.items
        ≡ insert_all same_pattern closed.old.items
        (map (writes.widened (H.world holdings.now)) patterns.now)) }
{
    for pattern in patterns {
        add_once(widened(holdings, *pattern), closed)?;
    }
    Ok(())
}

// How many of the closed patterns are found with one more pattern, where the first so many were found before: none, where it is
// neither among these nor the next.
fn found_with(closed: &[Pattern], found: usize, pattern: Pattern) -> Option<usize>
    requires { found ≤ length closed.now }
    ensures some { IfSome result (λ n. (n ≤ length closed.now)
        × (take n closed.now ≡ insert_key same_pattern (take found closed.now) pattern)) }
    ensures none { IfNone result ((rest : List PatternData) → closed.now
        ≡ insert_key same_pattern (take found closed.now) pattern ++ rest → ⊥) }
{
    if stands_in(&closed[..found], pattern) {
        return Some(found);
    }
    match closed.get(found) {
        Some(next) if pattern == *next => Some(found + 1),
        _ => None,
    }
}

// Whether a few patterns, widened, each once, are those closed as they stand.
fn are_widened<H: Holdings>(holdings: &H, patterns: &[Pattern], closed: &[Pattern]) -> bool
    ensures { IsTrue result
        ↔ (closed.now ≡ unrepeated (map (writes.widened (H.world holdings.now)) patterns.now)) }
{
    let mut found = 0;
    for pattern in patterns {
        match found_with(closed, found, widened(holdings, *pattern)) {
            Some(more) => found = more,
            None => return false,
        }
    }
    found == closed.len()
}

/// Whether the list is known to be that of the closed writes of some patterns, as it was made before. It takes no memory, and
/// mostly less time than to list them anew; that of patterns that bring others is not known.
pub(crate) fn is_closed<H: Holdings>(holdings: &H, writes: &[Pattern], closed: &[Pattern]) -> bool
    ensures { IsTrue result ↔ ListsFew (H.world holdings.now) writes.now closed.now }
{
    if writes.len() > FEW {
        return false;
    }
    bring_nothing(holdings, writes) && are_widened(holdings, writes, closed)
}

// Widens any number of patterns: each comes once.
fn widened_once<H: Holdings>(
    alloc: Global,
    holdings: &H,
    keys: &[Key],
) -> Result<IndexSet<Key>, AllocError>
    ensures { IfOk result (λ all. map key_pattern all.keys
        ≡ unrepeated (map (writes.widened (H.world holdings.now)) (map key_pattern keys.now))) }
{
    let mut all = IndexSet::new(alloc);
    for key in keys {
        all.insert(Key {
            pattern: widened(holdings, key.pattern),
        })?;
    }
    Ok(all)
}

// Puts patterns behind others.
fn append(keys: &[Key], closed: &mut Vec<Pattern>) -> Result<(), AllocError>
    ensures { OnOk result (closed.new.items ≡ closed.old.items ++ map key_pattern keys.now) }
{
    for key in keys {
        closed.push(key.pattern)?;
    }
    Ok(())
}

/// Lists the closed writes of some patterns in the place of whatever the list has: the patterns with all that they bring by With
/// (Flecs manual, Component Traits, "With"), pairs of an exclusive or symmetric relationship widened to all its pairs. Each comes
/// once, in no order. `AllocError` comes where memory for them is refused.
pub(crate) fn list_closed<H: Holdings>(
    alloc: Global,
    holdings: &H,
    writes: &[Pattern],
    closed: &mut Vec<Pattern>,
) -> Result<(), AllocError>
    ensures closed { OnOk result (ListsClosed (H.world holdings.now) writes.now closed.new.items) }
    ensures once { OnOk result (IsDistinct same_pattern closed.new.items) }
{
    closed.clear();
    if writes.len() <= FEW && bring_nothing(holdings, writes) {
        return add_few(holdings, writes, closed);
    }
    let all = closure(alloc, holdings, writes)?;
    let widened = widened_once(alloc, holdings, all.as_slice())?;
    append(widened.as_slice(), closed)
}
