//! What patterns bring with them.
ghost use Rattle.std.specs.Prelude.{◌≡◌, ◌++◌, ◌↔◌, flat_map, map, option_to_list, IfOk, IsFalse, IsTrue, OnOk};
ghost use Rattle.std.specs.List.{AllByRecursion};
ghost use Rattle.eco_ids.specs.declared.pattern.Pattern.{Pattern as PatternData};
ghost use Rattle.eco_ids.specs.Least.{SomeOf};
ghost use Rattle.eco_systems.specs.Closing.{pattern_head, pattern_with_head};
ghost use Rattle.eco_systems.specs.Writes.{BringsPattern};
ghost use Rattle.eco_frame.specs.Brought as spec;
ghost use Rattle.eco_frame.specs.Brought.{AreClosed, BringsNothing, HasKnownTarget, brought_by, pattern_key, known_keys, key_pattern};
ghost use Rattle.eco_frame.specs.KeyLaws.{same_keys};

use crate::key::Key;
use eco_ids::entity::WITH;
use eco_ids::id::any_with;
use eco_ids::{Entity, Id, Part, Pattern};
use eco_search::{Graph, least_set};
use eco_traits::Holdings;
use indexmap::IndexSet;
use std::alloc::{AllocError, Global};

// Each pattern leads to those that it brings by a pair of With.
#[derive(Drop)]
struct Brought<'a, H> {
    holdings: &'a H,
}

impl<H: Holdings> Graph for Brought<'_, H> {
    type Node = Key;

    ghost nodes = { λ b. known_keys (H.world b.holdings.now) };

    ghost leads = { λ b p q. BringsPattern (H.world b.holdings.now) p.pattern q.pattern };

    fn append_next(&self, key: Key, found: &mut Vec<Key>) -> Result<(), AllocError> {
        eco_systems::laws::heads_bring_patterns();
        target_is_known(key.pattern);
        append_brought(key.pattern, ids_of_head(self.holdings, key.pattern), found)
    }

    ghost same = { same_keys };
}

// The numbers of a target are in range: so there is an end to the patterns that a search may find.
fn target_is_known(pattern: Pattern)
    ensures { HasKnownTarget pattern }
{
    if let Pattern::Two(_, Part::Is(target)) = pattern {
        let Entity {
            index: _,
            generation: _,
        } = target;
    }
}

// The entity whose pairs of With say what the pattern brings. Pairs of any relationship have none.
fn head_of(pattern: Pattern) -> Option<Entity>
    ensures { result ≡ pattern_head pattern }
{
    match pattern {
        Pattern::One(head) | Pattern::Two(Part::Is(head), _) => Some(head),
        Pattern::Two(Part::Each | Part::Any, _) => None,
    }
}

// The pattern with another head: the single, or the relationship of the pairs.
fn with_head(pattern: Pattern, head: Entity) -> Pattern
    ensures { result ≡ pattern_with_head pattern head }
{
    match pattern {
        Pattern::One(_) => Pattern::One(head),
        Pattern::Two(_, targets) => Pattern::Two(Part::Is(head), targets),
    }
}

// The ids among which stand the pairs of With that say what the pattern brings.
fn ids_of_head<H: Holdings>(holdings: &H, pattern: Pattern) -> &[Id]
    ensures { (q : PatternData) → BringsPattern (H.world holdings.now) pattern q
        ↔ SomeOf (λ r. r ≡ q) (spec.brought pattern result.now) }
{
    eco_systems::laws::heads_bring_patterns();
    let Some(head) = head_of(pattern) else {
        return &[];
    };
    match holdings.type_of(head) {
        Some(ids) => ids.as_slice(),
        None => &[],
    }
}

// What the pattern brings by the id of its head.
fn brought_by(pattern: Pattern, id: Id) -> Option<Pattern>
    ensures { result ≡ brought_by pattern id }
{
    match id {
        Id::Two(relationship, head) if relationship.is(WITH) => Some(with_head(pattern, head)),
        _ => None,
    }
}

// Puts what the pattern brings by the ids of its head behind others.
fn append_brought(pattern: Pattern, ids: &[Id], found: &mut Vec<Key>) -> Result<(), AllocError>
    ensures { OnOk result (found.new.items
        ≡ found.old.items ++ map pattern_key (spec.brought pattern ids.now)) }
{
    for id in ids {
        if let Some(pattern) = brought_by(pattern, *id) {
            found.push(Key { pattern })?;
        }
    }
    Ok(())
}

/// Whether none of the patterns brings anything, be it itself: few do.
pub(crate) fn bring_nothing<H: Holdings>(holdings: &H, patterns: &[Pattern]) -> bool
    ensures { IsTrue result ↔ AllByRecursion (BringsNothing (H.world holdings.now)) patterns.now }
{
    for pattern in patterns {
        if any_with(ids_of_head(holdings, *pattern)) {
            return false;
        }
    }
    true
}

// The key of each pattern, in their order.
fn keys_of(alloc: Global, patterns: &[Pattern]) -> Result<Vec<Key>, AllocError>
    ensures { IfOk result (λ keys. keys.items ≡ map pattern_key patterns.now) }
{
    let mut keys = Vec::with_capacity(alloc, patterns.len())?;
    for pattern in patterns {
        keys.push(Key { pattern: *pattern })?;
    }
    Ok(keys)
}

/// The patterns with all that they bring, each once. Its cost grows with these and the pairs of With that lead from one to another.
pub(crate) fn closure<H: Holdings>(
    alloc: Global,
    holdings: &H,
    patterns: &[Pattern],
) -> Result<IndexSet<Key>, AllocError>
    ensures { IfOk result (λ keys. AreClosed (H.world holdings.now) patterns.now
        (map key_pattern keys.keys)) }
{
    let written = keys_of(alloc, patterns)?;
    least_set(alloc, &Brought { holdings }, &written)
}
