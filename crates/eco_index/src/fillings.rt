//! The least match of each filling, among many ids.
ghost use Rattle.std.specs.Prelude.{◌≡◌, ◌++◌, map, filter, not, ◌&&◌, Some, IfOk, OnOk, IsTrue};
ghost use Rattle.eco_ids.specs.Answer.{is_least_match};
ghost use Rattle.eco_ids.specs.Matching.{pattern_matches};
ghost use Rattle.eco_ids.specs.Order.{id_cmp, is_ascending};
ghost use Rattle.eco_index.specs.Fillings as spec;
ghost use Rattle.eco_index.specs.Seen.{is_seen, AreApart};

use crate::entries::put;
use crate::seen::Seen;
use eco_ids::{Entity, Id, Part, Pattern};
use std::alloc::AllocError;

// Stands for an entity that no `*` asks for.
const NOBODY: Entity = Entity {
    index: 0,
    generation: 0,
};

// The entity where the part is `*`, and the same for all where it is not.
fn asked_for(part: Part, entity: Entity) -> Entity
    ensures { result ≡ spec.asked_for part entity }
{
    match part {
        Part::Each => entity,
        Part::Is(_) | Part::Any => NOBODY,
    }
}

// What the `*` parts are on an id: ids that match fill the pattern alike where this is the same.
fn filling(pattern: Pattern, id: Id) -> Id
    ensures { result ≡ spec.filling pattern id }
{
    match (pattern, id) {
        (Pattern::Two(first, second), Id::Two(relationship, target)) => {
            Id::Two(asked_for(first, relationship), asked_for(second, target))
        }
        _ => Id::One(NOBODY),
    }
}

// Whether the id matches, and no filling seen before is its own, which is seen from then on.
#[inline(always)]
fn is_first(pattern: Pattern, id: Id, seen: &mut Seen) -> Result<bool, AllocError>
    requires { AreApart seen.old }
    ensures is { IfOk result (λ is. is
        ≡ (pattern_matches pattern id && not (is_seen seen.old (spec.filling pattern id)))) }
    ensures seen { OnOk result (spec.SeesMore pattern id seen.old seen.new) }
    ensures apart { OnOk result (AreApart seen.new) }
{
    if !pattern.matches(id) {
        return Ok(false);
    }
    seen.see(filling(pattern, id))
}

/// Puts the least match of each filling behind other entries. The targets of any relationship have a loop of their own, which
/// the compiler makes for their pattern alone.
#[inline(never)]
pub(crate) fn add_first_of_each(
    pattern: Pattern,
    ids: &[Id],
    entries: &mut Vec<Option<Id>>,
) -> Result<(), AllocError>
    requires { IsTrue (is_ascending id_cmp ids.now) }
    ensures { OnOk result (entries.new.items
        ≡ entries.old.items ++ map Some (filter (is_least_match pattern ids.now) ids.now)) }
{
    match pattern {
        Pattern::Two(Part::Any, Part::Each) => {
            add_new(Pattern::Two(Part::Any, Part::Each), ids, entries)
        }
        _ => add_new(pattern, ids, entries),
    }
}

// Puts the least match of each filling behind other entries. The ids ascend, so that it is the first: each is looked at
// once, beside the fillings seen, which mostly ascend too.
#[inline(always)]
fn add_new(pattern: Pattern, ids: &[Id], entries: &mut Vec<Option<Id>>) -> Result<(), AllocError>
    requires { IsTrue (is_ascending id_cmp ids.now) }
    ensures { OnOk result (entries.new.items
        ≡ entries.old.items ++ map Some (filter (is_least_match pattern ids.now) ids.now)) }
{
    let mut seen = Seen::none(*entries.allocator());
    for id in ids {
        if is_first(pattern, *id, &mut seen)? {
            put(Some(*id), entries)?;
        }
    }
    Ok(())
}
