//! The order of types, for types that mostly begin alike.
ghost use Rattle.std.specs.Prelude.{◌≡◌};
ghost use Rattle.std.specs.Cmp.Lexicographic.{slice_cmp};
ghost use Rattle.std.specs.Ordering.{is_lt};
ghost use Rattle.eco_ids.specs.Order.{entity_cmp, id_cmp};
ghost use Rattle.eco_world.specs.Layouts.{decided};

use eco_ids::{Entity, Id};

// Whether the first handle comes before the second; `None` where they are the same.
#[inline(always)]
fn decide_entities(entity: &Entity, other: &Entity) -> Option<bool>
    ensures { result ≡ decided (entity_cmp entity.now other.now) }
{
    if entity.index != other.index {
        return Some(entity.index < other.index);
    }
    if entity.generation != other.generation {
        return Some(entity.generation < other.generation);
    }
    None
}

// Whether the first id comes before the second; `None` where they are the same. What differs first decides, and nothing
// behind it is looked at.
#[inline(always)]
fn decide(id: &Id, other: &Id) -> Option<bool>
    ensures { result ≡ decided (id_cmp id.now other.now) }
{
    match (id, other) {
        (Id::One(own), Id::One(others)) => decide_entities(own, others),
        (Id::One(_), Id::Two(..)) => Some(true),
        (Id::Two(..), Id::One(_)) => Some(false),
        (Id::Two(relationship, target), Id::Two(others, others_target)) => {
            match decide_entities(relationship, others) {
                None => decide_entities(target, others_target),
                decision => decision,
            }
        }
    }
}

/// Whether the first type comes before the second: the first id that differs decides, and a beginning comes first. Equal
/// ids take fewer steps than by their order, which looks at all of both before it answers.
#[inline(always)]
pub fn is_below(ids: &[Id], others: &[Id]) -> bool
    ensures { result ≡ is_lt (slice_cmp id_cmp ids.now others.now) }
{
    for place in 0..ids.len().min(others.len()) {
        if let Some(is_first) = decide(&ids[place], &others[place]) {
            return is_first;
        }
    }
    ids.len() < others.len()
}
