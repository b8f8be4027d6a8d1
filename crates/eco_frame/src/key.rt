//! Patterns as keys of a set.
ghost use Rattle.std.specs.Prelude.{◌≡◌};
ghost use Rattle.std.specs.Cmp.Rules.{hashing};
ghost use Rattle.std.proofs.Common.{rules};
ghost use Rattle.eco_ids.specs.Hashing.{id_fed};
ghost use Rattle.eco_frame.specs.Keys.{looks_like};

use crate::written::named;
use eco_ids::entity::WITH;
use eco_ids::{Id, Pattern};
use std::hash::{Hash, Hasher};

/// A pattern that a set holds.
#[derive(Clone, Copy, PartialEq, Eq)]
pub(crate) struct Key {
    pub pattern: Pattern,
}

// The id of the pattern, where a wildcard is taken for some entity: patterns that differ may have one.
fn looks_like(pattern: Pattern) -> Id
    ensures { result ≡ looks_like pattern }
{
    match pattern {
        Pattern::One(entity) => Id::One(entity),
        Pattern::Two(relationship, target) => Id::Two(
            named(relationship).unwrap_or(WITH),
            named(target).unwrap_or(WITH),
        ),
    }
}

impl Hash for Key {
    ghost hash_input = { λ k. id_fed (looks_like k.pattern) };

    ghost respects_eq = { Prim.search (hashing, rules) };

    fn hash<H: Hasher>(&self, state: &mut H) {
        looks_like(self.pattern).hash(state);
    }
}
