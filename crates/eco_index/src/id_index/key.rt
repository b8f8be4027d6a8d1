//! What the tables of a store are found by.
ghost use Rattle.std.specs.Prelude.{◌≡◌};
ghost use Rattle.eco_index.specs.IdIndex.{key_of, pattern_of};

use eco_ids::{Entity, Part, Pattern};

/// The ids that a pattern matches. Patterns that match the same ids have one key.
#[derive(Clone, Copy, PartialEq, Eq, Hash)]
pub enum Key {
    /// This single id.
    Single(Entity),
    /// The pair of this relationship and this target.
    Pair(Entity, Entity),
    /// Each pair of this relationship.
    Relationship(Entity),
    /// Each pair with this target.
    Target(Entity),
    /// Each pair.
    AnyPair,
}

impl Key {
    /// The key of a pattern.
    #[inline]
    pub fn of(pattern: Pattern) -> Key
        ensures { result ≡ key_of pattern }
    {
        match pattern {
            Pattern::One(entity) => Key::Single(entity),
            Pattern::Two(Part::Is(relationship), Part::Is(target)) => Key::Pair(
                relationship,
                target,
            ),
            Pattern::Two(Part::Is(relationship), Part::Each | Part::Any) => Key::Relationship(
                relationship,
            ),
            Pattern::Two(Part::Each | Part::Any, Part::Is(target)) => Key::Target(target),
            Pattern::Two(Part::Each | Part::Any, Part::Each | Part::Any) => Key::AnyPair,
        }
    }

    /// A pattern that matches the ids.
    pub fn pattern(self) -> Pattern
        ensures { result ≡ pattern_of self }
    {
        match self {
            Key::Single(entity) => Pattern::One(entity),
            Key::Pair(relationship, target) => Pattern::Two(
                Part::Is(relationship),
                Part::Is(target),
            ),
            Key::Relationship(relationship) => Pattern::Two(Part::Is(relationship), Part::Any),
            Key::Target(target) => Pattern::Two(Part::Any, Part::Is(target)),
            Key::AnyPair => Pattern::Two(Part::Any, Part::Any),
        }
    }
}
