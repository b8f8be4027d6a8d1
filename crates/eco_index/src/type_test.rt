//! Tests of types, and the patterns by which the tables are found whose types pass.
ghost use Rattle.std.specs.Prelude.{◌≡◌, ◌<◌, Bool, List, [], ◌∷◌, IfSome, IsTrue, Some, length, slice_get};
ghost use Rattle.std.specs.List.{list_any};
ghost use Rattle.eco_ids.specs.Matching.{pattern_matches};
ghost use Rattle.eco_query.specs.Queries.{matches_type};
ghost use Rattle.eco_ids.specs.declared.id.Id.{Id as Ids};
ghost use Rattle.eco_ids.specs.declared.pattern.Pattern.{Pattern as Patterns};
ghost use Rattle.eco_index.specs.TypeTests.{type_names, AreNeeded, IsPlace, each_alone, group_at, matches_each, type_matches_one, naming};

use crate::type_names::is_named_in;
use eco_ids::{Entity, Part, Pattern, TypeList};
use eco_query::Query;

/// A test of types, with the patterns by which the tables are found whose types pass it.
///
/// The patterns stand in groups, of which there is one at least. A type that passes has, for each group, an id that one of
/// its patterns matches: so the tables of one group are enough to look at, and a search takes the group with the fewest.
pub trait TypeTest {
    /// Which types pass.
    ghost test: { Self → List Ids → Bool };

    /// The patterns, group by group.
    ghost groups: { Self → List (List Patterns) };

    /// How many groups there are.
    fn group_count(&self) -> usize
        ensures count { result ≡ length (groups self.now) }
        ensures some { 0 < result }
        ensures needed { AreNeeded (test self.now) (groups self.now) };

    /// How many patterns a group has.
    fn pattern_count(&self, group: usize) -> usize
        requires { group < length (groups self.now) }
        ensures { result ≡ length (group_at (groups self.now) group) };

    /// The pattern at a place of a group.
    fn pattern(&self, group: usize, place: usize) -> Pattern
        requires { IsPlace (groups self.now) group place }
        ensures { slice_get (group_at (groups self.now) group) place ≡ Some result };

    /// Whether a type passes.
    fn passes(&self, type_list: &TypeList) -> bool
        ensures { result ≡ test self.now type_list.now };

    /// Whether a type passes that a pattern of the group has found. A test that has nothing left to ask then says so.
    fn passes_found(&self, group: usize, type_list: &TypeList) -> bool
        requires group { group < length (groups self.now) }
        requires found { IsTrue (type_matches_one (group_at (groups self.now) group) type_list.now) }
        ensures { result ≡ test self.now type_list.now }
    {
        let _group = group;
        self.passes(type_list)
    }

    /// The number of a cache that may have the slots of the tables whose types pass, and a query which exactly those types
    /// fulfil. A cache of that number serves only where it is of that query.
    fn cached(&self) -> Option<(usize, &Query)>
        ensures { IfSome result (λ c. (ids : List Ids) → test self.now ids ≡ matches_type ids c.1.now) }
    {
        None
    }
}

/// A type passes that has an id which the pattern matches.
impl TypeTest for Pattern {
    ghost test = { λ p. list_any (pattern_matches p) };

    ghost groups = { λ p. (p ∷ []) ∷ [] };

    fn group_count(&self) -> usize {
        1
    }

    fn pattern_count(&self, _group: usize) -> usize {
        1
    }

    fn pattern(&self, _group: usize, _place: usize) -> Pattern {
        *self
    }

    fn passes(&self, type_list: &TypeList) -> bool {
        type_list.as_slice().iter().any(|id| self.matches(*id))
    }

    fn passes_found(&self, _group: usize, _type_list: &TypeList) -> bool {
        true
    }
}

/// A type passes that has an id which names the entity.
#[derive(Clone, Copy, Debug)]
pub struct NamingTest {
    pub entity: Entity,
}

impl TypeTest for NamingTest {
    ghost test = { λ n ids. type_names ids n.entity };

    ghost groups = { λ n. naming n.entity ∷ [] };

    fn group_count(&self) -> usize {
        1
    }

    fn pattern_count(&self, _group: usize) -> usize {
        3
    }

    fn pattern(&self, _group: usize, place: usize) -> Pattern {
        match place {
            0 => Pattern::One(self.entity),
            1 => Pattern::Two(Part::Is(self.entity), Part::Any),
            _ => Pattern::Two(Part::Any, Part::Is(self.entity)),
        }
    }

    fn passes(&self, type_list: &TypeList) -> bool {
        is_named_in(type_list, self.entity)
    }

    fn passes_found(&self, _group: usize, _type_list: &TypeList) -> bool {
        true
    }
}

// Whether each of the patterns matches an id of the type.
fn all_match(patterns: &[Pattern], type_list: &TypeList) -> bool
    ensures { result ≡ matches_each patterns.now type_list.now }
{
    patterns.iter().all(|pattern| pattern.passes(type_list))
}

/// A type passes that has, for each of these patterns, an id which it matches.
#[derive(Clone, Copy, Debug)]
pub struct AllOf<'a> {
    pub first: Pattern,
    pub others: &'a [Pattern],
}

impl<'a> TypeTest for AllOf<'a> {
    ghost test = { λ a. matches_each (a.first ∷ a.others.now) };

    ghost groups = { λ a. each_alone (a.first ∷ a.others.now) };

    fn group_count(&self) -> usize {
        1 + self.others.len()
    }

    fn pattern_count(&self, _group: usize) -> usize {
        1
    }

    fn pattern(&self, group: usize, _place: usize) -> Pattern {
        if group == 0 {
            self.first
        } else {
            self.others[group - 1]
        }
    }

    fn passes(&self, type_list: &TypeList) -> bool {
        self.first.passes(type_list) && all_match(self.others, type_list)
    }
}
