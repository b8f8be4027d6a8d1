//! What a slot of a query asks of an entity.
ghost use Rattle.std.specs.Prelude.{◌≡◌, ◌++◌, IfOk, OnErr, OnOk, Some, codes, flat_map, map};
ghost use mathlib.Core.List.{IsPrefix};
ghost use Rattle.std.specs.List.{list_any};
ghost use Rattle.eco_ids.specs.Matching.{pattern_matches};
ghost use Rattle.eco_ids.specs.Order.{has_item, id_cmp};
ghost use Rattle.eco_ids.specs.Text.{id_text};
ghost use Rattle.eco_query.specs.Canonical.{alternatives_text, term_text};
ghost use Rattle.eco_query.specs.Queries as queries;
ghost use Rattle.eco_query.specs.Queries.{term_view, holds, patterns_of};

use eco_ids::{Id, Part, Pattern, TypeList};
use std::alloc::{AllocError, Global};
use std::fmt;

/// What a slot asks of an entity (Flecs manual, Queries, "Operators").
///
/// A term prints as a query's text has it: `#9.0`, `!(#11.0, *)`, `?#9.0` or `#9.0 || #10.0`.
#[derive(Debug, PartialEq, Eq, Drop)]
pub enum Term {
    /// It has an id that matches.
    And(Pattern),
    /// It has no id that matches: `!`.
    Not(Pattern),
    /// It may have the id: `?`.
    Optional(Id),
    /// It has one of these ids: `||`. The first that it has counts.
    Or(Vec<Id>),
}

/// The pattern that an id alone matches.
pub fn exactly(id: Id) -> Pattern
    ensures { result ≡ queries.exactly id }
{
    match id {
        Id::One(entity) => Pattern::One(entity),
        Id::Two(relationship, target) => Pattern::Two(Part::Is(relationship), Part::Is(target)),
    }
}

/// Whether one of a type's ids matches.
#[tactic(auto, using(crate::proofs::Matched::is_some_find))]
fn has_match(ids: &TypeList, pattern: Pattern) -> bool
    ensures { result ≡ list_any (pattern_matches pattern) ids.now }
{
    ids.first_match(pattern).is_some()
}

/// Whether a type has one of some ids.
fn has_one(ids: &TypeList, alternatives: &[Id]) -> bool
    ensures { result ≡ list_any (has_item id_cmp ids.now) alternatives.now }
{
    alternatives.iter().any(|id| ids.has(*id))
}

/// Puts the patterns of some ids behind others.
fn add_exactly(patterns: &mut Vec<Pattern>, ids: &[Id]) -> Result<(), AllocError>
    ensures ok { OnOk result (patterns.new.items ≡ patterns.old.items ++ map queries.exactly ids.now) }
    ensures err { OnErr result (IsPrefix patterns.old.items patterns.new.items) }
{
    for id in ids {
        patterns.push(exactly(*id))?;
    }
    Ok(())
}

impl Term {
    /// Whether it holds on an entity of this type.
    #[tactic(auto, using(crate::proofs::Entries::and_holds, crate::proofs::Entries::or_holds))]
    pub fn holds(&self, ids: &TypeList) -> bool
        ensures { result ≡ holds ids.now (term_view self.now) }
    {
        eco_ids::order::ids_are_ordered();
        match self {
            Term::And(pattern) => has_match(ids, *pattern),
            Term::Not(pattern) => !has_match(ids, *pattern),
            Term::Optional(_) => true,
            Term::Or(alternatives) => has_one(ids, alternatives),
        }
    }

    /// The same term once more. `AllocError` is the want of memory for its alternatives.
    pub fn try_copy(&self, alloc: Global) -> Result<Term, AllocError>
        ensures { IfOk result (λ term. term_view term ≡ term_view self.now) }
    {
        Ok(match self {
            Term::And(pattern) => Term::And(*pattern),
            Term::Not(pattern) => Term::Not(*pattern),
            Term::Optional(id) => Term::Optional(*id),
            Term::Or(alternatives) => Term::Or(Vec::from_slice(alloc, alternatives)?),
        })
    }

    /// Puts the patterns that it reads behind others. `AllocError` comes where memory for them is refused: then the others
    /// stay, with some of its patterns behind them.
    pub fn add_patterns(&self, patterns: &mut Vec<Pattern>) -> Result<(), AllocError>
        ensures ok { OnOk result (patterns.new.items
            ≡ patterns.old.items ++ patterns_of (term_view self.now)) }
        ensures err { OnErr result (IsPrefix patterns.old.items patterns.new.items) }
    {
        match self {
            Term::And(pattern) | Term::Not(pattern) => patterns.push(*pattern)?,
            Term::Optional(id) => patterns.push(exactly(*id))?,
            Term::Or(alternatives) => add_exactly(patterns, alternatives)?,
        }
        Ok(())
    }
}

/// The ids of a group, joined by ` || `.
#[derive(Clone, Copy)]
struct Alternatives<'a>(&'a [Id]);

impl fmt::Display for Alternatives<'_> {
    ghost output = { λ alternatives. Some (alternatives_text alternatives.0.now) };

    fn fmt<W: fmt::Write>(&self, f: &mut fmt::Formatter<W>) -> fmt::Result {
        if let Some((first, rest)) = self.0.split_first() {
            let others = Others(rest);
            return write!(f, "{first}{others}");
        }
        Ok(())
    }
}

// The ids of a group behind its first, each behind ` || `.
#[derive(Drop)]
struct Others<'a>(&'a [Id]);

impl fmt::Display for Others<'_> {
    ghost output = { λ others. Some (flat_map (λ i. codes " || " ++ id_text i) others.0.now) };

    fn fmt<W: fmt::Write>(&self, f: &mut fmt::Formatter<W>) -> fmt::Result {
        for id in self.0 {
            write!(f, " || {id}")?;
        }
        Ok(())
    }
}

impl fmt::Display for Term {
    ghost output = { λ term. Some (term_text (term_view term)) };

    fn fmt<W: fmt::Write>(&self, f: &mut fmt::Formatter<W>) -> fmt::Result {
        match self {
            Term::And(pattern) => write!(f, "{pattern}"),
            Term::Not(pattern) => write!(f, "!{pattern}"),
            Term::Optional(id) => write!(f, "?{id}"),
            Term::Or(ids) => {
                let alternatives = Alternatives(ids);
                write!(f, "{alternatives}")
            }
        }
    }
}
