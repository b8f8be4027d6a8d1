//! What the last atom of a slot makes of it.
ghost use Rattle.std.specs.Prelude.{◌≡◌, IfOk, IfErr};
ghost use Rattle.eco_ids.specs.declared.refusal.Refusal.TheVariants.{OutOfMemory};
ghost use Rattle.eco_grammar.specs.Proper.{IsProperAtom};
ghost use Rattle.eco_grammar.specs.LastTerms as last;
ghost use Rattle.eco_grammar.specs.LastTerms.{IsLast, term_with, last_of, left_over};
ghost use Rattle.eco_query.specs.Queries.{term_view};
ghost use Rattle.eco_scan.specs.Views.{atom_view};

use crate::names::Names;
use crate::range::{id_is_in_range, pattern_is_in_range};
use crate::resolve::{id_of_atom, pattern_of_atom};
use eco_ids::{Id, Pattern, Refusal};
use eco_query::Term;
use eco_scan::{Head, WrittenAtom};
use std::alloc::Global;
use std::mem;

/// The whole of what a slot asks, or its last alternative.
#[derive(Clone, Copy)]
pub enum LastTerm {
    And(Pattern),
    Not(Pattern),
    Optional(Id),
    Alternative(Id),
}

/// Looks up the last atom of a slot, behind alternatives or not.
pub fn last_term<N: Names>(
    head: Head,
    grouped: bool,
    atom: WrittenAtom<'_>,
    names: &N,
) -> Result<LastTerm, Refusal>
    requires { IsProperAtom (atom_view atom) }
    ensures { result ≡ last_of (N.entity_named names.now) head grouped (atom_view atom.entry) }
{
    match head {
        Head::Not => Ok(LastTerm::Not(pattern_of_atom(atom, names)?)),
        Head::Optional => Ok(LastTerm::Optional(id_of_atom(atom, names)?)),
        Head::Plain | Head::Alone if grouped => Ok(LastTerm::Alternative(id_of_atom(atom, names)?)),
        Head::Plain | Head::Alone => Ok(LastTerm::And(pattern_of_atom(atom, names)?)),
    }
}

/// Whether a wildcard stands in the last atom of a slot where none may stand.
pub fn misplaces_last(head: Head, grouped: bool, atom: WrittenAtom<'_>) -> bool
    ensures { result ≡ last.misplaces_last head grouped (atom_view atom.entry) }
{
    match head {
        Head::Optional => atom.has_wildcard(),
        Head::Plain | Head::Alone if grouped => atom.has_wildcard(),
        Head::Plain | Head::Alone | Head::Not => atom.is_lone_wildcard(),
    }
}

impl LastTerm {
    /// Does nothing, and its contract says that its numbers are in range.
    pub fn is_in_range(self)
        ensures { IsLast self }
    {
        match self {
            LastTerm::And(pattern) | LastTerm::Not(pattern) => pattern_is_in_range(pattern),
            LastTerm::Optional(id) | LastTerm::Alternative(id) => id_is_in_range(id),
        }
    }

    /// The term of the slot. It takes the alternatives before, if it is one more.
    pub fn into_term(self, alloc: Global, group: &mut Vec<Id>) -> Result<Term, Refusal>
        ensures term { IfOk result (λ t. term_view t ≡ term_with group.old.items self) }
        ensures left { IfOk result (λ t. group.new.items ≡ left_over group.old.items self) }
        ensures memory { IfErr result (λ e. e ≡ OutOfMemory) }
    {
        Ok(match self {
            LastTerm::And(pattern) => Term::And(pattern),
            LastTerm::Not(pattern) => Term::Not(pattern),
            LastTerm::Optional(id) => Term::Optional(id),
            LastTerm::Alternative(id) => {
                group.push(id)?;
                Term::Or(mem::replace(group, Vec::new(alloc)))
            }
        })
    }
}
