//! What a written reference or id means under some names.
ghost use Rattle.std.specs.Prelude.{◌≡◌, ℕ};
ghost use Rattle.eco_grammar.specs.Proper.{IsProper, IsProperAtom, IsProperPart};
ghost use Rattle.eco_grammar.specs.Readings as reading;
ghost use Rattle.eco_grammar.specs.Readings.{entity_of_reference, id_of};
ghost use Rattle.eco_scan.specs.Views.{atom_view, part_view, reference_view};

use crate::names::Names;
use eco_ids::{Entity, Id, Part, Pattern, Refusal};
use eco_scan::{Reference, WrittenAtom, WrittenPart};

/// A handle means itself, living or not. The place is where the name begins, for its refusal.
fn reference_entity<N: Names>(
    reference: Reference<'_>,
    at: usize,
    names: &N,
) -> Result<Entity, Refusal>
    requires { IsProper (reference_view reference) }
    ensures { result ≡ entity_of_reference (N.entity_named names.now) at (reference_view reference.entry) }
{
    match reference {
        Reference::Name(name) => {
            let name = str::from_utf8(name).unwrap();
            names.lookup(name).ok_or(Refusal::UnknownName { at })
        }
        Reference::Handle(index, generation) => Ok(Entity { index, generation }),
    }
}

/// The entity of a part; a wildcard names none.
pub fn entity_of_part<N: Names>(part: WrittenPart<'_>, names: &N) -> Result<Entity, Refusal>
    requires { IsProperPart (part_view part) }
    ensures { result ≡ reading.entity_of_part (N.entity_named names.now) (part_view part.entry) }
{
    match part {
        WrittenPart::Named(at, reference) => reference_entity(reference, at, names),
        WrittenPart::Each | WrittenPart::Any => Err(Refusal::WildcardHere),
    }
}

/// What a pair's pattern has there.
fn pattern_part<N: Names>(part: WrittenPart<'_>, names: &N) -> Result<Part, Refusal>
    requires { IsProperPart (part_view part) }
    ensures { result ≡ reading.part_of (N.entity_named names.now) (part_view part.entry) }
{
    match part {
        WrittenPart::Named(at, reference) => Ok(Part::Is(reference_entity(reference, at, names)?)),
        WrittenPart::Each => Ok(Part::Each),
        WrittenPart::Any => Ok(Part::Any),
    }
}

/// The id of an atom: wildcards are refused before unknown names.
pub fn id_of_atom<N: Names>(atom: WrittenAtom<'_>, names: &N) -> Result<Id, Refusal>
    requires { IsProperAtom (atom_view atom) }
    ensures { result ≡ id_of (N.entity_named names.now) (atom_view atom.entry) }
{
    match atom {
        WrittenAtom::Single(part) => Ok(Id::One(entity_of_part(part, names)?)),
        WrittenAtom::Pair(relationship, target) => {
            if atom.has_wildcard() {
                return Err(Refusal::WildcardHere);
            }
            let relationship = entity_of_part(relationship, names)?;
            let target = entity_of_part(target, names)?;
            Ok(Id::Two(relationship, target))
        }
    }
}

/// The pattern of an atom: wildcards stand in pairs alone.
pub fn pattern_of_atom<N: Names>(atom: WrittenAtom<'_>, names: &N) -> Result<Pattern, Refusal>
    requires { IsProperAtom (atom_view atom) }
    ensures { result ≡ reading.pattern_of_atom (N.entity_named names.now) (atom_view atom.entry) }
{
    match atom {
        WrittenAtom::Single(part) => Ok(Pattern::One(entity_of_part(part, names)?)),
        WrittenAtom::Pair(relationship, target) => {
            let relationship = pattern_part(relationship, names)?;
            let target = pattern_part(target, names)?;
            Ok(Pattern::Two(relationship, target))
        }
    }
}
