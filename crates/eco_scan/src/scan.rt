//! Reads a whole text, byte by byte.
ghost use Rattle.std.specs.Prelude.{◌≡◌, List, length, [], IfErr, IfOk, IfSome, option_map};
ghost use Rattle.eco_scan.specs.Reader.Machine as machine;
ghost use Rattle.eco_scan.specs.Faults.{IsFault, IsSpelled};
ghost use Rattle.eco_scan.specs.Grammar.{named, PlacedReference, SpellsId, SpellsQuery, SpellsRef, WrittenSlot};
ghost use Rattle.eco_scan.specs.Reader.Machine.{EndsWith, Stops};
ghost use Rattle.eco_scan.specs.Reader.Points.{Draft, IsBegunAt, KeepsLast, is_bare, is_bare_role, before_view, point_view, role_view, start_view};
ghost use Rattle.eco_scan.specs.Marks.{HoldsSlots};
ghost use Rattle.eco_scan.specs.Views.{atom_view, part_view};

use crate::inside::advance;
use crate::point::{Head, Mark, Point, Role, Spot};
use crate::skip::skip;
use crate::terms::Terms;
use crate::written::{Reference, WrittenAtom, WrittenPart};
use eco_query::Access;

/// Reads the text of a reference. The error is how many bytes are the longest beginning of one.
pub fn scan_ref(text: &[u8]) -> Result<WrittenPart<'_>, usize>
    ensures found { IfOk result (λ p. (r : PlacedReference)
        × SpellsRef text.now r × (part_view p ≡ named r.at r.reference)) }
    ensures fault { IfErr result (λ n. IsFault (IsSpelled SpellsRef) text.now n) }
{
    match scan_atom(text, Spot::Part(Role::Sole)) {
        Ok(WrittenAtom::Single(part)) => Ok(part),
        Ok(WrittenAtom::Pair(_, _)) => unreachable!(),
        Err(at) => Err(at),
    }
}

/// Reads the text of an id. The error is how many bytes are the longest beginning of one.
pub fn scan_id(text: &[u8]) -> Result<WrittenAtom<'_>, usize>
    ensures found { IfOk result (λ x. SpellsId text.now (atom_view x)) }
    ensures fault { IfErr result (λ n. IsFault (IsSpelled SpellsId) text.now n) }
{
    scan_atom(text, Spot::Atom(Access::InOut, Head::Alone))
}

/// Reads a text of one atom from a start. The error is where the machine stops.
fn scan_atom<'a>(text: &'a [u8], start: Spot<'a>) -> Result<WrittenAtom<'a>, usize>
    ensures found { IfOk result (λ x. EndsWith (start_view start.entry) text.now (atom_view x)) }
    ensures fault { IfErr result (λ n. Stops (start_view start.entry) text.now n) }
{
    let (mut at, mut point) = (0, Point::At(start));
    while at < text.len() {
        let Some(step) = advance(text, at, point) else {
            return Err(at);
        };
        (at, point) = skip(text, at + 1, step.point);
    }
    match last_atom(text, point) {
        Some((_, _, atom)) => Ok(atom),
        None => Err(text.len()),
    }
}

/// Reads a whole query text. The error is how many bytes are the longest beginning of a query.
pub fn scan_query(text: &[u8]) -> Result<Terms<'_>, usize>
    ensures found { IfOk result (λ t. (slots : List WrittenSlot)
        × SpellsQuery text.now slots × HoldsSlots t slots) }
    ensures fault { IfErr result (λ n. IsFault (IsSpelled SpellsQuery) text.now n) }
{
    let (mut at, mut point) = (0, Point::At(Spot::Slot));
    let mut terms = Terms::new();
    while at < text.len() {
        let Some(step) = advance(text, at, point) else {
            return Err(at);
        };
        terms.put(step.mark);
        (at, point) = skip(text, at + 1, step.point);
    }
    let Some((access, head, atom)) = last_atom(text, point) else {
        return Err(text.len());
    };
    terms.put(Mark::Slot(access, head, atom));
    Ok(terms)
}

/// The atom that a part completes at the end of the text.
fn last_part<'a>(role: Role<'a>, part: WrittenPart<'a>) -> Option<(Access, Head, WrittenAtom<'a>)>
    ensures slots { IfSome result (λ l. KeepsLast (is_bare_role role.entry) l.1) }
    ensures end { (d : Draft)
        → option_map (λ l. machine.slots_with l.1 (before_view d l.0 l.1) (atom_view l.2)) result
        ≡ machine.end_at (machine.behind (role_view d role.entry) (part_view part.entry)) }
{
    let atom = WrittenAtom::Single(part);
    match role {
        Role::Whole(access, head) => Some((access, head, atom)),
        Role::Sole if !part.is_wildcard() => Some((Access::InOut, Head::Alone, atom)),
        _ => None,
    }
}

/// The atom that the end of the text completes, with the access and the head of its slot.
fn last_atom<'a>(text: &'a [u8], point: Point<'a>) -> Option<(Access, Head, WrittenAtom<'a>)>
    requires begun { IsBegunAt (length text.now) point }
    ensures slots { IfSome result (λ l. KeepsLast (is_bare point.entry) l.1) }
    ensures end { (d : Draft)
        → option_map (λ l. machine.slots_with l.1 (before_view d l.0 l.1) (atom_view l.2)) result
        ≡ machine.end (point_view text.now (length text.now) d point.entry) }
{
    let (role, part) = match point {
        Point::At(Spot::After(access, head, atom)) => return Some((access, head, atom)),
        Point::At(Spot::Behind(role, part)) => (role, part),
        Point::Name(role, from) => (role, WrittenPart::of_word(from, &text[from..])),
        Point::Generation(role, from, index, generation) => (
            role,
            WrittenPart::Named(from, Reference::Handle(index, generation)),
        ),
        _ => return None,
    };
    last_part(role, part)
}
