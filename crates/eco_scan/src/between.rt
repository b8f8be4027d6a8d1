//! What a byte does between tokens.
ghost use Rattle.std.specs.Prelude.{◌≡◌, true, ◌+◌, ◌<◌, length, Option, IfSome, option_map, slice_index};
ghost use Rattle.eco_scan.specs.Reader.Machine as machine;
ghost use Rattle.eco_scan.specs.Reader.Machine.{part_or};
ghost use Rattle.eco_scan.specs.Reader.Points.{Draft, IsBegunAt, KeepsSlots, is_bare, is_bare_role, is_bare_spot};
ghost use Rattle.eco_scan.specs.Reader.Points.{before_view, is_beginning, marked, or_point, role_view, spot_view};
ghost use Rattle.eco_scan.specs.Reader.Points.{point_of_step};
ghost use Rattle.eco_scan.specs.Views.{atom_view};
ghost use Rattle.eco_scan.specs.Marks.{is_bare_head};

use crate::classes::{is_name_start, is_white_space};
use crate::point::{Head, Mark, Point, Role, Spot, Step};
use crate::written::{WrittenAtom, WrittenPart};
use eco_query::Access;

/// Begins a part.
pub fn begin_part<'a>(text: &'a [u8], at: usize, role: Role<'a>) -> Option<Point<'a>>
    requires within { at < length text.now }
    ensures begun { IfSome result (λ p. IsBegunAt (at + 1) p) }
    ensures slots { IfSome result (λ p. is_bare p ≡ is_bare_role role.entry) }
    ensures step { (d : Draft) (y : Option machine.Point) → or_point text.now (at + 1) d result y
        ≡ part_or at (role_view d role.entry) (slice_index text.now at) y }
{
    let byte = text[at];
    if is_name_start(byte) {
        Some(Point::Name(role, at))
    } else if byte == b'#' {
        Some(Point::Hash(role, at))
    } else if byte == b'*' && role.takes_wildcard() {
        Some(Point::At(Spot::Behind(role, WrittenPart::Each)))
    } else {
        None
    }
}

/// What a byte does behind an atom.
pub fn behind_atom<'a>(
    text: &'a [u8],
    at: usize,
    access: Access,
    head: Head,
    atom: WrittenAtom<'a>,
) -> Option<Step<'a>>
    requires within { at < length text.now }
    ensures begun { IfSome result (λ s. IsBegunAt (at + 1) s.point) }
    ensures slots { IfSome result (KeepsSlots (is_bare_head head)) }
    ensures step { (d : Draft) → option_map (point_of_step text.now (at + 1) d) result
        ≡ machine.behind_atom head (before_view d access head) (atom_view atom.entry)
        (slice_index text.now at) }
{
    let byte = text[at];
    match head {
        Head::Alone => None,
        Head::Plain if byte == b'|' => Some(Step::to(Point::Bar(access, atom))),
        _ if byte == b',' => Some(Step {
            point: Point::At(Spot::Slot),
            mark: Mark::Slot(access, head, atom),
        }),
        _ => None,
    }
}

/// Begins an atom.
pub fn begin_atom<'a>(text: &'a [u8], at: usize, access: Access, head: Head) -> Option<Point<'a>>
    requires within { at < length text.now }
    ensures begun { IfSome result (λ p. IsBegunAt (at + 1) p) }
    ensures slots { IfSome result (λ p. is_bare p ≡ is_bare_head head) }
    ensures step { (d : Draft) (y : Option machine.Point) → or_point text.now (at + 1) d result y
        ≡ machine.atom_or at (before_view d access head) (slice_index text.now at) y }
{
    if text[at] == b'(' {
        Some(Point::At(Spot::Part(Role::First(access, head))))
    } else {
        begin_part(text, at, Role::Whole(access, head))
    }
}

/// Begins a body.
fn begin_body<'a>(text: &'a [u8], at: usize, access: Access) -> Option<Point<'a>>
    requires within { at < length text.now }
    ensures begun { IfSome result (λ p. IsBegunAt (at + 1) p) }
    ensures step { (d : Draft) (y : Option machine.Point)
        → or_point text.now (at + 1) (marked Mark.Begin d) result y
        ≡ machine.body_or at d.slots access (slice_index text.now at) y }
{
    match text[at] {
        b'!' => Some(Point::At(Spot::Atom(access, Head::Not))),
        b'?' => Some(Point::At(Spot::Atom(access, Head::Optional))),
        _ => begin_atom(text, at, access, Head::Plain),
    }
}

/// What a byte behind a part does.
pub fn behind_part<'a>(
    text: &'a [u8],
    at: usize,
    role: Role<'a>,
    part: WrittenPart<'a>,
) -> Option<Step<'a>>
    requires within { at < length text.now }
    ensures begun { IfSome result (λ s. IsBegunAt (at + 1) s.point) }
    ensures slots { IfSome result (KeepsSlots (is_bare_role role.entry)) }
    ensures step { (d : Draft) → option_map (point_of_step text.now (at + 1) d) result
        ≡ machine.enter at (spot_view d (Spot.Behind role.entry part.entry)) (slice_index text.now at) }
{
    let byte = text[at];
    match role {
        Role::Whole(access, head) => behind_atom(text, at, access, head, WrittenAtom::Single(part)),
        Role::First(access, head) if byte == b',' => Some(Step::to(Point::At(Spot::Part(
            Role::Second(access, head, part),
        )))),
        Role::Second(access, head, left) if byte == b')' => Some(Step::to(Point::At(Spot::After(
            access,
            head,
            WrittenAtom::Pair(left, part),
        )))),
        _ => None,
    }
}

// To a point, if there is one, with a mark.
fn step_to<'a>(point: Option<Point<'a>>, mark: Mark<'a>) -> Option<Step<'a>>
    ensures { result ≡ option_map (λ p. record { point = p; mark = mark.entry }) point.entry }
{
    Some(Step {
        point: point?,
        mark,
    })
}

/// Begins a slot.
fn begin_slot<'a>(text: &'a [u8], at: usize) -> Option<Step<'a>>
    requires within { at < length text.now }
    ensures begun { IfSome result (λ s. IsBegunAt (at + 1) s.point) }
    ensures slots { IfSome result (KeepsSlots true) }
    ensures step { (d : Draft) → option_map (point_of_step text.now (at + 1) d) result
        ≡ machine.enter at (machine.slot d.slots) (slice_index text.now at) }
{
    if text[at] == b'[' {
        Some(Step::to(Point::At(Spot::Word)))
    } else {
        step_to(begin_body(text, at, Access::InOut), Mark::Begin)
    }
}

/// Begins the word of an access.
fn begin_word<'a>(text: &'a [u8], at: usize) -> Option<Step<'a>>
    requires within { at < length text.now }
    ensures begun { IfSome result (λ s. IsBegunAt (at + 1) s.point) }
    ensures slots { IfSome result (KeepsSlots true) }
    ensures step { (d : Draft) → option_map (point_of_step text.now (at + 1) d) result
        ≡ machine.enter at (machine.word d.slots) (slice_index text.now at) }
{
    if matches!(text[at], b'i' | b'o' | b'n') {
        Some(Step::to(Point::Letters(at)))
    } else {
        None
    }
}

/// Ends an access.
fn shut_access<'a>(text: &'a [u8], at: usize, access: Access) -> Option<Step<'a>>
    requires within { at < length text.now }
    ensures begun { IfSome result (λ s. IsBegunAt (at + 1) s.point) }
    ensures slots { IfSome result (KeepsSlots true) }
    ensures step { (d : Draft) → option_map (point_of_step text.now (at + 1) d) result
        ≡ machine.enter at (machine.shut d.slots access) (slice_index text.now at) }
{
    if text[at] == b']' {
        Some(Step::to(Point::At(Spot::Body(access))))
    } else {
        None
    }
}

/// Begins a body, an atom or a part, where one is wanted.
fn begin<'a>(text: &'a [u8], at: usize, spot: Spot<'a>) -> Option<Step<'a>>
    requires within { at < length text.now }
    ensures begun { IfSome result (λ s. IsBegunAt (at + 1) s.point) }
    ensures slots { IfSome result (KeepsSlots (is_bare_spot spot.entry)) }
    ensures step { is_beginning spot.entry ≡ true → (d : Draft)
        → option_map (point_of_step text.now (at + 1) d) result
        ≡ machine.enter at (spot_view d spot.entry) (slice_index text.now at) }
{
    match spot {
        Spot::Body(access) => step_to(begin_body(text, at, access), Mark::Begin),
        Spot::Atom(access, head) => step_to(begin_atom(text, at, access, head), Mark::Same),
        Spot::Part(role) => step_to(begin_part(text, at, role), Mark::Same),
        _ => None,
    }
}

/// What a byte does between tokens that is no white space.
pub fn enter<'a>(text: &'a [u8], at: usize, spot: Spot<'a>) -> Option<Step<'a>>
    requires within { at < length text.now }
    ensures begun { IfSome result (λ s. IsBegunAt (at + 1) s.point) }
    ensures slots { IfSome result (KeepsSlots (is_bare_spot spot.entry)) }
    ensures step { (d : Draft) → option_map (point_of_step text.now (at + 1) d) result
        ≡ machine.enter at (spot_view d spot.entry) (slice_index text.now at) }
{
    match spot {
        Spot::Slot => begin_slot(text, at),
        Spot::Word => begin_word(text, at),
        Spot::Shut(access) => shut_access(text, at, access),
        Spot::Behind(role, part) => behind_part(text, at, role, part),
        Spot::After(access, head, atom) => behind_atom(text, at, access, head, atom),
        Spot::Body(_) | Spot::Atom(_, _) | Spot::Part(_) => begin(text, at, spot),
    }
}

/// What a byte does between tokens.
pub fn move_at<'a>(text: &'a [u8], at: usize, spot: Spot<'a>) -> Option<Step<'a>>
    requires within { at < length text.now }
    ensures begun { IfSome result (λ s. IsBegunAt (at + 1) s.point) }
    ensures slots { IfSome result (KeepsSlots (is_bare_spot spot.entry)) }
    ensures step { (d : Draft) → option_map (point_of_step text.now (at + 1) d) result
        ≡ machine.move_at at (spot_view d spot.entry) (slice_index text.now at) }
{
    if is_white_space(text[at]) {
        Some(Step::to(Point::At(spot)))
    } else {
        enter(text, at, spot)
    }
}
