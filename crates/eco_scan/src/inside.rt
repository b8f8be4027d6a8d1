//! What a byte does inside of a token.
ghost use Rattle.std.specs.Prelude.{◌≡◌, true, false, ◌+◌, ◌<◌, length, IfSome};
ghost use Rattle.eco_scan.specs.Reader.Machine as machine;
ghost use Rattle.eco_scan.specs.Reader.Points.{IsBegunAt, IsMove, KeepsSlots, is_bare, is_bare_role};

use crate::between::move_at;
use crate::classes::{digit, grow, is_decimal_digit, is_name_byte};
use crate::point::{Head, Mark, Point, Role, Spot, Step};
use crate::written::{Reference, WrittenAtom, WrittenPart};
use eco_query::Access;

/// What a byte behind some of a name does.
#[tactic(auto, using(crate::proofs::Stuck::slice_range_more))]
fn advance_name<'a>(text: &'a [u8], at: usize, role: Role<'a>, from: usize) -> Option<Step<'a>>
    requires within { at < length text.now }
    requires begun { from < at }
    ensures begun { IfSome result (λ s. IsBegunAt (at + 1) s.point) }
    ensures slots { IfSome result (KeepsSlots (is_bare_role role.entry)) }
    ensures step { IsMove text.now at (Point.Name role.entry from) result }
{
    let word = &text[from..at];
    if !is_name_byte(text[at]) {
        let part = WrittenPart::of_word(from, word);
        if part.is_wildcard() && !role.takes_wildcard() {
            return None;
        }
        return move_at(text, at, Spot::Behind(role, part));
    }
    if word.len() < 63 {
        Some(Step::to(Point::Name(role, from)))
    } else {
        None
    }
}

/// What a byte behind one bar does.
fn advance_bar<'a>(
    text: &'a [u8],
    at: usize,
    access: Access,
    atom: WrittenAtom<'a>,
) -> Option<Step<'a>>
    requires within { at < length text.now }
    ensures begun { IfSome result (λ s. IsBegunAt (at + 1) s.point) }
    ensures slots { IfSome result (KeepsSlots false) }
    ensures step { IsMove text.now at (Point.Bar access atom.entry) result }
{
    if text[at] == b'|' {
        Some(Step {
            point: Point::At(Spot::Atom(access, Head::Plain)),
            mark: Mark::Other(access, atom),
        })
    } else {
        None
    }
}

/// What a byte behind a handle's `#` does.
fn advance_hash<'a>(text: &'a [u8], at: usize, role: Role<'a>, from: usize) -> Option<Step<'a>>
    requires within { at < length text.now }
    ensures begun { IfSome result (λ s. IsBegunAt (at + 1) s.point) }
    ensures slots { IfSome result (KeepsSlots (is_bare_role role.entry)) }
    ensures step { IsMove text.now at (Point.Hash role.entry from) result }
{
    let index = u32::from(digit(text[at])?);
    Some(Step::to(Point::Index(role, from, index)))
}

/// What a byte behind a handle's point does.
fn advance_dot<'a>(
    text: &'a [u8],
    at: usize,
    role: Role<'a>,
    from: usize,
    index: u32,
) -> Option<Step<'a>>
    requires within { at < length text.now }
    ensures begun { IfSome result (λ s. IsBegunAt (at + 1) s.point) }
    ensures slots { IfSome result (KeepsSlots (is_bare_role role.entry)) }
    ensures step { IsMove text.now at (Point.Dot role.entry from index) result }
{
    let generation = u16::from(digit(text[at])?);
    Some(Step::to(Point::Generation(role, from, index, generation)))
}

/// What a byte behind some of a handle's index does.
fn advance_index<'a>(
    text: &'a [u8],
    at: usize,
    role: Role<'a>,
    from: usize,
    index: u32,
) -> Option<Step<'a>>
    requires within { at < length text.now }
    ensures begun { IfSome result (λ s. IsBegunAt (at + 1) s.point) }
    ensures slots { IfSome result (KeepsSlots (is_bare_role role.entry)) }
    ensures step { IsMove text.now at (Point.Index role.entry from index) result }
{
    let byte = text[at];
    if is_decimal_digit(byte) {
        let index = grow(u32::MAX, index, byte)?;
        Some(Step::to(Point::Index(role, from, index)))
    } else if byte == b'.' {
        Some(Step::to(Point::Dot(role, from, index)))
    } else {
        None
    }
}

/// What a byte behind some of a handle's generation does.
fn advance_generation<'a>(
    text: &'a [u8],
    at: usize,
    role: Role<'a>,
    from: usize,
    index: u32,
    generation: u16,
) -> Option<Step<'a>>
    requires within { at < length text.now }
    ensures begun { IfSome result (λ s. IsBegunAt (at + 1) s.point) }
    ensures slots { IfSome result (KeepsSlots (is_bare_role role.entry)) }
    ensures step { IsMove text.now at (Point.Generation role.entry from index generation) result }
{
    let byte = text[at];
    if is_decimal_digit(byte) {
        let generation = grow(65_535, u32::from(generation), byte)? as u16;
        Some(Step::to(Point::Generation(role, from, index, generation)))
    } else {
        let handle = Reference::Handle(index, generation);
        move_at(
            text,
            at,
            Spot::Behind(role, WrittenPart::Named(from, handle)),
        )
    }
}

/// Whether the whole begins with the word.
fn begins(word: &[u8], whole: &[u8]) -> bool
    ensures { result ≡ machine.is_prefix word.now whole.now }
{
    whole.starts_with(word)
}

/// Whether an access word begins so.
fn is_access_front(word: &[u8]) -> bool
    ensures { result ≡ machine.is_front word.now }
{
    begins(word, b"inout".as_slice())
        || begins(word, b"out".as_slice())
        || begins(word, b"none".as_slice())
}

/// The access of a word.
fn access_of(word: &[u8]) -> Option<Access>
    ensures { result ≡ machine.access_of word.now }
{
    if word == b"in".as_slice() {
        Some(Access::In)
    } else if word == b"out".as_slice() {
        Some(Access::Out)
    } else if word == b"inout".as_slice() {
        Some(Access::InOut)
    } else if word == b"none".as_slice() {
        Some(Access::InOutNone)
    } else {
        None
    }
}

/// What a byte behind some of an access word does.
#[tactic(auto, using(crate::proofs::Stuck::slice_range_more))]
fn advance_letters<'a>(text: &'a [u8], at: usize, from: usize) -> Option<Step<'a>>
    requires within { at < length text.now }
    requires begun { from < at }
    ensures begun { IfSome result (λ s. IsBegunAt (at + 1) s.point) }
    ensures slots { IfSome result (KeepsSlots true) }
    ensures step { IsMove text.now at (Point.Letters from) result }
{
    if is_access_front(&text[from..at + 1]) {
        Some(Step::to(Point::Letters(from)))
    } else {
        move_at(text, at, Spot::Shut(access_of(&text[from..at])?))
    }
}

/// What a byte does.
pub fn advance<'a>(text: &'a [u8], at: usize, point: Point<'a>) -> Option<Step<'a>>
    requires within { at < length text.now }
    requires begun { IsBegunAt at point }
    ensures begun { IfSome result (λ s. IsBegunAt (at + 1) s.point) }
    ensures slots { IfSome result (KeepsSlots (is_bare point.entry)) }
    ensures step { IsMove text.now at point.entry result }
{
    match point {
        Point::At(spot) => move_at(text, at, spot),
        Point::Letters(from) => advance_letters(text, at, from),
        Point::Bar(access, atom) => advance_bar(text, at, access, atom),
        Point::Name(role, from) => advance_name(text, at, role, from),
        Point::Hash(role, from) => advance_hash(text, at, role, from),
        Point::Index(role, from, index) => advance_index(text, at, role, from, index),
        Point::Dot(role, from, index) => advance_dot(text, at, role, from, index),
        Point::Generation(role, from, index, generation) => {
            advance_generation(text, at, role, from, index, generation)
        }
    }
}
