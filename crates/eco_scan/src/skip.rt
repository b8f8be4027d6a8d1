//! Most bytes of a text are white space, or more of a name or handle: they are read in loops of their own.
ghost use Rattle.std.specs.Prelude.{◌≡◌, ℕ, ◌-◌, ◌<◌, ◌≤◌, false, length, slice_index, slice_range};
ghost use Rattle.eco_ids.specs.Names.{may_follow};
ghost use Rattle.eco_scan.specs.Tokens.{is_white};
ghost use Rattle.eco_scan.specs.Reader.Machine as machine;
ghost use Rattle.eco_scan.specs.Reader.Machine.{Reached};
ghost use Rattle.eco_scan.specs.Reader.Points.{Draft, IsBegunAt, is_bare, is_bare_role, point_view, role_view};

use crate::classes::{grow, is_decimal_digit, is_name_byte, is_white_space};
use crate::point::{Point, Role};

// Where white space ends.
fn white_end(text: &[u8], at: usize) -> usize
    requires within { at ≤ length text.now }
    ensures behind { at ≤ result }
    ensures within { result ≤ length text.now }
    ensures ends { result < length text.now → is_white (slice_index text.now result) ≡ false }
    ensures reached { (start : machine.Point) (s : machine.Spot) → Reached start text.now at (machine.at s)
        → Reached start text.now result (machine.at s) }
{
    let mut end = at;
    while end < text.len() && is_white_space(text[end]) {
        end += 1;
    }
    end
}

// Where a name ends, or may grow no longer.
fn name_end(text: &[u8], at: usize, from: usize) -> usize
    requires within { at ≤ length text.now }
    requires begun { from < at }
    ensures behind { at ≤ result }
    ensures within { result ≤ length text.now }
    ensures ends { result < length text.now → result - from < 63
        → may_follow (slice_index text.now result) ≡ false }
    ensures reached { (start : machine.Point) (o : machine.Role)
        → Reached start text.now at (machine.name_of o from (slice_range text.now from at))
        → Reached start text.now result (machine.name_of o from (slice_range text.now from result)) }
{
    let mut end = at;
    while end < text.len() && end - from < 63 && is_name_byte(text[end]) {
        end += 1;
    }
    end
}

// Where an index ends, or may grow no longer, and the index so far.
#[tactic(auto, using(crate::proofs::Skipped::index_more))]
fn index_end(text: &[u8], at: usize, index: u32) -> (usize, u32)
    requires within { at ≤ length text.now }
    ensures behind { at ≤ result.0 }
    ensures within { result.0 ≤ length text.now }
    ensures reached { (start : machine.Point) (o : machine.Role) (from : ℕ)
        → Reached start text.now at (machine.index o from index)
        → Reached start text.now result.0 (machine.index o from result.1) }
{
    let (mut end, mut number) = (at, index);
    while end < text.len() && is_decimal_digit(text[end]) {
        let Some(longer) = grow(u32::MAX, number, text[end]) else {
            break;
        };
        number = longer;
        end += 1;
    }
    (end, number)
}

// The handle behind its `#`, up to the first digit of its generation, or as far as it goes.
fn handle_end<'a>(text: &'a [u8], at: usize, role: Role<'a>, from: usize) -> (usize, Point<'a>)
    requires within { at ≤ length text.now }
    ensures behind { at ≤ result.0 }
    ensures within { result.0 ≤ length text.now }
    ensures begun { IsBegunAt result.0 result.1 }
    ensures slots { is_bare result.1 ≡ is_bare_role role.entry }
    ensures reached { (start : machine.Point) (d : Draft)
        → Reached start text.now at (machine.hash (role_view d role.entry) from)
        → Reached start text.now result.0 (point_view text.now result.0 d result.1) }
{
    if at == text.len() || !is_decimal_digit(text[at]) {
        return (at, Point::Hash(role, from));
    }
    let (end, index) = index_end(text, at + 1, u32::from(text[at] - b'0'));
    if text.len() - end < 2 || text[end] != b'.' || !is_decimal_digit(text[end + 1]) {
        return (end, Point::Index(role, from, index));
    }
    let generation = u16::from(text[end + 1] - b'0');
    (end + 2, Point::Generation(role, from, index, generation))
}

/// Reads on over bytes that leave the reader between tokens, or inside of the same one, and over most of a
/// handle.
pub fn skip<'a>(text: &'a [u8], at: usize, point: Point<'a>) -> (usize, Point<'a>)
    requires within { at ≤ length text.now }
    requires begun { IsBegunAt at point }
    ensures behind { at ≤ result.0 }
    ensures within { result.0 ≤ length text.now }
    ensures begun { IsBegunAt result.0 result.1 }
    ensures slots { is_bare result.1 ≡ is_bare point.entry }
    ensures reached { (start : machine.Point) (d : Draft)
        → Reached start text.now at (point_view text.now at d point.entry)
        → Reached start text.now result.0 (point_view text.now result.0 d result.1) }
{
    match point {
        Point::At(_) => (white_end(text, at), point),
        Point::Name(_, from) => (name_end(text, at, from), point),
        Point::Hash(role, from) => handle_end(text, at, role, from),
        _ => (at, point),
    }
}
