//! What is written of calls.
use crate::faults::lack::Lack;

/// Writes that the call begins.
pub fn begin_call<R: Eprint>(rt: &R) {
    let _written = eprintln!(rt; "faults: the call begins");
}

/// Writes that the call ends.
pub fn end_call<R: Eprint>(rt: &R) {
    let _written = eprintln!(rt; "faults: the call ends");
}

// The first lines that differ, if there are any.
fn difference<'a>(has: &'a str, wanted: &'a str) -> Option<(&'a str, &'a str)> {
    if has == wanted {
        return None;
    }
    let mut wanted_lines = wanted.lines();
    for line in has.lines() {
        match wanted_lines.next() {
            Some(expected) if line == expected => {}
            Some(expected) => return Some((line, expected)),
            None => break,
        }
    }
    Some(("another number of lines", "as many lines"))
}

// The line that begins at a place.
fn line_at(text: &str, place: usize) -> &str {
    match text.get(place..) {
        Some(rest) => rest.lines().next().unwrap_or(""),
        None => "",
    }
}

/// Writes what came of a call, and answers whether it was no fault. The texts are those of the world on which it was made, and of
/// that which followed; the line that begins at this place has the answer behind a space, an empty one that it is done.
pub fn tell<R: Print>(
    rt: &R,
    name: &str,
    (lack, place): (Lack, usize),
    has: &str,
    wanted: &str,
) -> bool {
    if let Some((line, expected)) = difference(has, wanted) {
        let _written = println!(rt; "{name} FAULT has: {line}; wanted: {expected}");
        return false;
    }
    let word = if lack.is_some() { "refused" } else { "done" };
    let answer = match line_at(has, place) {
        "" => " ok",
        answer => answer,
    };
    let _written = println!(rt; "{name} {word}{answer}");
    true
}
