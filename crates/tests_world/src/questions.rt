//! Queries that look random, of up to five slots.
use crate::draws::RandomDraws;
use crate::steps::draw_id;
use eco_ids::{Entity, Id, Part, Pattern};
use eco_query::Term;
use std::alloc::{AllocError, Global};

/// What a text asks, and the text.
pub struct Question {
    pub terms: Vec<Term>,
    pub text: String,
}

// By hand, so that dropping it is one call: a derived drop is proved anew at each early return of whoever holds it.
impl Drop for Question {
    fn drop(self) {
        let Question { terms: _, text: _ } = self;
    }
}

const ACCESSES: [&str; 5] = ["", "[in] ", "[out]", "[ inout ]\t", "[none]\n"];

fn draw_part(draws: &mut RandomDraws, own: Entity) -> Part {
    match draws.below(5) {
        0..=1 => Part::Each,
        2 => Part::Any,
        _ => Part::Is(own),
    }
}

// What an id matches, and mostly others too.
fn draw_pattern(draws: &mut RandomDraws, living: &[Entity]) -> Pattern {
    match draw_id(draws, living) {
        Id::One(own) => Pattern::One(own),
        Id::Two(own, target) => Pattern::Two(draw_part(draws, own), draw_part(draws, target)),
    }
}

// Two or three ids.
fn draw_alternatives(
    alloc: Global,
    draws: &mut RandomDraws,
    living: &[Entity],
) -> Result<Vec<Id>, AllocError> {
    let (first, second) = (draw_id(draws, living), draw_id(draws, living));
    match draws.below(2) {
        0 => Vec::from_slice(alloc, &[first, second]),
        _ => Vec::from_slice(alloc, &[first, second, draw_id(draws, living)]),
    }
}

// A term of one of nine kinds, of which the first five ask that something is there.
fn draw_term(
    alloc: Global,
    draws: &mut RandomDraws,
    living: &[Entity],
    kind: u32,
) -> Result<Term, AllocError> {
    match kind {
        0..=3 => Ok(Term::And(draw_pattern(draws, living))),
        4 => Ok(Term::Or(draw_alternatives(alloc, draws, living)?)),
        5..=6 => Ok(Term::Not(draw_pattern(draws, living))),
        _ => Ok(Term::Optional(draw_id(draws, living))),
    }
}

// Puts a term behind those of the text, with some access.
fn push_term(
    text: &mut String,
    draws: &mut RandomDraws,
    between: &str,
    term: &Term,
) -> Result<(), AllocError> {
    let access = ACCESSES[draws.below(5) as usize];
    write!(text, "{between}{access}{term}")
}

// One more term, of this kind.
fn add_term(
    alloc: Global,
    question: &mut Question,
    draws: &mut RandomDraws,
    living: &[Entity],
    kind: u32,
) -> Result<(), AllocError> {
    let term = draw_term(alloc, draws, living, kind)?;
    let between = if question.terms.is_empty() { "" } else { " ," };
    push_term(&mut question.text, draws, between, &term)?;
    question.terms.push(term)?;
    Ok(())
}

// Up to five terms, of which the first asks that something is there.
fn add_terms(
    alloc: Global,
    question: &mut Question,
    draws: &mut RandomDraws,
    living: &[Entity],
) -> Result<(), AllocError> {
    for place in 0..1 + draws.below(5) {
        let kinds = if place == 0 { 5 } else { 9 };
        let kind = draws.below(kinds);
        add_term(alloc, question, draws, living, kind)?;
    }
    Ok(())
}

/// A query about the living.
pub fn draw_question(
    alloc: Global,
    draws: &mut RandomDraws,
    living: &[Entity],
) -> Result<Question, AllocError> {
    let mut question = Question {
        terms: Vec::new(alloc),
        text: String::new(alloc),
    };
    add_terms(alloc, &mut question, draws, living)?;
    Ok(question)
}
