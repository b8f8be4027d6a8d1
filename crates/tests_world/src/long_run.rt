//! After each step of a long run a query answers what a plain filter finds, and the tables are those that a listing entity by entity
//! gives, and lend the values that each has, as the columns of ids do. After every second step all queries that are kept do so
//! too, and those of a copy.
use crate::answers::{count_asked, count_kept};
use crate::draws::RandomDraws;
use crate::layout::{agrees, lends_all};
use crate::questions::{Question, draw_question};
use crate::steps::take_step;
use eco_ids::Entity;
use eco_world::{QueryId, World};
use std::alloc::{AllocError, Global};

// How many results the question has, if all is what the filter finds.
fn count_answers(world: &World, question: &Question) -> Option<usize> {
    match world.read_query(question.text.as_str()) {
        Ok(query) => count_asked(world, &question.terms, &query),
        Err(_) => None,
    }
}

// Whether the query of this number, which the world and its copy keep, has so many results in both.
fn is_kept(world: &World, copy: &World, place: usize, question: &Question) -> bool {
    let count = count_answers(world, question);
    count.is_some()
        && count == count_kept(world, &question.terms, QueryId(place))
        && count == count_kept(copy, &question.terms, QueryId(place))
}

// Whether it is so of each query that both keep.
fn keep_each(world: &World, copy: &World, kept: &[Question]) -> bool {
    for (place, question) in kept.iter().enumerate() {
        if !is_kept(world, copy, place, question) {
            return false;
        }
    }
    true
}

// Whether it is so of each query that the world and a copy of it keep.
fn are_kept(world: &World, kept: &[Question]) -> bool {
    match world.try_copy() {
        Ok(copy) => keep_each(world, &copy, kept),
        Err(_) => false,
    }
}

// A question about the living.
fn draw(alloc: Global, world: &World, draws: &mut RandomDraws) -> Result<Question, AllocError> {
    let living = world.living()?;
    draw_question(alloc, draws, &living)
}

// Adds a question's query behind those that the world keeps.
fn keep(world: &mut World, kept: &mut Vec<Question>, question: Question) -> bool {
    match world.read_query(question.text.as_str()) {
        Ok(query) => kept.push(question).is_ok() & world.add_query(query).is_ok(),
        Err(_) => false,
    }
}

// Draws a question and adds its query.
fn keep_one(
    alloc: Global,
    world: &mut World,
    draws: &mut RandomDraws,
    kept: &mut Vec<Question>,
) -> bool {
    match draw(alloc, world, draws) {
        Ok(question) => keep(world, kept, question),
        Err(_) => false,
    }
}

// How many results a question about these has, if that is right, and the tables too.
fn ask(alloc: Global, world: &World, draws: &mut RandomDraws, living: &[Entity]) -> Option<usize> {
    match draw_question(alloc, draws, living) {
        Ok(question) => {
            if agrees(world) && lends_all(world) {
                count_answers(world, &question)
            } else {
                None
            }
        }
        Err(_) => None,
    }
}

// Takes a step, and tells how many results a question about those who lived before then has, if all is right.
fn take_and_ask(alloc: Global, world: &mut World, draws: &mut RandomDraws) -> Option<usize> {
    match world.living() {
        Ok(living) => {
            let _done_or_refused = take_step(alloc, world, draws, &living);
            ask(alloc, world, draws, &living)
        }
        Err(_) => None,
    }
}

// Adds five queries, and tells whether that was done.
fn keep_five(
    alloc: Global,
    world: &mut World,
    draws: &mut RandomDraws,
    kept: &mut Vec<Question>,
) -> bool {
    let mut are_kept = true;
    for _ in 0..5 {
        are_kept &= keep_one(alloc, world, draws, kept);
    }
    are_kept
}

// Takes 500 steps, and tells how many results were found, if all was right after each of them.
fn take_steps(
    alloc: Global,
    world: &mut World,
    draws: &mut RandomDraws,
    kept: &[Question],
) -> Option<usize> {
    let mut found = 0usize;
    for step in 0..500 {
        let count = take_and_ask(alloc, world, draws)?;
        found = found.saturating_add(count);
        if step % 2 == 0 && !are_kept(world, kept) {
            return None;
        }
    }
    Some(found)
}

// Whether all is right once five queries more are kept, and more than 250 results are found.
fn is_right(
    alloc: Global,
    world: &mut World,
    draws: &mut RandomDraws,
    kept: &mut Vec<Question>,
) -> bool {
    keep_five(alloc, world, draws, kept) && take_steps(alloc, world, draws, kept).unwrap_or(0) > 250
}

// Whether both halves of a run are right in a new world.
fn are_right(alloc: Global, seed: u64) -> bool {
    let mut draws = RandomDraws::new(seed);
    let mut kept = Vec::new(alloc);
    match World::new(alloc, 48) {
        Ok(mut world) => {
            is_right(alloc, &mut world, &mut draws, &mut kept)
                && is_right(alloc, &mut world, &mut draws, &mut kept)
        }
        Err(_) => false,
    }
}

#[test]
fn a_long_run_answers_what_a_filter_finds(rt: HostRuntime) {
    assert!(rt; are_right(rt.alloc(), 2026));
    assert!(rt; are_right(rt.alloc(), 7));
}
