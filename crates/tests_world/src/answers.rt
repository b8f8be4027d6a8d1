//! What queries answer, held against what a plain filter finds.
use crate::filter::{count_choices, is_choice};
use eco_ids::{Entity, Id};
use eco_query::Term;
use eco_world::{Query, QueryId, Results, Row, TableRows, World};

// How many choices these have.
fn count_of(world: &World, living: &[Entity], terms: &[Term]) -> usize {
    let mut count = 0usize;
    for entity in living {
        count = count.saturating_add(count_choices(world, *entity, terms));
    }
    count
}

// Whether all who live have so many choices.
fn have_choices(world: &World, terms: &[Term], count: usize) -> bool {
    match world.living() {
        Ok(living) => count_of(world, &living, terms) == count,
        Err(_) => false,
    }
}

// Whether a result comes behind the last one, if there is one.
fn is_next(last: Option<(Entity, &[Option<Id>])>, next: (Entity, &[Option<Id>])) -> bool {
    match last {
        Some(last) => last < next,
        None => true,
    }
}

// Whether a result is a choice of a living entity.
fn is_one(world: &World, terms: &[Term], (entity, entries): (Entity, &[Option<Id>])) -> bool {
    world.is_alive(entity) && is_choice(world, entity, terms, entries)
}

// Whether the results are choices, each of a living entity, and ascend.
fn are_choices(world: &World, terms: &[Term], results: &Results) -> bool {
    let mut last = None;
    for result in results.iter() {
        if !is_next(last, result) || !is_one(world, terms, result) {
            return false;
        }
        last = Some(result);
    }
    true
}

// Whether there is a row, and it is this result.
fn is_row(row: Option<&Row>, (entity, entries): (Entity, &[Option<Id>])) -> bool {
    match row {
        Some(row) => entity.is(row.entity) && entries == row.entries.as_slice(),
        None => false,
    }
}

// Whether the rows are the results, one after the other.
fn are_rows(results: &Results, rows: &[Row]) -> bool {
    for place in 0..results.len() {
        if !is_row(rows.get(place), results.get(place)) {
            return false;
        }
    }
    rows.len() == results.len()
}

// Whether the results are all choices, each once.
fn are_all(world: &World, terms: &[Term], results: &Results) -> bool {
    have_choices(world, terms, results.len()) && are_choices(world, terms, results)
}

// Whether there is a choice for each term on those who stand in the table.
fn is_chosen(world: &World, terms: &[Term], table: &TableRows<'_>) -> bool {
    match table.entities {
        [entity, ..] => count_choices(world, *entity, terms) > 0,
        [] => false,
    }
}

// Whether both are the same table.
fn is_same(table: &TableRows<'_>, other: &TableRows<'_>) -> bool {
    table.ids == other.ids && table.entities == other.entities
}

// Whether the tables are those of the whole listing that have choices.
fn are_chosen(
    world: &World,
    terms: &[Term],
    listed: &[TableRows<'_>],
    tables: &[TableRows<'_>],
) -> bool {
    let mut rest = tables;
    for table in listed {
        if is_chosen(world, terms, table) {
            match rest {
                [first, others @ ..] if is_same(first, table) => rest = others,
                _ => return false,
            }
        }
    }
    rest.is_empty()
}

// Whether they are those of the world that have choices.
fn are_tables(world: &World, terms: &[Term], tables: &[TableRows<'_>]) -> bool {
    match world.tables() {
        Ok(listed) => are_chosen(world, terms, &listed, tables),
        Err(_) => false,
    }
}

// Whether the rows of a query are the results.
fn has_rows(world: &World, query: &Query, results: &Results) -> bool {
    match world.query(query) {
        Ok(rows) => are_rows(results, &rows),
        Err(_) => false,
    }
}

// Whether the tables of a query are those that have choices.
fn has_tables(world: &World, terms: &[Term], query: &Query) -> bool {
    match world.tables_of(query) {
        Ok(tables) => are_tables(world, terms, &tables),
        Err(_) => false,
    }
}

/// How many results the query of the terms has, if they, the rows and the tables are what the filter finds.
pub fn count_asked(world: &World, terms: &[Term], query: &Query) -> Option<usize> {
    match world.results(query) {
        Ok(results) => {
            let is_right = are_all(world, terms, &results)
                && has_rows(world, query, &results)
                && has_tables(world, terms, query);
            is_right.then_some(results.len())
        }
        Err(_) => None,
    }
}

// Whether the rows of a query that the world keeps are the results.
fn keeps_rows(world: &World, number: QueryId, results: &Results) -> bool {
    match world.answer(number) {
        Ok(rows) => are_rows(results, &rows),
        Err(_) => false,
    }
}

// Whether the tables of a query that the world keeps are those that have choices.
fn keeps_tables(world: &World, terms: &[Term], number: QueryId) -> bool {
    match world.tables_of_query(number) {
        Ok(tables) => are_tables(world, terms, &tables),
        Err(_) => false,
    }
}

/// The same of a query that the world keeps.
pub fn count_kept(world: &World, terms: &[Term], number: QueryId) -> Option<usize> {
    match world.answer_results(number) {
        Ok(results) => {
            let is_right = are_all(world, terms, &results)
                && keeps_rows(world, number, &results)
                && keeps_tables(world, terms, number);
            is_right.then_some(results.len())
        }
        Err(_) => None,
    }
}
