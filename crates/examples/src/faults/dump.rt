//! Worlds as texts: all that a world tells.
use eco_ids::{Entity, FIELD_COUNT, Refusal, Value};
use eco_world::{QueryId, Row, TableRows, World};
use std::alloc::{AllocError, Global};
use std::fmt::{Debug, Display};

// More than any world here keeps: beyond them a world answers that there is no such query.
const QUERIES: usize = 4;

/// Writes something behind a space.
pub fn push<T: Display>(text: &mut String, word: &T) -> Result<(), AllocError> {
    write!(text, " {word}")
}

/// Writes all that a value has on a line of its own.
pub fn push_debug<T: Debug>(text: &mut String, value: &T) -> Result<(), AllocError> {
    write!(text, "{value:?}\n")
}

// A row of a query: who it is, and its entries, `-` for none.
fn push_row(text: &mut String, row: &Row) -> Result<(), AllocError> {
    push(text, &row.entity)?;
    for entry in &row.entries {
        match entry {
            Some(id) => push(text, id)?,
            None => text.push_str(" -")?,
        }
    }
    Ok(())
}

/// The rows of a query.
pub fn push_rows(text: &mut String, rows: &[Row]) -> Result<(), AllocError> {
    for row in rows {
        push_row(text, row)?;
    }
    Ok(())
}

// An entity: its handle, its name, its arity, and its ids, each with all fields of its value where it is data.
fn push_entity(text: &mut String, world: &World, entity: Entity) -> Result<(), AllocError> {
    let name = world.name_of(entity).unwrap_or("-");
    let arity = world.arity_of(entity).unwrap_or(0);
    write!(text, " {entity} {name} {arity}")?;
    for id in world.ids_of(entity) {
        let value = world.get(entity, *id).unwrap_or(Value::ZERO);
        let fields = value.fields(FIELD_COUNT);
        write!(text, " {id} {fields}")?;
    }
    text.push_str("\n")
}

// A table: its type, and who stands in it, ascending.
fn push_table(text: &mut String, alloc: Global, table: &TableRows<'_>) -> Result<(), AllocError> {
    let mut entities = Vec::from_slice(alloc, table.entities)?;
    entities.sort_unstable();
    push_debug(text, &table.ids)?;
    push_debug(text, &entities)
}

// The answer of the query of this number, and how many tables it has.
fn push_query(text: &mut String, world: &World, number: usize) -> Result<(), AllocError> {
    let count = match world.tables_of_query(QueryId(number)) {
        Ok(tables) => tables.len(),
        Err(_) => 0,
    };
    write!(text, " {number} {count}")?;
    match world.answer(QueryId(number)) {
        Ok(rows) => push_rows(text, &rows)?,
        Err(refusal) => push(text, &refusal)?,
    }
    text.push_str("\n")
}

// All tables in their order.
fn push_tables(text: &mut String, alloc: Global, world: &World) -> Result<(), AllocError> {
    for table in &world.tables()? {
        push_table(text, alloc, table)?;
    }
    Ok(())
}

// Who lives, and what each has.
fn push_entities(text: &mut String, world: &World) -> Result<(), AllocError> {
    for entity in &world.living()? {
        push_entity(text, world, *entity)?;
    }
    Ok(())
}

// What the queries answer that were added to the world.
fn push_queries(text: &mut String, world: &World) -> Result<(), AllocError> {
    for number in 0..QUERIES {
        push_query(text, world, number)?;
    }
    Ok(())
}

/// All that a world tells: who lives, with names, arities, ids and values; how many indices are known; its tables; and what the
/// queries answer that were added to it.
pub fn push_world(text: &mut String, alloc: Global, world: &World) -> Result<(), AllocError> {
    push(text, &world.high())?;
    push_entities(text, world)?;
    push_tables(text, alloc, world)?;
    push_queries(text, world)
}
