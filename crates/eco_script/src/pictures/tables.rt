//! Pictures of tables.

use crate::named::NamedId;
use crate::pictures::names::push_entity;
use crate::pictures::pen::Pen;
use crate::svg::Ink;
use eco_ids::{Entity, Id};
use eco_world::{TableRows, World};
use std::alloc::{AllocError, Global};

// How many entities of a table are named.
const NAMED: usize = 8;

// Adds the name of an entity of a list, by its place there: a comma stands before each but the first.
fn push_next(
    text: &mut String,
    world: &World,
    place: usize,
    entity: Entity,
) -> Result<(), AllocError> {
    text.push_str(if place == 0 { "" } else { ", " })?;
    push_entity(text, world, entity)
}

// Adds how many more there are, if there are any.
fn push_more(text: &mut String, more: usize) -> Result<(), AllocError> {
    if more > 0 {
        write!(text, " and {more} more")
    } else {
        Ok(())
    }
}

// Adds the names of entities.
fn push_names(text: &mut String, world: &World, entities: &[Entity]) -> Result<(), AllocError> {
    for (place, entity) in entities.iter().enumerate() {
        push_next(text, world, place, *entity)?;
    }
    Ok(())
}

// Adds who is in a table, the first of them by their names.
fn push_rows(text: &mut String, world: &World, entities: &[Entity]) -> Result<(), AllocError> {
    let (named, others) = entities.split_at(entities.len().min(NAMED));
    push_names(text, world, named)?;
    push_more(text, others.len())
}

impl Pen<'_> {
    // Writes how many rows a table has.
    fn write_count(&mut self, number: usize, count: usize) -> Result<(), AllocError> {
        let rows = if count == 1 { "row" } else { "rows" };
        write!(self.text, "table {number}: {count} {rows}")?;
        self.write(0, Ink::Head)
    }

    // Writes the ids of a table, a line each.
    fn write_ids(&mut self, ids: &[Id]) -> Result<(), AllocError> {
        if ids.is_empty() {
            return self.sheet.line(14, Ink::Plain, "no ids");
        }
        let world = self.world;
        for id in ids {
            let named = NamedId { world, id: *id };
            write!(self.text, "{named}")?;
            self.write(14, Ink::Plain)?;
        }
        Ok(())
    }

    // Writes who is in a table.
    fn write_rows(&mut self, entities: &[Entity]) -> Result<(), AllocError> {
        push_rows(&mut self.text, self.world, entities)?;
        self.write(14, Ink::Faint)
    }

    // Draws a table.
    fn draw_table(&mut self, number: usize, table: &TableRows<'_>) -> Result<(), AllocError> {
        let top = self.sheet.open_frame();
        self.write_count(number, table.entities.len())?;
        self.write_ids(table.ids)?;
        self.write_rows(table.entities)?;
        self.sheet.close_frame(top)
    }

    fn draw_tables(&mut self, tables: &[TableRows<'_>]) -> Result<(), AllocError> {
        for (number, table) in tables.iter().enumerate() {
            self.draw_table(number, table)?;
            self.sheet.skip(8);
        }
        Ok(())
    }
}

/// A picture of the tables of a world, as SVG: of each its number from 0, how many rows it has, its ids, and who has them, the
/// first eight by their names.
///
/// `AllocError` comes where memory for it is refused.
pub fn tables_svg(alloc: Global, world: &World) -> Result<String, AllocError> {
    let tables = world.tables()?;
    let mut pen = Pen::new(alloc, world);
    pen.draw_tables(tables.as_slice())?;
    pen.sheet.svg("The tables of a world")
}
