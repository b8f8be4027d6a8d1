//! The tables of a world, held against what each entity has.
use eco_ids::{Entity, Id, Value};
use eco_world::{Column, TableRows, Values, World};

// Whether the ids come behind those of the table before, if there is one.
fn is_next(before: Option<&TableRows<'_>>, ids: &[Id]) -> bool {
    match before {
        Some(table) => table.ids.cmp(ids).is_lt(),
        None => true,
    }
}

// Whether no table is empty, and the types ascend, all different.
fn are_in_order(tables: &[TableRows<'_>]) -> bool {
    let mut before = None;
    for table in tables {
        if table.entities.is_empty() || !is_next(before, table.ids) {
            return false;
        }
        before = Some(table);
    }
    true
}

// How many entities the tables have.
fn count_rows(tables: &[TableRows<'_>]) -> usize {
    let mut count = 0usize;
    for table in tables {
        count = count.saturating_add(table.entities.len());
    }
    count
}

// Whether the entity is one of these.
fn is_among(entities: &[Entity], entity: Entity) -> bool {
    for own in entities {
        if own.is(entity) {
            return true;
        }
    }
    false
}

// Whether the entity stands in a table of its ids.
fn is_listed(world: &World, tables: &[TableRows<'_>], entity: Entity) -> bool {
    let ids = world.ids_of(entity);
    for table in tables {
        if table.ids == ids && is_among(table.entities, entity) {
            return true;
        }
    }
    false
}

// Whether the entity has the value of two fields, if there is one.
fn has_value(world: &World, entity: Entity, id: Id, row: Option<&[i64; 2]>) -> bool {
    match row {
        Some(row) => world.get(entity, id) == Some(Value::of(*row)),
        None => false,
    }
}

// Whether the entities have these values of two fields.
fn have_values(world: &World, entities: &[Entity], id: Id, rows: &[[i64; 2]]) -> bool {
    for (place, entity) in entities.iter().enumerate() {
        if !has_value(world, *entity, id, rows.get(place)) {
            return false;
        }
    }
    rows.len() == entities.len()
}

// Whether the column has two fields of each of its entities, as the world has them.
fn is_column(world: &World, column: Column<'_>, id: Id) -> bool {
    match column.values {
        Values::Two(rows) => have_values(world, column.entities, id, rows),
        _ => false,
    }
}

// How many rows the columns of an id have, if each of them is right.
fn count_column_rows(world: &World, id: Id) -> Option<usize> {
    let mut count = 0usize;
    for column in world.columns(id) {
        if !is_column(world, column, id) {
            return None;
        }
        count = count.saturating_add(column.entities.len());
    }
    Some(count)
}

// How many entities of the tables have the id.
fn count_holders(tables: &[TableRows<'_>], id: Id) -> usize {
    let mut count = 0usize;
    for table in tables {
        if table.ids.contains(&id) {
            count = count.saturating_add(table.entities.len());
        }
    }
    count
}

// Whether the columns of an id have as many rows as entities have it, each with its value, and none where it is no data.
fn are_columns(world: &World, tables: &[TableRows<'_>], id: Id) -> bool {
    let holders = match world.arity(id) {
        Some(_) => count_holders(tables, id),
        None => 0,
    };
    count_column_rows(world, id) == Some(holders)
}

// Whether they do so for each of the ids.
fn are_columns_of(world: &World, tables: &[TableRows<'_>], ids: &[Id]) -> bool {
    for id in ids {
        if !are_columns(world, tables, *id) {
            return false;
        }
    }
    true
}

// Whether the table lends the values of an id as those of the entities: two fields of each, or nothing where it is no data.
fn lends(world: &World, table: &TableRows<'_>, id: Id) -> bool {
    match table.values(id) {
        Some(Values::Two(rows)) => have_values(world, table.entities, id, rows),
        Some(_) => false,
        None => world.arity(id).is_none(),
    }
}

// Whether the table lends the values of each of its ids so.
fn lends_each(world: &World, table: &TableRows<'_>) -> bool {
    for id in table.ids {
        if !lends(world, table, *id) {
            return false;
        }
    }
    true
}

// Whether each of the tables does so, and the columns of its ids have just the rows of those tables.
fn lend_each(world: &World, tables: &[TableRows<'_>]) -> bool {
    for table in tables {
        if !lends_each(world, table) || !are_columns_of(world, tables, table.ids) {
            return false;
        }
    }
    true
}

/// Whether each table lends the values of each of its ids so, and each id its columns.
pub fn lends_all(world: &World) -> bool {
    match world.tables() {
        Ok(tables) => lend_each(world, &tables),
        Err(_) => false,
    }
}

// Whether the tables list each of these, by the own ids.
fn list_each(world: &World, tables: &[TableRows<'_>], living: &[Entity]) -> bool {
    for entity in living {
        if !is_listed(world, tables, *entity) {
            return false;
        }
    }
    true
}

// Whether the tables are in order, and list each of these once.
fn list_once(world: &World, tables: &[TableRows<'_>], living: &[Entity]) -> bool {
    are_in_order(tables) && count_rows(tables) == living.len() && list_each(world, tables, living)
}

// Whether the world's tables do so.
fn are_listed(world: &World, living: &[Entity]) -> bool {
    match world.tables() {
        Ok(tables) => list_once(world, &tables, living),
        Err(_) => false,
    }
}

/// Whether the tables list each who lives once, by the own ids.
pub fn agrees(world: &World) -> bool {
    match world.living() {
        Ok(living) => are_listed(world, &living),
        Err(_) => false,
    }
}
