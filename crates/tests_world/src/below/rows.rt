//! Tables get room, and rows move between them.
ghost use Rattle.std.specs.Prelude.{◌≡◌, length, IfOk};

use eco_ids::{Entity, Id, TableSlot, TypeList, Value};
use eco_tables::{Table, Tables};
use std::alloc::{AllocError, Global};

const FIRST: Entity = Entity {
    index: 20,
    generation: 0,
};

const SECOND: Entity = Entity {
    index: 21,
    generation: 3,
};

const POSITION: Id = Id::One(Entity {
    index: 9,
    generation: 0,
});

const WRITTEN: Value = Value([1, 2, 0, 0, 0, 0, 0, 0]);

// The type of who has a position.
fn positioned(alloc: Global) -> Result<TypeList, AllocError>
    ensures { IfOk result (λ type_list. length type_list ≡ 1) }
{
    TypeList::empty(alloc).with(POSITION)
}

// How many rows a table has that gets room twice, gives some back, and gets a row each time.
fn fill(table: &mut Table) -> Result<usize, AllocError> {
    table.reserve(5)?;
    table.shrink(1);
    table.push_row(FIRST);
    table.waive();
    table.reserve_more(1)?;
    table.push_row(SECOND);
    Ok(table.row_count())
}

// How many rows there are in a table of positions that is filled so.
fn filled(alloc: Global) -> Result<usize, AllocError> {
    let mut table = Table::new(alloc, positioned(alloc)?, &[2])?;
    fill(&mut table)
}

// The value of a table's first row, if it has one.
fn first_value(tables: &Tables, slot: TableSlot) -> Option<Value> {
    match tables.get(slot) {
        Some(table) if table.row_count() > 0 => table.find_value(0, POSITION),
        _ => None,
    }
}

// Moves a row with a written value to another table of the same type, which gets room for it. It tells the value there.
fn moved(alloc: Global, tables: &mut Tables) -> Result<Option<Value>, AllocError> {
    let from = tables.insert(positioned(alloc)?, &[2])?;
    let to = tables.insert(positioned(alloc)?, &[2])?;
    tables.reserve_rows(from, 1)?;
    tables.push_row(from, FIRST);
    // No column stands at the place that is told, so the id's is looked for.
    let mut near = 7;
    tables.set_value(from, 0, POSITION, WRITTEN, &mut near);
    tables.waive(to);
    tables.shrink(to, 0);
    tables.reserve_more(to, 1)?;
    tables.move_row(from, 0, to);
    Ok(first_value(tables, to))
}

// The value of a row that was moved, in a copy of its tables.
fn copied(alloc: Global, tables: &mut Tables) -> Result<Option<Value>, AllocError> {
    moved(alloc, tables)?;
    let copy = tables.try_copy()?;
    Ok(first_value(&copy, 1))
}

// Whether a moved row has its value, and so has its copy.
fn keep_values(alloc: Global) -> bool {
    moved(alloc, &mut Tables::new(alloc)) == Ok(Some(WRITTEN))
        && copied(alloc, &mut Tables::new(alloc)) == Ok(Some(WRITTEN))
}

#[test]
fn rows_keep_their_values(rt: HostRuntime) {
    assert!(rt; keep_values(rt.alloc()));
}

#[test]
fn tables_get_room(rt: HostRuntime) {
    assert!(rt; filled(rt.alloc()) == Ok(2));
}
