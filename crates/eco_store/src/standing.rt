//! Who stands in the tables of some slots.
ghost use Rattle.std.specs.Prelude.{◌≡◌, ◌+◌, ◌-◌, ◌<◌, ◌≤◌, ◌++◌, length, map, IfOk, IfSome, IsSome, IsTrue, OnOk, OnErr};
ghost use Rattle.std.specs.List.Sorted.{IsSorted, IsSortedByKey};
ghost use Rattle.eco_ids.specs.Order.{entity_cmp};
ghost use Rattle.eco_tables.specs.Table.{entities_of};
ghost use Rattle.eco_tables.specs.Tables.{table_in};
ghost use Rattle.eco_store.specs.Ranking.{in_first, standings, AreRanked, AscendTo};
ghost use Rattle.eco_store.specs.declared.standing.Standing.{Standing as Stands};

use crate::ranked::Ranked;
use eco_archetypes::{Archetypes, FoundSlots};
use eco_ids::{Entity, TableSlot};
use eco_tables::Tables;
use std::alloc::{AllocError, Global};

// So many entities take a small part of the nearest cache. Of a million rows, longer chunks took more time.
const CHUNK: usize = 128;

// So many are compared with no test of the place between them.
const RUN: usize = 8;

/// An entity, and the place of its table among some.
#[derive(Clone, Copy, Debug)]
pub struct Standing {
    pub entity: Entity,
    pub place: usize,
}

/// All tables of a store, with what finds them, the slots of those that a test finds, each once, and all who stand in these,
/// ascending, each with the place of its table among the slots.
#[derive(Drop)]
pub struct Standings<'a> {
    pub tables: &'a Archetypes,
    pub slots: FoundSlots,
    pub list: Ranked,
}

/// All who stand in one table whose rows ascend as they stand, as rows mostly do that were made one after another: then they are
/// copied, and nothing else is to do. None where there are several tables, and where some row is below the one before it; it
/// looks no further than there. An `Err` comes where memory is refused, and never where there are no slots.
pub(crate) fn in_order(
    alloc: Global,
    tables: &Tables,
    slots: &[TableSlot],
) -> Result<Option<Ranked>, AllocError>
    ensures ranked { IfOk result (λ o. IfSome o (λ v. AreRanked (standings 0 tables.now slots.now) v)) }
    ensures some { OnErr result (0 < length slots.now) }
{
    match slots {
        [slot] => alone(alloc, entities_at(tables, *slot)),
        _ => Ok(None),
    }
}

// All who stand in one table, where they ascend as they stand. One who stands there alone takes no memory.
fn alone(alloc: Global, entities: &[Entity]) -> Result<Option<Ranked>, AllocError>
    ensures { IfOk result (λ o. IfSome o (λ v. AreRanked (map in_first entities.now) v)) }
{
    match entities {
        [only] => Ok(Some(Ranked::only(*only))),
        _ => together(alloc, entities),
    }
}

// The same of any number.
fn together(alloc: Global, entities: &[Entity]) -> Result<Option<Ranked>, AllocError>
    ensures { IfOk result (λ o. IfSome o (λ v. AreRanked (map in_first entities.now) v)) }
{
    match copied(alloc, entities)? {
        Some(list) => Ok(Some(Ranked::alone(list))),
        None => Ok(None),
    }
}

// The same entities once more, where they ascend as they stand. Each chunk is looked at and copied while the nearest cache
// holds it, so that many are fetched from memory once.
fn copied(alloc: Global, entities: &[Entity]) -> Result<Option<Vec<Entity>>, AllocError>
    ensures same { IfOk result (λ o. IfSome o (λ list. list.items ≡ entities.now)) }
    ensures ascending { IfOk result (λ o. IsSome o → IsSorted entity_cmp entities.now) }
{
    let mut list = Vec::with_capacity(alloc, entities.len())?;
    while list.len() < entities.len() {
        let from = list.len();
        let to = from + CHUNK.min(entities.len() - from);
        if !ascend_on(entities, from, to) {
            return Ok(None);
        }
        list.extend_from_slice(&entities[from..to])?;
    }
    Ok(Some(list))
}

/// All who stand in the tables of these slots, ascending: they are sorted. An `Err` comes where memory is refused, and never where
/// there are no slots.
pub(crate) fn ranked(
    alloc: Global,
    tables: &Tables,
    slots: &[TableSlot],
) -> Result<Ranked, AllocError>
    ensures ranked { IfOk result (λ v. AreRanked (standings 0 tables.now slots.now) v) }
    ensures some { OnErr result (0 < length slots.now) }
{
    match slots {
        [slot] => sorted(alloc, entities_at(tables, *slot)),
        _ => among(alloc, tables, slots),
    }
}

// All who stand in one table, sorted.
fn sorted(alloc: Global, entities: &[Entity]) -> Result<Ranked, AllocError>
    ensures { IfOk result (λ v. AreRanked (map in_first entities.now) v) }
{
    let mut list = Vec::from_slice(alloc, entities)?;
    list.sort_unstable();
    Ok(Ranked::alone(list))
}

// Whether the entities from one place on up to another ascend as they stand, and go on from the one before them. Most are taken in
// runs of a fixed length, since the compiler unrolls such a loop.
fn ascend_on(entities: &[Entity], from: usize, to: usize) -> bool
    requires ordered { from ≤ to }
    requires within { to ≤ length entities.now }
    ensures { IsTrue result → AscendTo entities.now from → AscendTo entities.now to }
{
    let mut place = from.max(1);
    while place + RUN <= to {
        if !run_ascends(entities, place, RUN) {
            return false;
        }
        place += RUN;
    }
    run_ascends(entities, place, to.saturating_sub(place))
}

// The same of so many entities from a place on, one by one.
fn run_ascends(entities: &[Entity], place: usize, count: usize) -> bool
    requires after { 0 < place }
    requires within { count ≤ length entities.now - place }
    ensures { IsTrue result → AscendTo entities.now place → AscendTo entities.now (place + count) }
{
    for step in 0..count {
        if entities[place + step].index <= entities[place + step - 1].index {
            return false;
        }
    }
    true
}

// All who stand in the tables of several slots, ascending.
fn among(alloc: Global, tables: &Tables, slots: &[TableSlot]) -> Result<Ranked, AllocError>
    ensures ranked { IfOk result (λ v. AreRanked (standings 0 tables.now slots.now) v) }
    ensures some { OnErr result (0 < length slots.now) }
{
    let mut list = gathered(alloc, tables, slots)?;
    sort(&mut list);
    Ok(Ranked::among(list))
}

// The same, ascending. Rows that were made one after another mostly ascend as they stand, and nothing is to do.
fn sort(list: &mut Vec<Standing>)
    ensures { AreRanked list.old.items list.new.items }
{
    if !ascends(list) {
        sort_all(list);
    }
}

// The same, sorted.
fn sort_all(list: &mut Vec<Standing>)
    ensures { AreRanked list.old.items list.new.items }
{
    list.sort_unstable_by_key(|s| s.entity);
}

// Whether they ascend as they stand.
fn ascends(list: &[Standing]) -> bool
    ensures { IsTrue result → IsSortedByKey (λ (s : Stands). s.entity) entity_cmp list.now }
{
    for place in 1..list.len() {
        if list[place].entity.index <= list[place - 1].entity.index {
            return false;
        }
    }
    true
}

// All who stand in the tables of these slots, table by table.
fn gathered(
    alloc: Global,
    tables: &Tables,
    slots: &[TableSlot],
) -> Result<Vec<Standing>, AllocError>
    ensures all { IfOk result (λ v. v.items ≡ standings 0 tables.now slots.now) }
    ensures some { OnErr result (0 < length slots.now) }
{
    let mut list = Vec::with_capacity(alloc, row_count(tables, slots))?;
    for place in 0..slots.len() {
        add_standing(&mut list, entities_at(tables, slots[place]), place)?;
    }
    Ok(list)
}

// How many stand there.
pub(crate) fn row_count(tables: &Tables, slots: &[TableSlot]) -> usize
    ensures { 0 < result → 0 < length slots.now }
{
    let mut count: usize = 0;
    for slot in slots {
        count = count.saturating_add(tables.row_count(*slot));
    }
    count
}

// Puts entities that stand at a place behind others.
fn add_standing(
    list: &mut Vec<Standing>,
    entities: &[Entity],
    place: usize,
) -> Result<(), AllocError>
    ensures { OnOk result (list.new.items
        ≡ list.old.items ++ map (λ e. record { entity = e; place = place }) entities.now) }
{
    list.reserve(entities.len())?;
    for entity in entities {
        list.push_reserved(Standing {
            entity: *entity,
            place,
        });
    }
    Ok(())
}

// The entities that stand in the table in a slot; none, where the slot is empty.
fn entities_at(tables: &Tables, slot: TableSlot) -> &[Entity]
    ensures { result.now ≡ entities_of (table_in tables.now slot).rows }
{
    match tables.get(slot) {
        Some(table) => table.rows(),
        None => &[],
    }
}
