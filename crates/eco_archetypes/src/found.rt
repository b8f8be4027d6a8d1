//! The tables that a pattern finds, and who stands in them.
ghost use Rattle.std.specs.Prelude.{◌≡◌, ◌<◌, ◌∷◌, ◌++◌, [], IfOk, OnErr, OnOk, length};
ghost use Rattle.std.specs.List.Sorted.{IsPermutation, IsSorted};
ghost use Rattle.eco_ids.specs.Order.{entity_cmp};
ghost use Rattle.eco_tables.specs.Table.{entities_of};
ghost use Rattle.eco_tables.specs.Tables.{table_in};
ghost use Rattle.eco_archetypes.specs.Archetypes.{standing_in};

use eco_ids::{Entity, TableSlot};
use eco_tables::Tables;
use smallvec::SmallVec;
use std::alloc::{AllocError, Global};

// So many slots are kept without memory: most searches find no more tables.
const INLINE_SLOTS: usize = 4;

/// Slots of tables that were found, which take memory only where there are more than four.
pub type FoundSlots = SmallVec<TableSlot, INLINE_SLOTS>;

/// All tables of a store, and the slots of those that were found, each once, in any order.
#[derive(Drop)]
pub struct Found<'a> {
    pub tables: &'a Tables,
    pub slots: FoundSlots,
}

/// Puts a slot behind those that were found before, of at most so many. Where there is no room, room for all of them is asked for
/// at once: what grows bit by bit is copied again and again.
pub(crate) fn put_behind(
    found: &mut FoundSlots,
    slot: TableSlot,
    most: usize,
) -> Result<(), AllocError>
    ensures { OnOk result (found.new.items ≡ found.old.items ++ slot ∷ []) }
{
    if found.len() == found.capacity() {
        found.reserve(most.max(1))?;
    }
    found.push_reserved(slot);
    Ok(())
}

/// The same, where those that were found before stand in a list.
#[inline]
pub(crate) fn put_in_list(
    found: &mut Vec<TableSlot>,
    slot: TableSlot,
    most: usize,
) -> Result<(), AllocError>
    ensures { OnOk result (found.new.items ≡ found.old.items ++ slot ∷ []) }
{
    if found.len() == found.capacity() {
        found.reserve(most.max(1))?;
    }
    found.push_reserved(slot);
    Ok(())
}

/// The entities that stand in the tables in these slots, in their order. An `Err` comes where memory is refused, and never
/// where there are no slots.
pub fn entities_in(
    alloc: Global,
    tables: &Tables,
    slots: &[TableSlot],
) -> Result<Vec<Entity>, AllocError>
    ensures all { IfOk result (λ v. IsPermutation (standing_in tables.now slots.now) v.items) }
    ensures sorted { IfOk result (λ v. IsSorted entity_cmp v.items) }
    ensures some { OnErr result (0 < length slots.now) }
{
    let mut entities = gather(alloc, tables, slots)?;
    entities.sort_unstable();
    Ok(entities)
}

// The entities that stand in the tables in these slots, table by table.
fn gather(alloc: Global, tables: &Tables, slots: &[TableSlot]) -> Result<Vec<Entity>, AllocError>
    ensures all { IfOk result (λ v. v.items ≡ standing_in tables.now slots.now) }
    ensures some { OnErr result (0 < length slots.now) }
{
    let mut entities = Vec::new(alloc);
    for slot in slots {
        entities.extend_from_slice(entities_at(tables, *slot))?;
    }
    Ok(entities)
}

// The entities that stand in the table in a slot; none, where the slot is empty.
fn entities_at(tables: &Tables, slot: TableSlot) -> &[Entity]
    ensures { result.now ≡ entities_of (table_in tables.now slot).rows }
{
    match tables.get(slot) {
        Some(table) => table.rows(),
        None => &[],
    }
}
