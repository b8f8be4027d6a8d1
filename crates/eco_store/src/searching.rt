//! Who passes a test of their ids, each with its table.
ghost use Rattle.std.specs.Prelude.{◌≡◌, ◌<◌, Bool, List, length, map, IsSome, IsTrue, IfOk, OnErr};
ghost use Rattle.std.specs.List.{All, list_any};
ghost use Rattle.eco_archetypes.specs.Archetypes.{IsAllFound};
ghost use Rattle.eco_ids.specs.Indices.{living};
ghost use Rattle.eco_ids.specs.declared.id.Id.{Id as Ids};
ghost use Rattle.eco_tables.specs.Tables.{slot_of};
ghost use Rattle.eco_archetypes.specs.Holders.{passes, entities_whose};
ghost use Rattle.eco_archetypes.specs.Shown.{read, AreHoused, IsStore};
ghost use Rattle.eco_store.specs.Ranking.{StandsIn};
ghost use Rattle.eco_store.specs.declared.standing.Standing.{Standing as Stands};

use crate::ranked::Ranked;
use crate::standing::{Standings, in_order, ranked, row_count};
use crate::walking::walked;
use eco_archetypes::{Places, TypeTest};
use eco_entities::EntityIndex;
use eco_ids::TableSlot;
use eco_tables::Tables;
use std::alloc::{AllocError, Global};

// So many indices cost no more to look at than one entity to sort.
const INDICES_PER_ENTITY: usize = 16;

// Tables that are found have rows. Where there are so few indices for each, a list of who stands there that grows costs no more
// than a look at each table.
const INDICES_PER_TABLE: usize = 4;

// How many stand in the tables of these slots, or fewer, where these are many among the indices.
fn count_among(tables: &Tables, slots: &[TableSlot], indices: usize) -> usize
    ensures { 0 < result → 0 < length slots.now }
{
    if slots.len() >= indices / INDICES_PER_TABLE {
        slots.len()
    } else {
        row_count(tables, slots)
    }
}

// All who stand in the tables of these slots, ascending: as they stand, where it is one table whose rows ascend; else by a walk
// over the indices where they are many of those who live, and by sorting them where they are few. An `Err` comes where memory
// is refused, and never where there are no slots.
fn standing_in(
    alloc: Global,
    entities: &EntityIndex,
    tables: &Tables,
    slots: &[TableSlot],
) -> Result<Ranked, AllocError>
    requires store { IsStore entities.now tables.now }
    requires housed { AreHoused (length tables.now) entities.now }
    requires there { All (λ n. IsSome (slot_of tables.now n)) slots.now }
    ensures all { IfOk result (λ v. (test : List Ids → Bool) → IsAllFound test tables.now slots.now
        → map (λ (x : Stands). x.entity) v ≡ entities_whose (read entities.now tables.now) test) }
    ensures placed { IfOk result (λ v. All
        (StandsIn (read entities.now tables.now) tables.now slots.now) v) }
    ensures some { OnErr result (0 < length slots.now) }
{
    eco_ids::order::handles_are_ordered();
    eco_ids::order::ascending_lists_are_sets();
    tables.rows_have_ids();
    if let Some(list) = in_order(alloc, tables, slots)? {
        return Ok(list);
    }
    let indices = entities.high() as usize;
    let count = count_among(tables, slots, indices);
    if 0 < count && indices / INDICES_PER_ENTITY <= count {
        let list = walked(alloc, entities, tables.slot_count(), slots, count)?;
        Ok(Ranked::among(list))
    } else {
        ranked(alloc, tables, slots)
    }
}

/// The living entities whose types pass the test, ascending, each with the place of its table among those that the test
/// finds. Its time grows with how many they are, and with the tables that the shortest group of the test's patterns finds.
/// An `Err` comes where memory is refused, and never where nobody passes.
pub(crate) fn standing_by<'a, T: TypeTest>(
    alloc: Global,
    places: &Places<'a>,
    test: &T,
) -> Result<Standings<'a>, AllocError>
    ensures all { IfOk result (λ s. map (λ (x : Stands). x.entity) s.list
        ≡ entities_whose places.now.entities (T.test test.now)) }
    ensures placed { IfOk result (λ s. All
        (StandsIn places.now.entities s.tables.now s.slots.items) s.list) }
    ensures found { IfOk result (λ s. IsAllFound (T.test test.now) s.tables.now s.slots.items) }
    ensures there { IfOk result (λ s. All (λ n. IsSome (slot_of s.tables.now n)) s.slots.items) }
    ensures some { OnErr result
        (IsTrue (list_any (λ p. passes (T.test test.now) p.1) (living places.now.entities))) }
{
    places.are_shown();
    let archetypes = places.archetypes();
    let slots = archetypes.tables_by(test)?;
    let list = standing_in(alloc, places.entities(), archetypes.tables(), &slots)?;
    Ok(Standings {
        tables: archetypes,
        slots,
        list,
    })
}
