//! Who stands in the tables of some slots, by one walk over the indices.
ghost use Rattle.std.specs.Prelude.{◌≡◌, ◌<◌, ◌≤◌, ◌+◌, ◌-◌, ◌++◌, IfOk, drop, length, vec_capacity, vec_len};
ghost use Rattle.std.specs.List.{All};
ghost use Rattle.eco_store.specs.Ranking.{IsNumbering, IsWalked, standing_at, standing_from};
ghost use Rattle.eco_archetypes.specs.Shown.{AreHoused};

use crate::standing::Standing;
use eco_entities::{EntityIndex, Homes};
use eco_ids::TableSlot;
use std::alloc::{AllocError, Global};

// For each slot below the bound its place among some, counted from 1, and 0 where it is none of them.
fn numbers_of(alloc: Global, bound: usize, slots: &[TableSlot]) -> Result<Vec<usize>, AllocError>
    requires { All (λ n. n < bound) slots.now }
    ensures numbering { IfOk result (λ v. IsNumbering slots.now (length slots.now) v.items) }
    ensures long { IfOk result (λ v. length v.items ≡ bound) }
{
    let mut numbers = vec![in alloc; 0usize; bound]?;
    for place in 0..slots.len() {
        numbers[slots[place]] = place + 1;
    }
    Ok(numbers)
}

/// All who stand in the tables of these slots, ascending. The slots lie below the bound, as those of all tables do. An index that
/// nobody has costs as much as one of them. `count` is how many they should be: it saves growths, and decides nothing.
pub(crate) fn walked(
    alloc: Global,
    entities: &EntityIndex,
    bound: usize,
    slots: &[TableSlot],
    count: usize,
) -> Result<Vec<Standing>, AllocError>
    requires slots { All (λ n. n < bound) slots.now }
    requires housed { AreHoused bound entities.now }
    ensures { IfOk result (λ v. IsWalked entities.now slots.now v.items) }
{
    let numbers = numbers_of(alloc, bound, slots)?;
    numbered(alloc, entities, &numbers, count)
}

// So many indices are gone through at once, for all of which there is room before: so a walk looks for room once for so many.
// How many it has found stands on the stack, and is written there with each of them.
const STRETCH: u32 = 64;

// All who stand in a table whose slot has a number, ascending.
fn numbered(
    alloc: Global,
    entities: &EntityIndex,
    numbers: &[usize],
    count: usize,
) -> Result<Vec<Standing>, AllocError>
    requires { AreHoused (length numbers.now) entities.now }
    ensures { IfOk result (λ v. v.items ≡ standing_from numbers.now 0 entities.now.indices) }
{
    let homes = entities.homes();
    let high = entities.high();
    let mut list = Vec::with_capacity(alloc, count.saturating_add(STRETCH as usize))?;
    let mut index: u32 = 0;
    while index < high {
        let end = high.min(index + STRETCH);
        list.reserve(STRETCH as usize)?;
        add_numbered(&mut list, &homes, numbers, index, end);
        index = end;
    }
    Ok(list)
}

// Puts those who live at the indices from one to below another behind others. There is room for all.
#[inline(always)]
fn add_numbered(
    list: &mut Vec<Standing>,
    homes: &Homes<'_>,
    numbers: &[usize],
    first: u32,
    end: u32,
)
    requires places { (first ≤ end) × (end ≤ length homes.now.indices) }
    requires housed { AreHoused (length numbers.now) homes.now }
    requires room { vec_len list.old + (end - first) ≤ vec_capacity list.old }
    ensures { list.new.items ++ standing_from numbers.now end (drop end homes.now.indices)
        ≡ list.old.items ++ standing_from numbers.now first (drop first homes.now.indices) }
{
    for index in first..end {
        if let Some(standing) = standing_at(homes, numbers, index) {
            list.push_reserved(standing);
        }
    }
}

// Who lives at the index, where its table's slot has a number.
#[inline(always)]
fn standing_at(homes: &Homes<'_>, numbers: &[usize], index: u32) -> Option<Standing>
    requires known { index < length homes.now.indices }
    requires housed { AreHoused (length numbers.now) homes.now }
    ensures { result ≡ standing_at numbers.now homes.now index }
{
    let (entity, place) = homes.at(index)?;
    let number = numbers[place.table];
    if number == 0 {
        return None;
    }
    Some(Standing {
        entity,
        place: number - 1,
    })
}
