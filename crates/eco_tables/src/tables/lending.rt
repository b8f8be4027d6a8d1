//! Tables in slots are lent, to be changed where they stand.
ghost use Rattle.std.specs.Prelude.{◌≡◌, ◌≢◌, ◌<◌, length, Some, IsSome};
ghost use Rattle.std.specs.Borrow.{sem};
ghost use Rattle.eco_tables.specs.Tables.{slot_of};
ghost use Rattle.eco_tables.specs.Lending.{lends_there, lends_table, lends_two};

use crate::table::Table;
use eco_ids::TableSlot;

// The table of a slot that has one.
#[inline(always)]
pub fn there(slot: &mut Option<Table>) -> &mut Table
    requires { IsSome slot.old }
    ensures* lends { sem 𝓛 (lends_there slot.entry result) }
    ensures value { slot.old ≡ Some result.now }
{
    match slot {
        Some(table) => table,
        None => unreachable!(),
    }
}

// The table in a slot that has one.
#[inline(always)]
pub fn table_mut(slots: &mut Vec<Option<Table>>, slot: TableSlot) -> &mut Table
    requires { IsSome (slot_of slots.old.items slot) }
    ensures* lends { sem 𝓛 (lends_table slots.entry slot result) }
    ensures value { slot_of slots.old.items slot ≡ Some result.now }
{
    there(&mut slots[slot])
}

// Two slots.
#[inline(always)]
pub fn two_mut(
    slots: &mut [Option<Table>],
    from: TableSlot,
    to: TableSlot,
) -> (&mut Option<Table>, &mut Option<Table>)
    requires apart { from ≢ to }
    requires from { from < length slots.old }
    requires to { to < length slots.old }
    ensures* lends { sem 𝓛 (lends_two slots.entry from to result) }
    ensures from { result.0.now ≡ slot_of slots.old from }
    ensures to { result.1.now ≡ slot_of slots.old to }
{
    if from < to {
        let (low, high) = slots.split_at_mut(to);
        return (&mut low[from], &mut high[0]);
    }
    let (low, high) = slots.split_at_mut(from);
    (&mut high[0], &mut low[to])
}
