//! Tables that lost their last row stay, or go.
ghost use Rattle.std.specs.Prelude.{◌≡◌, ◌≤◌, length, IsSome, IsTrue};
ghost use Rattle.eco_store.specs.Layout.{seen, IsLaid, IsLaidBeside, IsSettled, Releases};
ghost use Rattle.eco_tables.specs.Tables.{slot_of, table_in};

use crate::layout::Layout;
use eco_entities::Place;
use eco_ids::TableSlot;
use eco_tables::Tables;

// So much room is worth more than the table costs to be made again, once as many rows have come.
const MUCH_ROOM: usize = 65_536;

// So much room is worth more than what it costs to give it back and to ask for it anew: a page of memory that is new costs as
// much as the moves of some rows.
const SLACK_ROOM: usize = 131_072;

// Whether the table in a slot has much room.
fn is_large(tables: &Tables, slot: TableSlot) -> bool
    ensures { IsTrue result → MUCH_ROOM ≤ (table_in tables.now slot).room }
{
    match tables.get(slot) {
        Some(table) => table.room() >= MUCH_ROOM,
        None => false,
    }
}

// Whether more than half of the memory of the table in a slot waits for rows, and much of it.
#[inline(always)]
fn is_slack(tables: &Tables, slot: TableSlot) -> bool
    ensures { IsTrue result → IsSome (slot_of tables.now slot) }
{
    match tables.get(slot) {
        Some(table) => table.room() >= SLACK_ROOM && table.room() > table.row_count(),
        None => false,
    }
}

impl Layout {
    /// The call ends: of the targets, and of those that were gathered, the tables without rows go. It takes no memory.
    pub(crate) fn forget(&mut self)
        requires { IsLaid self.old }
        ensures settled { IsSettled self.new }
        ensures same { seen self.new ≡ seen self.old }
    {
        self.archetypes.drop_each(self.staying.gathered());
        self.archetypes.drop_each(self.staying.targets());
        self.staying.clear();
    }

    /// A row left the table in this slot. If it was the last one, the table stays as an idle one, and the one whose place it
    /// takes is dropped if it has no rows; a table with much room is dropped itself. If more than half of its memory waits for
    /// rows, it gives some back. A target stays as it is in any case. It takes no memory.
    #[inline]
    pub(crate) fn release(&mut self, slot: TableSlot)
        requires { IsLaidBeside self.old slot }
        ensures { Releases self.old self.new }
    {
        if self.archetypes.tables().is_rowless(slot) {
            if is_large(self.archetypes.tables(), slot) || !self.staying.is_resting(slot) {
                self.leave(slot);
            }
        } else if is_slack(self.archetypes.tables(), slot) {
            self.slim(slot);
        }
    }

    /// What [`release`](Layout::release) does for a row that stood in this place. Whether the table has rows is looked at only
    /// where no other row can stand before the place.
    #[inline(always)]
    pub(crate) fn release_row(&mut self, place: Place)
        requires beside { IsLaidBeside self.old place.table }
        requires behind { place.row ≤ length (table_in self.old.archetypes place.table).rows }
        ensures { Releases self.old self.new }
    {
        if place.row == 0 || is_slack(self.archetypes.tables(), place.table) {
            self.release(place.table);
        }
    }

    // The table in this slot gives half of its room back, unless it is a target, whose room is promised. So of a table
    // that rows leave one by one stays promised room for 131,072 rows, or for as many as it has, and the next rows find room.
    #[cold]
    #[inline(never)]
    fn slim(&mut self, slot: TableSlot)
        requires laid { IsLaid self.old }
        requires there { IsSome (slot_of self.old.archetypes slot) }
        ensures { Releases self.old self.new }
    {
        if self.staying.is_target(slot) {
            return;
        }
        let room = self.archetypes.tables().table(slot).room();
        self.archetypes.shrink(slot, room / 2);
    }

    // The table in this slot goes where it has much room, unless it is a target, else it is an idle one. Apart, as a row mostly
    // leaves others behind, or comes back to where it was.
    #[cold]
    #[inline(never)]
    fn leave(&mut self, slot: TableSlot)
        requires { IsLaidBeside self.old slot }
        ensures { Releases self.old self.new }
    {
        if is_large(self.archetypes.tables(), slot) && !self.staying.is_target(slot) {
            self.archetypes.drop_empty(slot);
            return;
        }
        self.rest(slot);
    }

    // The table in this slot is an idle one from then on, and the one whose place it takes goes.
    fn rest(&mut self, slot: TableSlot)
        requires { IsLaidBeside self.old slot }
        ensures { Releases self.old self.new }
    {
        let before = self.staying.set_idle(slot);
        if !self.staying.is_target(before) {
            self.archetypes.drop_empty(before);
        }
    }
}
