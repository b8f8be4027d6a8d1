//! The tables and the room of a call that changes many entities.
ghost use Rattle.std.specs.Prelude.{◌≡◌, ◌≤◌, [], Some, nat_eq, IsOk, IsSome, IsTrue, IfOk, OnOk};
ghost use Rattle.std.specs.List.{list_any};
ghost use Rattle.eco_tables.specs.Tables.{slot_of, table_in};
ghost use Rattle.eco_index.specs.Edges.{toggled};
ghost use Rattle.eco_archetypes.specs.Archetypes.{type_at, KeepsRoom, KeepsTypes};
ghost use Rattle.eco_store.specs.Layout.{IsLaid, Plans};
ghost use Rattle.eco_store.specs.Moving.{AreMovesReady};
ghost use Rattle.eco_store.specs.Transfers.{AreTransfersReady};
ghost use Rattle.eco_store.specs.Staying.{KeepsRoomIn};

use crate::layout::Layout;
use crate::moving::Move;
use crate::transfer::Transfer;
use eco_archetypes::TypeChange;
use eco_ids::{Id, TableSlot, TypeList};
use std::alloc::{AllocError, Global};

impl Layout {
    /// For each move the slot of the table of its type, a target, in which there is room for all that come there. An `Err`
    /// comes where memory is refused. No row changes. Without moves it takes no memory.
    pub(crate) fn plan_moves(
        &mut self,
        alloc: Global,
        moves: &[Move],
    ) -> Result<Vec<TableSlot>, AllocError>
        requires { IsLaid self.old }
        ensures plans { Plans self.old self.new }
        ensures ready { IfOk result (λ slots.
            AreMovesReady self.new.archetypes self.new.staying.targets moves.now slots.items) }
        ensures nothing { moves.now ≡ [] → IsOk result }
    {
        let mut slots = Vec::new(alloc);
        for next in moves {
            let slot = self.target(&next.type_list)?;
            self.archetypes.reserve_more(slot, 1)?;
            slots.push(slot)?;
        }
        Ok(slots)
    }

    /// For each change the tables of its two types, both targets, and in the second room for all rows of the first, besides
    /// those that other changes bring there. An `Err` comes where memory is refused. No row changes.
    pub(crate) fn plan_changes(
        &mut self,
        alloc: Global,
        changes: &[TypeChange],
    ) -> Result<Vec<Transfer>, AllocError>
        requires { IsLaid self.old }
        ensures plans { Plans self.old self.new }
        ensures ready { IfOk result (λ transfers. AreTransfersReady
            self.new.archetypes self.new.staying.targets transfers.items changes.now) }
    {
        let mut transfers = Vec::new(alloc);
        for change in changes {
            let from = self.target(&change.from)?;
            let to = self.target(&change.to)?;
            let rows = self.archetypes.tables().row_count(from);
            self.archetypes.reserve_more(to, rows)?;
            transfers.push(Transfer { from, to })?;
        }
        Ok(transfers)
    }

    /// The slot of the table that an id leads to from the table in a slot, as [`Archetypes::step`] says, which is a target from
    /// then on, with room for two more rows. An `Err` comes where memory is refused. No row changes.
    pub(crate) fn step_target(&mut self, slot: TableSlot, id: Id) -> Result<TableSlot, AllocError>
        requires laid { IsLaid self.old }
        requires slot { IsSome (slot_of self.old.archetypes slot) }
        ensures plans { Plans self.old self.new }
        ensures typed { IfOk result (λ n.
            type_at self.new.archetypes n ≡ Some (toggled (table_in self.old.archetypes slot).ids id)) }
        ensures room { IfOk result (λ n. 2 ≤ (table_in self.new.archetypes n).room) }
        ensures named { IfOk result (λ n. IsTrue (list_any (nat_eq n) self.new.staying.targets)) }
        ensures kept { OnOk result (KeepsRoom self.old.archetypes self.new.archetypes) }
        ensures types { OnOk result (KeepsTypes self.old.archetypes self.new.archetypes) }
    {
        let to = self.archetypes.step(&self.entities, slot, id, 2)?;
        if let Err(refused) = self.staying.add_target(to) {
            self.archetypes.drop_empty(to);
            return Err(refused);
        }
        Ok(to)
    }

    // The slot of the table with a type, which is a target from then on. What room earlier calls promised in it serves this
    // one; a target keeps its room.
    fn target(&mut self, type_list: &TypeList) -> Result<TableSlot, AllocError>
        requires { IsLaid self.old }
        ensures plans { Plans self.old self.new }
        ensures typed { IfOk result (λ n. type_at self.new.archetypes n ≡ Some type_list.now) }
        ensures named { IfOk result (λ n. IsTrue (list_any (nat_eq n) self.new.staying.targets)) }
        ensures kept { OnOk result (KeepsTypes self.old.archetypes self.new.archetypes) }
        ensures room { OnOk result
            (KeepsRoomIn self.old.archetypes self.new.archetypes self.old.staying.targets) }
    {
        let slot = self.archetypes.room_for(&self.entities, type_list, 0)?;
        match self.staying.add_target(slot) {
            Ok(true) => self.archetypes.waive(slot),
            Ok(false) => {}
            Err(refused) => {
                self.archetypes.drop_empty(slot);
                return Err(refused);
            }
        }
        Ok(slot)
    }
}
