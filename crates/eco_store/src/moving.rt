//! Moves of entities to types: the entities go one after another to tables in which their room was taken.
ghost use Rattle.std.specs.Prelude.{◌≡◌, ◌<◌, IsSome};
ghost use Rattle.eco_tables.specs.Tables.{slot_of, table_in};
ghost use Rattle.eco_ids.specs.Indices.{changed};
ghost use Rattle.eco_store.specs.Layout.{seen, Carries, IsLaid};
ghost use Rattle.eco_store.specs.Moving.{after_moves, AreMovesReady};
ghost use Rattle.eco_archetypes.specs.Records.{with_type};

use crate::layout::Layout;
use eco_ids::{Entity, TableSlot, TypeList};
use std::alloc::AllocError;

/// An entity and the type that it gets.
#[derive(Drop)]
pub struct Move {
    pub entity: Entity,
    pub type_list: TypeList,
}

impl Layout {
    /// The entity, if it lives, goes to the table in this slot, unless it stands there. It takes no memory.
    pub(crate) fn go_to(&mut self, e: Entity, to: TableSlot)
        requires laid { IsLaid self.old }
        requires there { IsSome (slot_of self.old.archetypes to) }
        requires room { 0 < (table_in self.old.archetypes to).room }
        ensures carries { Carries self.old self.new to }
        ensures seen { seen self.new
            ≡ changed (seen self.old) e (with_type (table_in self.old.archetypes to).ids) }
    {
        let Some(place) = self.entities.place_of(e) else {
            return;
        };
        if place.table == to {
            // Under its own type an entity holds what it held, since the ids of its row ascend.
            let tables = self.archetypes.tables();
            tables.rows_have_ids();
            let _ids = tables.get(to).unwrap().type_list().as_slice();
            return;
        }
        self.carry(e, place, to);
    }

    /// Each entity goes to the table in the slot at the same place, one after another. It takes no memory.
    pub(crate) fn make_moves(&mut self, moves: &[Move], slots: &[TableSlot])
        requires laid { IsLaid self.old }
        requires ready { AreMovesReady self.old.archetypes self.old.staying.targets moves.now slots.now }
        ensures laid { IsLaid self.new }
        ensures seen { seen self.new ≡ after_moves (seen self.old) moves.now }
    {
        for place in 0..moves.len() {
            let to = slots[place];
            self.go_to(moves[place].entity, to);
        }
    }
}
