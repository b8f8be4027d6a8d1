//! All who stand in a table die at once, and the table is cleared.
ghost use Rattle.std.specs.Prelude.{◌≡◌, ◌<◌, ◌≤◌, ◌↔◌, ◌++◌, drop, length, take, IsSome, IsTrue};
ghost use Rattle.eco_archetypes.specs.Widths.{MeetsNeeds};
ghost use Rattle.eco_entities.specs.Needs.{need};
ghost use Rattle.eco_ids.specs.Order.{entity_cmp, has_item};
ghost use Rattle.eco_archetypes.specs.Deaths.{after_deaths, with_deaths};
ghost use Rattle.eco_store.specs.Layout.{rows_in, seen, IsLaid, LosesRows};
ghost use Rattle.eco_archetypes.specs.Shown.{IsStore};
ghost use Rattle.eco_tables.specs.Table.{entities_of};
ghost use Rattle.eco_tables.specs.Tables.{slot_of};

use crate::layout::Layout;
use eco_entities::EntityIndex;
use eco_entities::laws::needs_never_grow;
use eco_ids::{Entity, TableSlot};
use eco_tables::Tables;

impl Layout {
    /// Some of the first of these entities die, those who live, and their rows go: all who stand in a table where the list
    /// begins with exactly these in the order of their rows, else the first alone. The answer is how many. It takes no memory.
    pub(crate) fn kill_next(&mut self, dead: &[Entity]) -> usize
        requires some { 0 < length dead.now }
        requires laid { IsLaid self.old }
        ensures some { 0 < result }
        ensures within { result ≤ length dead.now }
        ensures loses { LosesRows self.old self.new }
        ensures seen { seen self.new
            ≡ after_deaths (seen self.old) (has_item entity_cmp (take result dead.now)) }
    {
        let first = dead[0];
        // One that is named twice lives no more.
        let Some(place) = self.entities.place_of(first) else {
            return 1;
        };
        // Only where the first row is named first is the list compared: those that a comparison found alike before it failed
        // stand in later rows, so it is not made again for each of them.
        if place.row == 0 && is_begun_by(self.archetypes.tables(), place.table, dead) {
            let count = self.archetypes.tables().row_count(place.table);
            self.kill_rows(place.table);
            return count;
        }
        self.kill(first);
        1
    }

    // All who stand in the table of a slot die, and its rows go. The table stays as an idle one or a target, or with others
    // that go together. It takes no memory.
    fn kill_rows(&mut self, slot: TableSlot)
        requires there { IsSome (slot_of self.old.archetypes slot) }
        requires laid { IsLaid self.old }
        ensures loses { LosesRows self.old self.new }
        ensures seen { seen self.new ≡ after_deaths (seen self.old)
            (has_item entity_cmp (entities_of (rows_in self.old.archetypes slot))) }
    {
        kill_standing(&mut self.entities, self.archetypes.tables(), slot);
        self.archetypes.clear(slot);
        if self.staying.gather(slot) {
            return;
        }
        self.release(slot);
    }
}

// Whether the list begins with all who stand in the table of a slot, in the order of their rows.
fn is_begun_by(tables: &Tables, slot: TableSlot, dead: &[Entity]) -> bool
    requires { IsSome (slot_of tables.now slot) }
    ensures { IsTrue result ↔ (dead.now ≡ entities_of (rows_in tables.now slot)
        ++ drop (length (rows_in tables.now slot)) dead.now) }
{
    dead.starts_with(tables.get(slot).unwrap().rows())
}

// All who stand in the table of a slot die, the one in the last row first. Their rows stay, which `kill_rows` takes at once.
fn kill_standing(entities: &mut EntityIndex, tables: &Tables, slot: TableSlot)
    requires store { IsStore entities.old tables.now }
    requires there { IsSome (slot_of tables.now slot) }
    ensures dead { entities.new ≡ with_deaths entities.old (entities_of (rows_in tables.now slot)) }
    ensures covers { MeetsNeeds (need entities.old) tables.now → MeetsNeeds (need entities.new) tables.now }
{
    needs_never_grow();
    let standing = tables.get(slot).unwrap().rows();
    let mut left = standing.len();
    while left > 0 {
        left -= 1;
        entities.kill(standing[left]);
    }
}
