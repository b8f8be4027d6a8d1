//! Entities die, and their rows go; then whole tables move.
ghost use Rattle.std.specs.Prelude.{◌≡◌, map, IsTrue};
ghost use Rattle.eco_ids.specs.Indices.{is_alive, with_death};
ghost use Rattle.eco_ids.specs.Order.{entity_cmp, has_item};
ghost use Rattle.eco_archetypes.specs.Deaths.{after_deaths};
ghost use Rattle.eco_store.specs.Layout.{seen, IsLaid, LosesRows};
ghost use Rattle.eco_archetypes.specs.Retyping.{after_changes, IsOneWay};
ghost use Rattle.eco_store.specs.Transfers.{change_of, AreTransfersReady};

use crate::layout::Layout;
use crate::placing::fix_place;
use crate::transfer::Transfer;
use eco_entities::laws::needs_never_grow;
use eco_ids::Entity;

mod whole_tables;

impl Layout {
    /// The entity dies, and its row goes. A table that this leaves without rows stays as an idle one, or as a target. It
    /// takes no memory.
    pub(crate) fn kill(&mut self, entity: Entity)
        requires laid { IsLaid self.old }
        requires alive { IsTrue (is_alive self.old.entities entity) }
        ensures loses { LosesRows self.old self.new }
        ensures seen { seen self.new ≡ with_death (seen self.old) entity }
        ensures staying { self.new.staying ≡ record self.old.staying { idle = self.new.staying.idle } }
    {
        // A place's row fits, as a table has no more rows than there are indices.
        self.entities.rules();
        needs_never_grow();
        let place = self.place_of(entity);
        let moved = self.archetypes.swap_out(place.table, place.row);
        fix_place(&mut self.entities, moved, place);
        self.entities.kill(entity);
        self.release(place.table);
    }

    // Each of these entities that lives dies, and its row goes. It takes no memory.
    fn kill_all(&mut self, dead: &[Entity])
        requires { IsLaid self.old }
        ensures loses { LosesRows self.old self.new }
        ensures seen { seen self.new ≡ after_deaths (seen self.old) (has_item entity_cmp dead.now) }
    {
        let mut done = 0;
        while done < dead.len() {
            done += self.kill_next(&dead[done..]);
        }
    }

    /// Each of these entities that lives dies, and then the transfers are carried out, whose tables are targets. It takes no
    /// memory.
    pub(crate) fn carry_out(&mut self, dead: &[Entity], transfers: &[Transfer])
        requires laid { IsLaid self.old }
        requires ready { AreTransfersReady self.old.archetypes self.old.staying.targets transfers.now
            (map (change_of self.old.archetypes) transfers.now) }
        requires one_way { IsOneWay (map (change_of self.old.archetypes) transfers.now) }
        ensures laid { IsLaid self.new }
        ensures seen { seen self.new
            ≡ after_changes (after_deaths (seen self.old) (has_item entity_cmp dead.now))
            (map (change_of self.old.archetypes) transfers.now) }
    {
        self.kill_all(dead);
        self.move_all(transfers);
    }
}
