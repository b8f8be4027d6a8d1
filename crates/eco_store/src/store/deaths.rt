//! An entity dies, or many do and others get another type, at once.
ghost use Rattle.std.specs.Prelude.{◌≡◌, IsTrue};
ghost use Rattle.eco_ids.specs.Indices.{is_alive, with_death};
ghost use Rattle.eco_ids.specs.Order.{entity_cmp, has_item};
ghost use Rattle.eco_archetypes.specs.Deaths.{after_deaths};
ghost use Rattle.eco_archetypes.specs.Retyping.{after_changes, IsOneWay};
ghost use Rattle.eco_archetypes.specs.Records.{Tries};

use crate::store::Store;
use eco_archetypes::TypeChange;
use eco_ids::Entity;
use std::alloc::AllocError;

impl Store {
    /// The entity dies: its name is free, its row goes, and its index is free at the next generation or retired. It takes
    /// no memory.
    pub fn take_out(&mut self, e: Entity)
        requires { IsTrue (is_alive self.old.entities e) }
        ensures entities { self.new.entities ≡ with_death self.old.entities e }
    {
        self.layout.kill(e);
    }

    /// Each of these entities that lives dies, as in [`take_out`](Store::take_out), and then all entities of a type get
    /// another, for each of these changes, one after another: values of ids that both types have stay, new ids hold zeros. An
    /// entity that is named twice, or doesn't live, is passed over. All memory is taken before the first entity changes. An
    /// `Err` comes where memory is refused, and changes nothing.
    ///
    /// The time that it takes grows with the dead and the entities that change, and not with the store.
    pub fn delete_all(&mut self, dead: &[Entity], changes: &[TypeChange]) -> Result<(), AllocError>
        requires { IsOneWay changes.now }
        ensures { Tries self.old.entities
            (after_changes (after_deaths self.old.entities (has_item entity_cmp dead.now)) changes.now)
            result self.new.entities }
    {
        let planned = self.layout.plan_changes(self.alloc, changes);
        if let Ok(transfers) = &planned {
            let tables = self.layout.archetypes.tables().len();
            self.layout.staying.expect(dead.len().min(tables));
            // The tables of the transfers stay, though the deaths may leave them without rows.
            self.layout.carry_out(dead, transfers);
        }
        self.layout.forget();
        planned.map(|_| ())
    }
}
