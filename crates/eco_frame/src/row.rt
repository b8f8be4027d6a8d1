//! A row that a world lends.
ghost use Rattle.std.specs.Prelude.{◌≡◌};
ghost use Rattle.eco_ids.specs.Data.{value_of};
ghost use Rattle.eco_systems.specs.Rows.{entry_value};

use eco_bodies::{BodyRow, shows_values};
use eco_ids::{Entity, Id, Value};
use eco_query::{Query, Slot};
use eco_world::EntityRef;

/// A row of a query's results, lent from the world that answered it (Flecs manual, Systems). It owns nothing: its entries
/// stand once for all rows of a type, and a value is read from the world where it stands once somebody asks for it.
#[derive(Drop)]
pub struct WorldRow<'a> {
    // The entity, with the world that has its values.
    entity: EntityRef<'a>,
    // Its entry in each slot of the query.
    entries: &'a [Option<Id>],
    // Whose slots say which values are shown.
    query: &'a Query,
}

/// The value that an entity has at a slot's entry, where the slot shows it.
#[inline(always)]
fn entry_value(entity: &EntityRef<'_>, slot: &Slot, entry: &Option<Id>) -> Option<Value>
    ensures { result
        ≡ entry_value (value_of entity.now.world entity.now.entity) slot.now.access entry.now }
{
    match entry {
        Some(id) if shows_values(slot.access) => entity.value(*id),
        _ => None,
    }
}

impl<'a> WorldRow<'a> {
    ghost use Rattle.eco_systems.specs.Rows.{valued};
    ghost use Rattle.eco_frame.specs.Rows.{world_row};

    // The entity with these entries, one or none for each slot of the query.
    pub(crate) fn of(
        entity: EntityRef<'a>,
        entries: &'a [Option<Id>],
        query: &'a Query,
    ) -> WorldRow<'a>
        ensures { world_row result ≡ valued entity.entry.world query.now
            (record { entity = entity.entry.entity; entries = entries.now }) }
    {
        WorldRow {
            entity,
            entries,
            query,
        }
    }
}

impl BodyRow for WorldRow<'_> {
    ghost use Rattle.eco_frame.specs.Rows.{world_row};

    ghost row_of = { world_row };

    fn entity(&self) -> Entity {
        self.entity.entity()
    }

    fn entries(&self) -> &[Option<Id>] {
        self.entries
    }

    #[inline(always)]
    fn value(&self, slot: usize) -> Option<Value> {
        let Some(asked) = self.query.slots().get(slot) else {
            return None;
        };
        let Some(entry) = self.entries.get(slot) else {
            return None;
        };
        entry_value(&self.entity, asked, entry)
    }
}
