//! A table as a world lists it.
ghost use Rattle.std.specs.Prelude.{◌≡◌, IfSome, is_some};
ghost use Rattle.eco_tables.specs.Values.{whole_values};

use crate::world::World;
use eco_ids::{Entity, Id};
use eco_store::Table;
use eco_tables::Values;

/// The entities of one type: who has exactly these ids (Flecs manual, Queries, archetypes), and the values of each of its
/// ids that is data, to be read in a loop that touches nothing else.
#[derive(Clone, Copy)]
pub struct TableRows<'a> {
    /// The type: its ids, ascending, each once.
    pub ids: &'a [Id],
    /// Who has it, each once, in any order.
    pub entities: &'a [Entity],
    // Where the values stand.
    table: &'a Table,
    // Which knows what is data.
    world: &'a World,
}

impl<'a> TableRows<'a> {
    ghost use Rattle.eco_world.specs.Layouts.{is_lent, IsWhole, lent, lent_by, lent_of, listed_of, shown_of};

    // The table's type and its entities.
    pub(crate) fn of(world: &'a World, table: &'a Table) -> TableRows<'a>
        ensures listed { listed_of result ≡ shown_of table.now }
        ensures lent { lent result ≡ lent_of world.now table.now }
        ensures whole { IsWhole result }
    {
        table.ids_have_widths();
        TableRows {
            ids: table.type_list().as_slice(),
            entities: table.rows(),
            table,
            world,
        }
    }

    /// The values of an id, one for each of the entities and in their order. A slice has so many fields of each value as are
    /// kept of the id: those past them are 0. The values are lent exactly where the id is one of the type's and is data.
    pub fn values(&self, id: Id) -> Option<Values<'a>>
        ensures shown { IfSome result (λ values. whole_values values ≡ lent_by self.now id) }
        ensures lent { is_some result ≡ is_lent self.now id }
    {
        // A table may keep fields of a pair of a built-in, which is no data.
        if self.world.arity(id).is_none() {
            return None;
        }
        self.table.values(id)
    }
}
