//! Tables without rows go: one by one, or where they are many all at once.
ghost use Rattle.std.specs.Prelude.{◌++◌, [], ◌∷◌, List, ℕ};
ghost use Rattle.eco_index.specs.Caching.{AreExact};
ghost use Rattle.eco_index.specs.CachesContents.{cache_list};
ghost use Rattle.eco_archetypes.specs.Archetypes.{type_at, RowlessIn, SameRows};
ghost use Rattle.eco_archetypes.specs.Sweeping.{DropsRowless, IsLess, Sweeps};

use crate::archetypes::Archetypes;
use crate::occupied::Occupied;
use eco_ids::TableSlot;
use eco_index::Caches;
use eco_tables::Tables;

// Fewer tables than these go one by one.
const MANY_TABLES: usize = 16;

// So many tables are looked at for the cost of taking one out by itself.
const LOOKED_AT: usize = 8;

impl Archetypes {
    /// Drops those tables in these slots that have no rows. Every other slot keeps what it had. It takes no memory.
    pub fn drop_each(&mut self, slots: &[TableSlot])
        ensures { Sweeps self.old self.new slots.now }
    {
        if slots.len() >= MANY_TABLES && self.tables.len() / LOOKED_AT <= slots.len() {
            self.drop_together(slots);
        } else {
            self.drop_in_turn(slots);
        }
    }

    // What `drop_each` does with few tables.
    fn drop_in_turn(&mut self, slots: &[TableSlot])
        ensures { Sweeps self.old self.new slots.now }
    {
        for slot in slots {
            self.drop_empty(*slot);
        }
    }

    // What `drop_each` does with many tables: what leads to tables is gone through once, and what leads to none goes. Taken
    // out by itself, each table would be looked for in all maps.
    fn drop_together(&mut self, slots: &[TableSlot])
        ensures { Sweeps self.old self.new slots.now }
    {
        drop_tables(&mut self.tables, &mut self.caches, slots);
        let occupied = Occupied {
            tables: &self.tables,
        };
        self.by_type.keep_there(&occupied);
        self.by_id.keep_there(&occupied);
        self.edges.keep_there(&occupied);
    }
}

// Drops those tables in these slots that have no rows, and tells the caches.
fn drop_tables(tables: &mut Tables, caches: &mut Caches, slots: &[TableSlot])
    ensures dropped { DropsRowless tables.old tables.new slots.now }
    ensures less { IsLess tables.old tables.new }
    ensures rowless { (others : List ℕ) →
        RowlessIn tables.old (slots.now ++ others) → RowlessIn tables.new others }
    ensures rows { SameRows tables.old tables.new }
    ensures exact { AreExact (type_at tables.old) (cache_list caches.old)
        → AreExact (type_at tables.new) (cache_list caches.new) }
{
    for slot in slots {
        drop_table(tables, caches, *slot);
    }
}

// Drops the table in a slot if it has no rows, and tells the caches.
fn drop_table(tables: &mut Tables, caches: &mut Caches, slot: TableSlot)
    ensures dropped { DropsRowless tables.old tables.new (slot ∷ []) }
    ensures less { IsLess tables.old tables.new }
    ensures rowless { (others : List ℕ) →
        RowlessIn tables.old (slot ∷ others) → RowlessIn tables.new others }
    ensures rows { SameRows tables.old tables.new }
    ensures exact { AreExact (type_at tables.old) (cache_list caches.old)
        → AreExact (type_at tables.new) (cache_list caches.new) }
{
    if tables.drop_empty(slot).is_some() {
        caches.forget(slot);
    }
}
