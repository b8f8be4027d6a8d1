//! The world and what it answers.
ghost use Rattle.std.specs.Prelude.{◌≡◌, ◌≤◌, ◌<◌, false, ◌||◌, IfErr, IfNone, IfOk, IfSome, is_some, IsTrue, length};
ghost use Rattle.std.specs.Prelude.{ℕ, Contains, if◌then◌else◌, List, map, MatchOption, None, not, OnOk, option_map, slice_get, Some};
ghost use Rattle.std.specs.Option.{option_copied};
ghost use Rattle.eco_ids.specs.declared.entity.Entity.{Entity as Entities};
ghost use Rattle.eco_ids.specs.declared.id.Id.{Id as Ids};
ghost use Rattle.eco_ids.specs.declared.refusal.Refusal.TheVariants.{OutOfMemory};
ghost use Rattle.eco_ids.specs.Builtin.{is_builtin};
ghost use Rattle.eco_ids.specs.Data.{arity, arity_of, value_of};
ghost use Rattle.eco_ids.specs.Edition.{builtin_count};
ghost use Rattle.eco_ids.specs.Lawful.{IsLawful};
ghost use Rattle.eco_ids.specs.Layout.{IsLayout, ListedTable};
ghost use Rattle.eco_ids.specs.Names.{lookup};
ghost use Rattle.eco_ids.specs.Order.{id_cmp, is_ascending};
ghost use Rattle.eco_ids.specs.Step.{own_name};
ghost use Rattle.eco_ids.specs.World.{entities, first_world, has, held_by, is_alive, living, record_of, world_of_edition};
ghost use Rattle.eco_entities.specs.Registration.{entity_at};
ghost use Rattle.eco_traits.specs.Target.{type_of_record};
ghost use Rattle.eco_world.specs.Layouts.{is_lent, lent_by, listed_of};
ghost use Rattle.eco_world.specs.Queries.{is_matched};
ghost use Rattle.eco_world.specs.Refs.{StandsInRow};

use crate::builtins::builtin_store;
use crate::entity_ref::EntityRef;
use crate::kept_query::KeptQuery;
use crate::table_rows::TableRows;
use eco_grammar::Names;
use eco_ids::{Edition, Entity, Id, Pattern, Refusal, TypeList, Value};
use eco_store::{Seed, Store, Table};
use std::alloc::{AllocError, Global};
use std::marker::Model;

mod bulk;
mod cached;
mod changes;
mod copying;
mod deletes;
mod holdings;
mod layout;
mod merging;
mod mirrors;
mod queries;
mod setting;
mod turns;

/// Entities, each with a name or none and with the ids that were added to it, where an id that is data has a value
/// (Flecs manual, Quickstart), and the queries that were added.
///
/// A contract sees what is known of each index, what each living entity has, and what each query asks. No reader tells more
/// than that, and a call that is refused leaves all of it as it was.
pub struct World {
    alloc: Global,
    // Which rules it keeps.
    edition: Edition,
    // Which handles live, their names and arities, and their ids with values.
    store: Store,
    // The queries that were added, in the order of their numbers.
    queries: Vec<KeptQuery>,
}

// By hand, so that dropping it is one call: a derived drop is proved anew at each early return of whoever holds it.
impl Drop for World {
    fn drop(self) {
        let World {
            alloc: _,
            edition: _,
            store: _,
            queries: _,
        } = self;
    }
}

impl Model for World {
    ghost use Rattle.eco_ids.specs.World.{WorldState};

    ghost Value = { WorldState };

    ghost use Rattle.eco_ids.specs.Lawful.{IsLawful};
    ghost use Rattle.eco_ids.specs.Layout.{IsLayout, ListedTable};
    ghost use Rattle.eco_world.specs.Worlds.{asked_by, world_with};

    ghost view = { λ w. world_with w.edition w.store.entities (asked_by w.queries.items) };

    ghost invariant = { λ w. IsLawful (world_with w.edition w.store.entities (asked_by w.queries.items)) };
}

impl World {
    /// A world of the first edition, in which the nine built-ins live, and nobody else. All its indices lie below `limit`,
    /// which is at least 9 and at most 1,048,576. What grows in it takes its memory from `alloc`.
    ///
    /// Refused with `OutOfMemory` alone.
    pub fn new(alloc: Global, limit: u32) -> Result<World, Refusal>
        requires at_least { 9 ≤ limit }
        requires at_most { limit ≤ 1048576 }
        ensures ok { IfOk result (λ world. world ≡ first_world limit) }
        ensures err { IfErr result (λ why. why ≡ OutOfMemory) }
    {
        World::of_edition(alloc, Edition::First, limit)
    }

    /// A world of an edition, in which its built-ins live, and nobody else: nine in the first edition, ten in the second.
    /// All its indices lie below `limit`, which is at least the number of built-ins and at most 1,048,576. What grows in it
    /// takes its memory from `alloc`.
    ///
    /// Refused with `OutOfMemory` alone.
    pub fn of_edition(alloc: Global, edition: Edition, limit: u32) -> Result<World, Refusal>
        requires at_least { builtin_count edition ≤ limit }
        requires at_most { limit ≤ 1048576 }
        ensures ok { IfOk result (λ world. world ≡ world_of_edition edition limit) }
        ensures err { IfErr result (λ why. why ≡ OutOfMemory) }
    {
        World::seeded(alloc, edition, limit, 0)
    }

    /// A world of an edition, as [`of_edition`](World::of_edition) makes it. What tables are found by is hashed with the
    /// seed, and no answer depends on it. Whoever lets others choose what to relate, as a server does, takes it from a source
    /// that these don't know, such as the system's random bytes: then they can't choose pairs whose keys collide.
    ///
    /// Refused with `OutOfMemory` alone.
    pub fn seeded(alloc: Global, edition: Edition, limit: u32, seed: u64) -> Result<World, Refusal>
        requires at_least { builtin_count edition ≤ limit }
        requires at_most { limit ≤ 1048576 }
        ensures ok { IfOk result (λ world. world ≡ world_of_edition edition limit) }
        ensures err { IfErr result (λ why. why ≡ OutOfMemory) }
    {
        eco_ids::laws::first_world_is_lawful();
        let store = builtin_store(alloc, edition.builtin_count(), limit, Seed::new(seed))?;
        Ok(World {
            alloc,
            edition,
            store,
            queries: Vec::new(alloc),
        })
    }

    /// Does nothing, and its contract says that every world is in order: no id names a dead entity, names are unique, the
    /// built-ins are as at the start, and the rest of what holds of every world that can be reached.
    pub fn is_lawful(&self)
        ensures { IsLawful self.now }
    {
        let _store = &self.store;
    }

    /// Which rules the world keeps.
    pub fn edition(&self) -> Edition
        ensures { result ≡ self.now.edition }
    {
        self.edition
    }

    /// How many indices are known: those that were ever in use or admitted.
    pub fn high(&self) -> u32
        ensures { result ≡ length self.now.indices }
    {
        self.store.high()
    }

    /// All indices lie below it.
    pub fn limit(&self) -> u32
        ensures { result ≡ self.now.limit }
    {
        self.store.limit()
    }

    /// Whether the entity lives: its index is in use at just this generation (Flecs manual, Entities and
    /// Components).
    pub fn is_alive(&self, entity: Entity) -> bool
        ensures { result ≡ is_alive self.now entity }
    {
        self.store.is_alive(entity)
    }

    /// The living entity of this name (Flecs manual, Entities and Components).
    pub fn lookup(&self, name: &str) -> Option<Entity>
        ensures { result ≡ lookup self.now name.now }
    {
        self.store.lookup(name)
    }

    /// The name of a living entity, if it has one.
    pub fn name_of(&self, entity: Entity) -> Option<&str>
        ensures { option_copied result ≡ own_name self.now entity }
    {
        self.store.name(entity)
    }

    /// How many fields the values of this entity have, if it lives and is a component.
    #[inline(always)]
    pub fn arity_of(&self, entity: Entity) -> Option<u8>
        ensures { result ≡ arity_of self.now entity }
    {
        self.store.arity_of(entity)
    }

    /// The ids of the entity, ascending; none, where it isn't living.
    pub fn ids_of(&self, entity: Entity) -> &[Id]
        ensures ids { result.now ≡ map (λ h. h.0) (held_by self.now entity) }
        ensures ascending { IsTrue (is_ascending id_cmp result.now) }
    {
        match self.own_type(entity) {
            Some(ids) => ids.as_slice(),
            None => &[],
        }
    }

    /// Whether the entity lives and has the id (Flecs manual, Entities and Components).
    #[inline(always)]
    pub fn has(&self, entity: Entity, id: Id) -> bool
        ensures { result ≡ has self.now entity id }
    {
        match self.own_type(entity) {
            Some(ids) => ids.has(id),
            None => false,
        }
    }

    /// The value of the id, where the entity lives, has the id, and the id is data (Flecs manual, Entities and
    /// Components). It takes no memory.
    #[inline(always)]
    pub fn get(&self, entity: Entity, id: Id) -> Option<Value>
        ensures { result ≡ value_of self.now entity id }
    {
        let (table, row) = self.stand(entity)?;
        self.value_in(table, row, id)
    }

    /// The entity, to read several of its values: it is looked for once.
    #[inline]
    pub fn entity_ref(&self, entity: Entity) -> EntityRef<'_>
        ensures { result ≡ record { world = self.now; entity = entity } }
    {
        EntityRef::new(self, entity)
    }

    /// The table of a living entity's type, one of those that [`tables`](World::tables) lists, and the row in which the entity
    /// stands there (Flecs manual, Queries, archetypes): whoever else stands there has its values in the same columns.
    #[inline]
    pub fn table_of(&self, entity: Entity) -> Option<(TableRows<'_>, usize)>
        ensures none { IfNone result (record_of self.now entity ≡ None) }
        ensures listed { IfSome result (λ x. (layout : List ListedTable)
            × IsLayout self.now layout × Contains layout (listed_of x.0)) }
        ensures lent { IfSome result (λ x. (row : ℕ) (e : Entities) → slice_get x.0.entities.now row ≡ Some e
            → (i : Ids) → value_of self.now e i
            ≡ (if is_lent x.0 i then slice_get (lent_by x.0 i) row else None)) }
        ensures own { IfSome result (λ x. slice_get x.0.entities.now x.1 ≡ Some entity) }
    {
        self.is_lawful();
        let (table, row) = self.store.stand(entity)?;
        Some((TableRows::of(self, table), row))
    }

    /// All living entities, ascending. An `Err` comes where a growth of the list was refused.
    pub fn living(&self) -> Result<Vec<Entity>, AllocError>
        ensures { IfOk result (λ entities. entities.items ≡ map (λ p. p.0) (living self.now)) }
    {
        let mut entities = Vec::new(self.alloc);
        for index in 0..self.high() {
            if let Some(entity) = self.entity_at(index) {
                entities.push(entity)?;
            }
        }
        Ok(entities)
    }

    // The ids of a living entity.
    fn own_type(&self, entity: Entity) -> Option<&TypeList>
        ensures { option_copied result ≡ option_map type_of_record (record_of self.now entity) }
    {
        self.store.type_of(entity)
    }

    // Where a living entity stands: its table, and its row there.
    #[inline(always)]
    pub(crate) fn stand(&self, entity: Entity) -> Option<(&Table, usize)>
        ensures { MatchOption result (record_of self.now entity ≡ None)
            (λ x. StandsInRow self.now entity x.0.now x.1) }
    {
        self.store.stand(entity)
    }

    // The value at an id of whoever stands in the row.
    #[inline(always)]
    pub(crate) fn value_in(&self, table: &Table, row: usize, id: Id) -> Option<Value>
        requires { row < length table.now.rows }
        ensures { (e : Entities) → StandsInRow self.now e table.now row → result ≡ value_of self.now e id }
    {
        self.is_lawful();
        let (value, is_zero) = table.kept_value(row, id)?;
        if self.is_value(id, is_zero) {
            Some(value)
        } else {
            None
        }
    }

    // Whether what a table keeps of an id is a value. What it keeps fields of is mostly data, and an id that is no data has
    // zeros: so of these alone it is asked.
    #[inline(always)]
    fn is_value(&self, id: Id, is_zero: bool) -> bool
        ensures { result ≡ (not is_zero || is_some (arity self.now id)) }
    {
        if !is_zero {
            return true;
        }
        // A copy of its own, since what is handed over stands in memory: so an id whose value is not zeros need not.
        let asked = id;
        self.is_data(asked)
    }

    // Whether values of the id have fields. Apart, so that a value that is not zeros is read without it.
    #[inline(never)]
    fn is_data(&self, id: Id) -> bool
        ensures { result ≡ is_some (arity self.now id) }
    {
        self.arity(id).is_some()
    }

    /// How many fields the values of the id have, where it is data: an entity's are its own; a pair has its
    /// relationship's, else its target's, and a pair of a built-in has none (Flecs manual, Relationships).
    #[inline(always)]
    pub fn arity(&self, id: Id) -> Option<u8>
        ensures { result ≡ arity self.now id }
    {
        match id {
            Id::One(entity) => self.arity_of(entity),
            Id::Two(relationship, target) => {
                if self.is_builtin(relationship) {
                    None
                } else {
                    self.arity_of(relationship).or(self.arity_of(target))
                }
            }
        }
    }

    // Whether the entity lives from the start.
    #[inline(always)]
    pub(crate) fn is_builtin(&self, entity: Entity) -> bool
        ensures { result ≡ is_builtin self.now entity }
    {
        entity.is_among_first(self.edition.builtin_count())
    }

    // Whether some living entity has an id that matches.
    fn is_held(&self, pattern: Pattern) -> bool
        ensures { result ≡ is_matched self.now pattern }
    {
        self.store.is_held(pattern)
    }

    // Who lives at the index.
    fn entity_at(&self, index: u32) -> Option<Entity>
        ensures { result ≡ entity_at (entities self.now) index }
    {
        self.store.entity_at(index)
    }
}

/// Texts of references and queries are read with the names of a world.
impl Names for World {
    ghost entity_named = { lookup };

    fn lookup(&self, name: &str) -> Option<Entity> {
        World::lookup(self, name)
    }
}
