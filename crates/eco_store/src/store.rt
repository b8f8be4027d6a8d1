//! The store of a world: each living entity with its name, its ids and their values.
ghost use Rattle.std.specs.Prelude.{◌≡◌, ◌≤◌, List, ℕ, [], length, None, Some, Ok, is_some, IfSome, IfNone, IsTrue};
ghost use Rattle.std.specs.Prelude.{MatchOption, map, slice_index_or};
ghost use Rattle.std.specs.Option.{option_copied};
ghost use Rattle.std.specs.FinMap.Entries.{find};
ghost use Rattle.eco_ids.specs.Births.{unfit_name, Makes};
ghost use Rattle.eco_ids.specs.declared.refusal.Refusal.TheVariants.{NoMoreIds, OutOfMemory};
ghost use Rattle.eco_ids.specs.Indices.{changed, is_alive, next_entity, record_of};
ghost use Rattle.eco_ids.specs.Names.{named_entity};
ghost use Rattle.eco_ids.specs.Order.{id_cmp, is_ascending};
ghost use Rattle.eco_ids.specs.Renaming.{own_name};
ghost use Rattle.eco_entities.specs.Registration.{entity_at, given_name};
ghost use Rattle.eco_tables.specs.Table.{TableRow};
ghost use Rattle.eco_store.specs.Store.{Admission, CreatesRecord, RenamesRecord, MakesRecordAlive};
ghost use Rattle.eco_store.specs.Store.{own_arity_in_store, fits_in_store, record_name, record_with_written};
ghost use Rattle.eco_archetypes.specs.Records.{held_in_store, type_in_store};
ghost use Rattle.eco_archetypes.specs.Shown.{Stands};
ghost use Rattle.eco_store.specs.Lent.{AreTablesOf, IsTableOf, KeepsData};

use crate::layout::Layout;
use crate::staying::Staying;
use eco_archetypes::{Archetypes, Seed};
use eco_entities::laws::needs_never_grow;
use eco_entities::{EntityIndex, Place};
use eco_ids::{Entity, Id, Refusal, TypeList, Value};
use eco_tables::{Table, Tables};
use std::alloc::Global;
use std::marker::Model;

mod caching;
mod copying;
mod deaths;
mod exchanging;
mod moves;
mod population;
mod runs;
mod searching;
mod stepping;
mod viewing;

/// A contract sees what is known of each index, and of each living entity its name and its ids with their values. No table is
/// seen.
pub struct Store {
    alloc: Global,
    layout: Layout,
}

impl Model for Store {
    ghost use Rattle.eco_store.specs.Layout.{seen, IsSettled};
    ghost use Rattle.eco_store.specs.Store.{StoreState};

    ghost Value = { StoreState };

    ghost view = { λ s. record { entities = seen s.layout } };

    ghost invariant = { λ s. IsSettled s.layout };
}

// By hand, so that dropping it is one call: a derived drop is proved anew at each early return of whoever holds it.
impl Drop for Store {
    fn drop(self) {
        let Store {
            alloc: _,
            layout: _,
        } = self;
    }
}

// What a new entity of this name is refused with: its name, or that no index is left, else the want of memory.
fn refusal(entities: &EntityIndex, name: Option<&str>) -> Refusal
    ensures { MatchOption (unfit_name given_name entities.now (option_copied name.entry))
        (MatchOption (next_entity entities.now) (result ≡ NoMoreIds) (λ e. result ≡ OutOfMemory)) (λ why. result ≡ why) }
{
    if let Err(why) = entities.check_name(name) {
        return why;
    }
    match entities.next() {
        Some(_) => Refusal::OutOfMemory,
        None => Refusal::NoMoreIds,
    }
}

impl Store {
    /// No index is known. Indices lie below the limit. What tables are found by is hashed with the seed.
    pub fn new(alloc: Global, limit: u32, seed: Seed) -> Store
        requires { limit ≤ 1048576 }
        ensures { result ≡ record { entities = record { limit = limit; indices = [] } } }
    {
        Store {
            alloc,
            layout: Layout {
                entities: EntityIndex::new(alloc, limit),
                archetypes: Archetypes::new(alloc, seed),
                staying: Staying::new(alloc),
            },
        }
    }

    /// All indices lie below it.
    pub fn limit(&self) -> u32
        ensures { result ≡ self.now.entities.limit }
    {
        self.layout.entities.limit()
    }

    /// How many indices are known: living, free or retired.
    pub fn high(&self) -> u32
        ensures known { result ≡ length self.now.entities.indices }
        ensures within { length self.now.entities.indices ≤ self.now.entities.limit }
        ensures limited { self.now.entities.limit ≤ 1048576 }
    {
        self.layout.entities.high()
    }

    /// Whether the entity lives.
    pub fn is_alive(&self, e: Entity) -> bool
        ensures { result ≡ is_alive self.now.entities e }
    {
        self.layout.entities.is_alive(e)
    }

    /// The living entity at an index.
    pub fn entity_at(&self, index: u32) -> Option<Entity>
        ensures { result ≡ entity_at self.now.entities index }
    {
        self.layout.entities.entity_at(index)
    }

    /// The name of a living entity, if it has one.
    pub fn name(&self, e: Entity) -> Option<&str>
        ensures { option_copied result ≡ own_name record_name self.now.entities e }
    {
        self.layout.entities.name(e)
    }

    /// The arity of a living entity, if it has one.
    #[inline(always)]
    pub fn arity_of(&self, e: Entity) -> Option<u8>
        ensures { result ≡ own_arity_in_store self.now.entities e }
    {
        self.layout.entities.arity_of(e)
    }

    /// The living entity of this name.
    pub fn lookup(&self, name: &str) -> Option<Entity>
        ensures { result ≡ named_entity record_name self.now.entities name.now }
    {
        self.layout.entities.lookup(name)
    }

    /// The table in which a living entity stands, and its row.
    #[inline]
    pub fn stand(&self, e: Entity) -> Option<(&Table, usize)>
        ensures stands { MatchOption result (record_of self.now.entities e ≡ None)
            (λ x. Stands (record_of self.now.entities e) x.0.now x.1) }
        ensures own { IfSome result (λ x. (row : TableRow)
            → (slice_index_or x.0.now.rows x.1 row).entity ≡ e) }
        ensures kept { IfSome result (λ x. KeepsData self.now.entities x.0.now) }
        ensures listed { IfSome result (λ x. IsTableOf self.now.entities x.0.now) }
    {
        if !self.layout.entities.is_alive(e) {
            return None;
        }
        let place = self.layout.place_of(e);
        let tables = self.layout.archetypes.tables();
        tables.rows_have_ids();
        Some((tables.table(place.table), place.row))
    }

    /// The ids of a living entity.
    pub fn type_of(&self, e: Entity) -> Option<&TypeList>
        ensures { option_copied result ≡ type_in_store self.now.entities e }
    {
        self.places().type_of(e)
    }

    /// The ids of an entity, ascending; none where it isn't living.
    pub fn ids_of(&self, e: Entity) -> &[Id]
        ensures ids { result.now ≡ map (λ p. p.0) (held_in_store self.now.entities e) }
        ensures ascending { IsTrue (is_ascending id_cmp result.now) }
    {
        match self.type_of(e) {
            Some(type_list) => type_list.as_slice(),
            None => &[],
        }
    }

    /// The value of an id that a living entity has.
    pub fn value(&self, e: Entity, id: Id) -> Option<Value>
        ensures { result ≡ find id_cmp id (held_in_store self.now.entities e) }
    {
        let (table, row) = self.stand(e)?;
        table.find_value(row, id)
    }

    /// The tables, to read. Each living entity stands in one row, in the table of its own ids, and no two tables have the
    /// same type. They keep fields of each id that is data.
    pub fn tables(&self) -> &Tables
        ensures { AreTablesOf self.now.entities result.now }
    {
        let tables = self.layout.archetypes.tables();
        tables.rows_have_ids();
        tables
    }

    /// Makes an entity without ids and arity, at the lowest free index, else at the first unknown one. It has this name, or
    /// none. Refused as [`create`](Store::create) is.
    #[inline(always)]
    pub fn create_bare(&mut self, name: Option<&str>) -> Result<Entity, Refusal>
        ensures step { CreatesRecord self.old.entities (option_copied name.entry) None []
            result self.new.entities }
    {
        // Most entities have no name, and are made one after another.
        if name.is_none() {
            if let Some(entity) = self.create_in_room() {
                return Ok(entity);
            }
        }
        self.create_without_ids(name)
    }

    // What `create_bare` does with a name, or where memory is wanted. Apart, so that other calls make no list of ids.
    #[inline(never)]
    fn create_without_ids(&mut self, name: Option<&str>) -> Result<Entity, Refusal>
        ensures step { CreatesRecord self.old.entities (option_copied name.entry) None []
            result self.new.entities }
    {
        let none = TypeList::empty(self.alloc);
        self.create(name, None, &none)
    }

    // What `create_bare` does without a name, where that wants no memory and the type without ids is the one that was asked for
    // last; the answer is the entity. Else nothing changes. Apart, since its answer is narrower than a refusal, and is there
    // in fewer steps.
    #[inline(never)]
    fn create_in_room(&mut self) -> Option<Entity>
        ensures step { IfSome result (λ e.
            CreatesRecord self.old.entities None None [] (Ok e) self.new.entities) }
        ensures none { IfNone result (self.new ≡ self.old) }
    {
        // A place's row fits, as a table has no more rows than there are indices.
        self.layout.entities.rules();
        needs_never_grow();
        let (table, row) = self.layout.archetypes.last_with_room(&[])?;
        let entity = self
            .layout
            .entities
            .create_in_room(None, Place { table, row })?;
        self.layout.archetypes.push_row(table, entity);
        Some(entity)
    }

    /// Makes an entity with these ids, all with zeros, at the lowest free index, else at the first unknown one. It has this
    /// name and this arity, or none.
    ///
    /// Refused with `BadName` where the name is none, with `NameTaken` where a living entity has it, and with `NoMoreIds`
    /// where every index below the limit is in use or retired, in this order; then with `OutOfMemory` where memory is
    /// refused. A refusal changes nothing.
    #[inline(never)]
    pub fn create(
        &mut self,
        name: Option<&str>,
        arity: Option<u8>,
        type_list: &TypeList,
    ) -> Result<Entity, Refusal>
        ensures step { CreatesRecord self.old.entities (option_copied name.entry) arity type_list.now
            result self.new.entities }
    {
        // A place's row fits, as a table has no more rows than there are indices.
        self.layout.entities.rules();
        needs_never_grow();
        let Some(entity) = self.layout.entities.next() else {
            return Err(refusal(&self.layout.entities, name));
        };
        // What stands against the entity is told before the want of memory.
        let Ok(table) = self
            .layout
            .archetypes
            .room_for(&self.layout.entities, type_list, 1)
        else {
            return Err(refusal(&self.layout.entities, name));
        };
        match self.layout.entities.create_next(entity, name, arity) {
            Ok(created) => {
                self.layout.seat(created, table);
                Ok(created)
            }
            Err(refused) => {
                self.layout.release(table);
                Err(refused)
            }
        }
    }

    /// Makes `count` more indices known. They are free at generation 0, and nobody lives there.
    ///
    /// Refused with `NoMoreIds` where they would pass the limit, else with `OutOfMemory` where memory is refused.
    pub fn admit(&mut self, count: u32) -> Result<(), Refusal>
        ensures step { Admission self.old.entities count result self.new.entities }
    {
        needs_never_grow();
        self.layout.entities.admit(count)
    }

    /// This very handle lives from now on, without name, arity and ids.
    ///
    /// Refused with `Taken` unless its index is known, free and at its generation, else with `OutOfMemory` where memory is
    /// refused. A refusal changes nothing.
    pub fn make_alive(&mut self, e: Entity) -> Result<(), Refusal>
        ensures step { MakesRecordAlive self.old.entities e result self.new.entities }
    {
        self.layout.entities.rules();
        needs_never_grow();
        if !self.layout.entities.is_free_at(e) {
            return Err(Refusal::Taken);
        }
        let type_list = TypeList::empty(self.alloc);
        let table = self
            .layout
            .archetypes
            .room_for(&self.layout.entities, &type_list, 1)?;
        // The handle is free, as was asked above, so that this can't be refused.
        self.layout.entities.make_alive(e)?;
        self.layout.seat(e, table);
        Ok(())
    }

    /// A living entity has this name, or none, from now on. Its own name again is done, and changes nothing.
    ///
    /// Refused with `NotAlive` where nobody lives there, with `BadName` where the name is none, and with `NameTaken` where
    /// another living entity has it, in this order; then with `OutOfMemory`. The old name stays then.
    pub fn rename(&mut self, e: Entity, name: Option<&str>) -> Result<(), Refusal>
        ensures step { RenamesRecord self.old.entities e (option_copied name.entry) result self.new.entities }
    {
        needs_never_grow();
        self.layout.entities.rename(e, name)
    }

    /// Writes the value of an id that a living entity has, and takes no memory: fields past the id's arity are 0, since tables
    /// need not keep them. The answer is whether it has the id; where it lacks it nothing is written. The id's column is looked
    /// for at the place `near` first, where it is remembered: so many sets of one id in one table look for it once.
    #[inline(always)]
    pub fn set_value(&mut self, e: Entity, id: Id, value: Value, near: &mut usize) -> bool
        requires alive { IsTrue (is_alive self.old.entities e) }
        requires fits { IsTrue (fits_in_store self.old.entities id value) }
        ensures written { self.new.entities ≡ changed self.old.entities e (record_with_written id value) }
        ensures had { result ≡ is_some (find id_cmp id (held_in_store self.old.entities e)) }
    {
        let place = self.layout.place_of(e);
        self.layout
            .archetypes
            .set_value(place.table, place.row, id, value, near)
    }
}
