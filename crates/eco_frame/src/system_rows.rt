//! All rows of a query, lent from a world.
ghost use Rattle.std.specs.Prelude.{◌≡◌, ◌<◌, length, option_map, slice_get, IfErr, IfOk, IsTrue, OnErr, Some};
ghost use Rattle.std.specs.List.{list_any};
ghost use Rattle.eco_ids.specs.declared.refusal.Refusal.TheVariants.{OutOfMemory};
ghost use Rattle.eco_store.specs.Answers.{asked};
ghost use Rattle.eco_systems.specs.Rows.{valued_rows};
ghost use Rattle.eco_world.specs.Queries.{may_query};
ghost use Rattle.eco_frame.specs.Rows.{asks_no_data, may_show, world_row};

use crate::row::WorldRow;
use eco_bodies::shows_values;
use eco_ids::{Entity, Id, Pattern, Refusal};
use eco_query::{Query, Slot, Term};
use eco_world::{EntityRef, Results, World};
use std::alloc::Global;
use std::marker::Model;

/// A query's results on a world, which lend their rows (Flecs manual, Systems). A contract sees the list of the rows, each
/// with the values that it shows.
pub struct SystemRows<'a> {
    alloc: Global,
    world: &'a World,
    query: &'a Query,
    results: Results,
    // Whether a slot of the query may show values, so that an entity is looked for.
    shows: bool,
}

// Whether some of the slots may show a value. Whatever it answers, the rows are the same: where none may, no entity is looked
// for.
fn some_show(world: &World, slots: &[Slot]) -> bool
    ensures { result ≡ list_any (may_show world.now) slots.now }
{
    slots.iter().any(|slot| shows_values(slot.access) && !asks_no_data(world, &slot.term))
}

// Whether a slot asks for a single id that is no data: no row has a value there.
fn asks_no_data(world: &World, term: &Term) -> bool
    ensures { result ≡ asks_no_data world.now term.now }
{
    match term {
        Term::And(Pattern::One(entity)) => world.arity_of(*entity).is_none(),
        _ => false,
    }
}

// By hand, so that dropping it is one call: a derived drop is proved anew at each early return of whoever holds it.
impl Drop for SystemRows<'_> {
    fn drop(self) {
        let SystemRows {
            alloc: _,
            world: _,
            query: _,
            results: _,
            shows: _,
        } = self;
    }
}

impl<'a> Model for SystemRows<'a> {
    ghost use Rattle.std.specs.Prelude.{◌≡◌, List, map};
    ghost use Rattle.eco_ids.specs.Answer.{answer};
    ghost use Rattle.eco_store.specs.Answers.{asked};
    ghost use Rattle.eco_systems.specs.Rows.{ValuedRow, valued};

    ghost Value = { List ValuedRow };

    ghost view = { λ r. map (valued r.world.now r.query.now) r.results };

    ghost invariant = { λ r. r.results ≡ answer r.world.now (asked r.query.now) };
}

impl<'a> SystemRows<'a> {
    /// The rows of a query on a world. Refused with `OutOfMemory` alone, and never where there is no result.
    pub fn of(alloc: Global, world: &'a World, query: &'a Query) -> Result<SystemRows<'a>, Refusal>
        ensures ok { IfOk result (λ rows. rows ≡ valued_rows world.now query.now) }
        ensures err { IfErr result (λ why. why ≡ OutOfMemory) }
        ensures some { OnErr result (IsTrue (may_query world.now (asked query.now))) }
    {
        let results = world.results(query)?;
        Ok(SystemRows {
            alloc,
            world,
            query,
            results,
            shows: some_show(world, query.slots()),
        })
    }

    /// How many there are.
    pub fn len(&self) -> usize
        ensures { result ≡ length self.now }
    {
        self.results.len()
    }

    /// One of them.
    pub fn get(&self, place: usize) -> WorldRow<'_>
        requires { place < length self.now }
        ensures { slice_get self.now place ≡ Some (world_row result) }
    {
        let (entity, entries) = self.results.get(place);
        let found = if self.shows {
            self.world.entity_ref(entity)
        } else {
            EntityRef::unsought(self.world, entity)
        };
        WorldRow::of(found, entries, self.query)
    }

    /// What memory for what is looked for in them is taken from.
    pub(crate) fn alloc(&self) -> Global {
        self.alloc
    }

    /// Whether one of them may have a value: whatever it answers, the rows are the same.
    pub(crate) fn show(&self) -> bool {
        self.shows
    }

    /// The world and the query of which they are.
    pub(crate) fn source(&self) -> (&'a World, &'a Query)
        ensures { self.now ≡ valued_rows result.0.now result.1.now }
    {
        (self.world, self.query)
    }

    /// The entity of one of them.
    #[inline]
    pub(crate) fn entity(&self, place: usize) -> Entity
        requires { place < length self.now }
        ensures { option_map (λ r. r.entity) (slice_get self.now place) ≡ Some result }
    {
        self.results.entity(place)
    }

    /// Its entries.
    pub(crate) fn entries(&self, place: usize) -> &[Option<Id>]
        requires { place < length self.now }
        ensures { option_map (λ r. r.entries) (slice_get self.now place) ≡ Some result.now }
    {
        let (_, entries) = self.results.get(place);
        entries
    }

    /// Whether two of them share their entries.
    #[inline]
    pub(crate) fn share_entries(&self, one: usize, other: usize) -> bool
        requires one { one < length self.now }
        requires other { other < length self.now }
        ensures { IsTrue result → option_map (λ r. r.entries) (slice_get self.now one)
            ≡ option_map (λ r. r.entries) (slice_get self.now other) }
    {
        self.results.share_entries(one, other)
    }
}
