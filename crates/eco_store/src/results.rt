//! The results of a query.
ghost use Rattle.std.specs.Prelude.{◌≡◌, ◌==◌, ◌<◌, length, map, option_map, slice_get, IfOk, IfSome, IsSome, IsTrue, OnErr};
ghost use Rattle.std.specs.Prelude.{Some};
ghost use Rattle.std.specs.List.{All};
ghost use Rattle.eco_ids.specs.Answer as answers;
ghost use Rattle.eco_ids.specs.Answer.{answer, Row as Rows};
ghost use Rattle.eco_tables.specs.Tables.{slot_of};
ghost use Rattle.eco_store.specs.Answers.{asked, asks};
ghost use Rattle.eco_store.specs.Blocks.{results_at, shown};
ghost use Rattle.eco_store.specs.Fixed.{AreFixed, FitsQuery};
ghost use Rattle.eco_archetypes.specs.Worlds.{world_of};

use crate::asking::Asking;
use crate::blocks::{Blocks, blocks_of, rows_of};
use crate::entries::Entries;
use crate::fixed::{FixedChoice, fixed_choice};
use crate::iter::ResultIter;
use crate::ranked::Ranked;
use crate::searching::standing_by;
use crate::standing::Standings;
use eco_archetypes::Places;
use eco_ids::{Entity, Id};
use eco_index::Choices;
use eco_query::{Query, Slot};
use std::alloc::{AllocError, Global};
use std::marker::Model;

/// The results of a query, by entity and then by entries. A contract sees the list of them. The entities of one type share
/// their entries.
#[derive(Debug)]
pub struct Results {
    // Each with the place of its entries.
    rows: Ranked,
    entries: Entries,
}

// By hand, so that dropping it is one call: a derived drop is proved anew at each early return of whoever holds it.
impl Drop for Results {
    fn drop(self) {
        let Results {
            rows: _,
            entries: _,
        } = self;
    }
}

impl Model for Results {
    ghost use Rattle.std.specs.Prelude.{◌<◌, List, length, map};
    ghost use Rattle.std.specs.List.{All};
    ghost use Rattle.eco_ids.specs.Answer as answers;
    ghost use Rattle.eco_store.specs.Blocks.{shown};

    ghost Value = { List answers.Row };

    ghost view = { λ r. map (shown r.entries) r.rows };

    ghost invariant = { λ r. All (λ s. s.place < length r.entries) r.rows };
}

impl Results {
    // No result.
    fn none(alloc: Global, width: usize) -> Results
        ensures { length result ≡ 0 }
    {
        Results {
            rows: Ranked::none(alloc),
            entries: Entries::each(Choices::none(alloc, width)),
        }
    }

    /// How many there are.
    pub fn len(&self) -> usize
        ensures { result ≡ length self.now }
    {
        self.rows.len()
    }

    /// Whether there are none.
    pub fn is_empty(&self) -> bool
        ensures { result ≡ (length self.now == 0) }
    {
        self.rows.is_empty()
    }

    /// One of them: the entity and its entries.
    pub fn get(&self, place: usize) -> (Entity, &[Option<Id>])
        requires { place < length self.now }
        ensures { slice_get self.now place ≡ Some (record { entity = result.0; entries = result.1.now }) }
    {
        let row = self.rows.get(place);
        (row.entity, self.entries.get(row.place))
    }

    /// The entity of one of them.
    #[inline]
    pub fn entity(&self, place: usize) -> Entity
        requires { place < length self.now }
        ensures { option_map (λ r. r.entity) (slice_get self.now place) ≡ Some result }
    {
        self.rows.get(place).entity
    }

    /// Whether two of them share their entries: they stand in one table, and have the same choice there. Those of two
    /// tables are told apart, though their entries may be equal.
    #[inline]
    pub fn share_entries(&self, one: usize, other: usize) -> bool
        requires one { one < length self.now }
        requires other { other < length self.now }
        ensures { IsTrue result → option_map (λ r. r.entries) (slice_get self.now one)
            ≡ option_map (λ r. r.entries) (slice_get self.now other) }
    {
        self.rows.share_table(one, other)
    }

    /// All of them, in their order.
    pub fn iter(&self) -> ResultIter<'_>
        ensures { result ≡ self.now }
    {
        ResultIter::of(&self.rows, &self.entries)
    }
}

// Rows, each with the choice at its place.
fn with_rows(rows: Ranked, made: Blocks) -> Results
    requires { All (λ s. s.place < length made.choices.all) rows }
    ensures { result ≡ map (shown made.choices.all) rows }
{
    let Blocks { choices, list: _ } = made;
    Results {
        rows,
        entries: Entries::each(choices),
    }
}

// The results of all who stand in the tables that were found.
fn results_in(
    alloc: Global,
    found: Standings<'_>,
    query: &Query,
    cache: Option<usize>,
) -> Result<Results, AllocError>
    requires there { All (λ n. IsSome (slot_of found.tables.now n)) found.slots.items }
    requires places { All (λ s. s.place < length found.slots.items) found.list }
    requires fit { All (FitsQuery found.tables.now found.slots.items query.now) found.list }
    ensures { IfOk result (λ r. r
        ≡ results_at found.entry.tables.now found.entry.slots.items (asked query.now) found.entry.list) }
{
    query.is_positive();
    match fixed_for(alloc, query.slots(), cache)? {
        Some(choice) => Ok(fixed_in(found, query, choice)),
        None => own_in(alloc, found, query, cache),
    }
}

// The same, where all types on which the slots hold have just these entries.
fn fixed_in(found: Standings<'_>, query: &Query, choice: FixedChoice) -> Results
    requires fixed { AreFixed (asked query.now) choice.items }
    requires places { All (λ s. s.place < length found.slots.items) found.list }
    requires fit { All (FitsQuery found.tables.now found.slots.items query.now) found.list }
    ensures { result
        ≡ results_at found.entry.tables.now found.entry.slots.items (asked query.now) found.entry.list }
{
    found.tables.tables().types_ascend();
    let count = found.slots.len();
    alone_in(found, Entries::same(choice, count))
}

// The same, where each type may have entries of its own.
fn own_in(
    alloc: Global,
    found: Standings<'_>,
    query: &Query,
    cache: Option<usize>,
) -> Result<Results, AllocError>
    requires there { All (λ n. IsSome (slot_of found.tables.now n)) found.slots.items }
    requires places { All (λ s. s.place < length found.slots.items) found.list }
    ensures { IfOk result (λ r. r
        ≡ results_at found.entry.tables.now found.entry.slots.items (asked query.now) found.entry.list) }
{
    query.is_positive();
    match found.tables.only_of(query, cache, &found.slots)? {
        // Each who stands somewhere is its own one row.
        Some(choices) => Ok(alone_in(found, Entries::each(choices))),
        None => expanded_in(alloc, found, query.slots()),
    }
}

// The entries that the slots have on each type on which they hold, where they are the same on all, and the store keeps no
// choices of theirs.
fn fixed_for(
    alloc: Global,
    slots: &[Slot],
    cache: Option<usize>,
) -> Result<Option<FixedChoice>, AllocError>
    ensures { IfOk result (λ o. IfSome o (λ c. AreFixed (asks slots.now) c.items)) }
{
    match cache {
        Some(_) => Ok(None),
        None => fixed_choice(alloc, slots),
    }
}

// The same, where each table has one choice.
fn alone_in(found: Standings<'_>, entries: Entries) -> Results
    requires only { length entries ≡ length found.slots.items }
    requires places { All (λ s. s.place < length found.slots.items) found.list }
    ensures { result ≡ map (shown entries) found.entry.list }
{
    let Standings {
        tables: _,
        slots: _,
        list,
    } = found;
    Results {
        rows: list,
        entries,
    }
}

// The same, where a table may have several choices.
fn expanded_in(alloc: Global, found: Standings<'_>, terms: &[Slot]) -> Result<Results, AllocError>
    requires some { 0 < length terms.now }
    requires there { All (λ n. IsSome (slot_of found.tables.now n)) found.slots.items }
    requires places { All (λ s. s.place < length found.slots.items) found.list }
    ensures { IfOk result (λ r. r
        ≡ results_at found.entry.tables.now found.entry.slots.items (asks terms.now) found.entry.list) }
{
    let made = blocks_of(alloc, found.tables.tables(), &found.slots, terms)?;
    let Standings {
        tables: _,
        slots: _,
        list,
    } = found;
    let rows = rows_of(alloc, &list, &made.list)?;
    Ok(with_rows(Ranked::among(rows), made))
}

/// The results of the query on a store, by entity and then by entries: each living entity for which all slots hold, once
/// for each choice of an entry for each slot.
///
/// The choices are made once for each table. Its time grows with the results and with the tables that the shortest group of
/// the query's patterns finds, or that the store keeps at hand for the query, where `cache` is the number by
/// which it keeps that. Rows of one table that ascend stay as they stand; others come into order by a walk over the
/// known indices where these are at most some sixteen times as many, and by sorting where the rows are few among them.
/// An `Err` comes where memory is refused, and never where there is no result.
pub fn results_of(
    alloc: Global,
    places: &Places<'_>,
    query: &Query,
    cache: Option<usize>,
) -> Result<Results, AllocError>
    ensures all { IfOk result (λ r. r ≡ answer (world_of places.now.entities) (asked query.now)) }
    ensures some { OnErr result (0 < length (answer (world_of places.now.entities) (asked query.now))) }
{
    query.is_positive();
    let found = standing_by(alloc, places, &Asking { query, cache })?;
    if found.list.is_empty() {
        return Ok(Results::none(alloc, query.slots().len()));
    }
    results_in(alloc, found, query, cache)
}
