//! Queries that are added to a world and asked again and again.
ghost use Rattle.std.specs.Prelude.{◌≡◌, All, IfErr, IfOk, None, Some, map, slice_get, true};
ghost use Rattle.eco_ids.specs.declared.refusal.Refusal.TheVariants.{NoSuchQuery};
ghost use Rattle.eco_ids.specs.Answer.{answer};
ghost use Rattle.eco_ids.specs.Outcome.{Meets};
ghost use Rattle.eco_store.specs.Answers.{asked};
ghost use Rattle.eco_world.specs.Cached.{AddsQuery, ListsFor, OfQuery, RefusesQuery, all_slots_hold};
ghost use Rattle.eco_world.specs.Layouts.{LendsValues, listed};
ghost use Rattle.eco_world.specs.Queries.{is_passed, may_query, result_of};

use crate::kept_query::KeptQuery;
use crate::query_id::QueryId;
use crate::row::Row;
use crate::table_rows::TableRows;
use crate::world::World;
use crate::world::queries::rows_of;
use eco_ids::Refusal;
use eco_query::Query;
use eco_store::{Asking, Results, results_of};

impl World {
    /// Adds a query that is to be asked again and again (Flecs manual, Queries, cached queries): the world keeps the tables
    /// that fulfil it at hand, and is told of each that comes or goes. The answer is its number: the first is 0, and so on.
    ///
    /// Refused with `OutOfMemory` alone, and then no query was added.
    pub fn add_query(&mut self, query: Query) -> Result<QueryId, Refusal>
        ensures { Meets (AddsQuery self.old (asked query)) true self.old result self.new }
    {
        self.queries.reserve(1)?;
        let asked = query.try_copy(self.alloc)?;
        let cache = self.store.keep(asked)?;
        let id = QueryId(self.queries.len());
        self.queries.push_reserved(KeptQuery { query, cache });
        Ok(id)
    }

    /// The results of a query that was added, as [`results`](World::results) gives them (Flecs manual, Queries, cached
    /// queries). No table is searched for.
    ///
    /// Refused with `NoSuchQuery` where the world has no query of this number, and last with `OutOfMemory`, which comes only
    /// where there is a result.
    pub fn answer_results(&self, query: QueryId) -> Result<Results, Refusal>
        ensures ok { IfOk result (λ results.
            OfQuery self.now query.0 (λ slots. results ≡ answer self.now slots)) }
        ensures err { IfErr result (RefusesQuery self.now query.0 (may_query self.now)) }
    {
        let kept = self.kept(query)?;
        let results = results_of(
            self.alloc,
            &self.store.places(),
            &kept.query,
            Some(kept.cache),
        )?;
        Ok(results)
    }

    /// The same results, each with entries of its own, as [`query`](World::query) gives them (Flecs manual, Queries, cached
    /// queries).
    ///
    /// Refused as [`answer_results`](World::answer_results) is.
    pub fn answer(&self, query: QueryId) -> Result<Vec<Row>, Refusal>
        ensures ok { IfOk result (λ rows.
            OfQuery self.now query.0 (λ slots. map result_of rows.items ≡ answer self.now slots)) }
        ensures err { IfErr result (RefusesQuery self.now query.0 (may_query self.now)) }
    {
        let results = self.answer_results(query)?;
        let rows = rows_of(self.alloc, &results)?;
        Ok(rows)
    }

    /// The tables that fulfil a query that was added, as [`tables_of`](World::tables_of) lists them (Flecs manual, Queries,
    /// cached queries). No table is searched for.
    ///
    /// Refused with `NoSuchQuery` where the world has no query of this number, and last with `OutOfMemory`, which comes only
    /// where some living entity fulfils the query.
    pub fn tables_of_query(&self, query: QueryId) -> Result<Vec<TableRows<'_>>, Refusal>
        ensures all { IfOk result (λ tables.
            OfQuery self.now query.0 (λ slots. ListsFor self.now slots (listed tables.items))) }
        ensures values { IfOk result (λ tables. All (LendsValues self.now) tables.items) }
        ensures err { IfErr result
            (RefusesQuery self.now query.0 (λ slots. is_passed self.now (all_slots_hold slots))) }
    {
        let kept = self.kept(query)?;
        let asking = Asking {
            query: &kept.query,
            cache: Some(kept.cache),
        };
        let tables = self.tables_by(&asking)?;
        Ok(tables)
    }

    // The query of this number.
    fn kept(&self, query: QueryId) -> Result<&KeptQuery, Refusal>
        ensures ok { IfOk result (λ kept. slice_get self.now.queries query.0 ≡ Some (asked kept.now.query)) }
        ensures none { IfErr result (λ _. slice_get self.now.queries query.0 ≡ None) }
        ensures err { IfErr result (λ why. why ≡ NoSuchQuery) }
    {
        match self.queries.get(query.0) {
            Some(kept) => Ok(kept),
            None => Err(Refusal::NoSuchQuery),
        }
    }
}
