//! Queries and their results.
ghost use Rattle.std.specs.Prelude.{◌≡◌, ◌<◌, IfErr, IfOk, IsTrue, length, map, OnErr};
ghost use Rattle.eco_ids.specs.declared.refusal.Refusal.TheVariants.{OutOfMemory};
ghost use Rattle.eco_ids.specs.Answer.{answer};
ghost use Rattle.eco_ids.specs.Names.{lookup};
ghost use Rattle.eco_scan.specs.Grammar.{SpellsQuery};
ghost use Rattle.eco_grammar.specs.Readings.{ReadsInMemory, query_of};
ghost use Rattle.eco_store.specs.Answers.{asked};
ghost use Rattle.eco_world.specs.Queries.{may_query, result_of};

use crate::row::Row;
use crate::world::World;
use eco_ids::Refusal;
use eco_query::Query;
use eco_store::{Results, results_of};
use std::alloc::{AllocError, Global};

// Each result once more, with entries of its own.
pub(super) fn rows_of(alloc: Global, results: &Results) -> Result<Vec<Row>, AllocError>
    ensures all { IfOk result (λ rows. map result_of rows.items ≡ results.now) }
    ensures some { OnErr result (0 < length results.now) }
{
    let mut rows = Vec::with_capacity(alloc, results.len())?;
    for place in 0..results.len() {
        let (entity, entries) = results.get(place);
        rows.push(Row::of(alloc, entity, entries)?)?;
    }
    Ok(rows)
}

impl World {
    /// The query that a text spells, its names those of this world's entities (Flecs manual, Queries, "Query DSL"): slots
    /// joined by commas, each an access in brackets or none, and then `!` and an id, `?` and an id, or ids joined by `||`.
    /// `*` and `_` stand for any entity in the pairs of `!` and of plain ids. White space may stand between tokens.
    ///
    /// It is refused by the first of these that holds:
    /// - `Syntax`, where the text isn't a query, with the length in bytes of its longest beginning of one;
    /// - `TooManyTerms`, where it has more than 32 ids, alternatives counted;
    /// - `WildcardHere`, where `*` or `_` stands as a single id, behind `?` or among alternatives;
    /// - `NoPositive`, where each slot has a `!` or a `?`;
    /// - `UnknownName`, with the byte place where the first name begins that no living entity has;
    /// - `OutOfMemory`, where memory for the query is wanting.
    ///
    /// A query stays what it is when the world changes: its names have become handles, living or not.
    pub fn read_query(&self, text: &str) -> Result<Query, Refusal>
        ensures { ReadsInMemory SpellsQuery (query_of (lookup self.now)) text.now result }
    {
        eco_grammar::read_query(self.alloc, text, self)
    }

    /// The results of the query, by entity and then by entries (Flecs manual, Queries): each living entity for which all
    /// slots hold, once for each choice of an entry for each slot. Those of one type share their entries.
    ///
    /// Refused with `OutOfMemory` alone, and never where there is no result.
    pub fn results(&self, query: &Query) -> Result<Results, Refusal>
        ensures ok { IfOk result (λ results. results ≡ answer self.now (asked query.now)) }
        ensures err { IfErr result (λ why. why ≡ OutOfMemory) }
        ensures some { OnErr result (IsTrue (may_query self.now (asked query.now))) }
    {
        let results = results_of(self.alloc, &self.store.places(), query, None)?;
        Ok(results)
    }

    /// The same results, each with entries of its own. What only looks at each result once asks for
    /// [`results`](World::results), which takes less memory.
    ///
    /// Refused with `OutOfMemory` alone, and never where there is no result.
    pub fn query(&self, query: &Query) -> Result<Vec<Row>, Refusal>
        ensures ok { IfOk result (λ rows. map result_of rows.items ≡ answer self.now (asked query.now)) }
        ensures err { IfErr result (λ why. why ≡ OutOfMemory) }
        ensures some { OnErr result (IsTrue (may_query self.now (asked query.now))) }
    {
        let results = self.results(query)?;
        let rows = rows_of(self.alloc, &results)?;
        Ok(rows)
    }
}
