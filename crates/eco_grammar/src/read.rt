//! Reads references, ids and queries.
ghost use Rattle.eco_scan.specs.Grammar.{SpellsId, SpellsQuery, SpellsRef};
ghost use Rattle.eco_grammar.specs.Readings.{Reads, ReadsInMemory, entity_of_placed, id_of, query_of};

use crate::build::query_from;
use crate::names::Names;
use crate::resolve::{entity_of_part, id_of_atom};
use eco_ids::{Entity, Id, Refusal};
use eco_query::Query;
use eco_scan::{scan_id, scan_query, scan_ref};
use std::alloc::Global;

/// Reads a reference: the name of an entity, or a handle as `#9.0`, with white space (space, tab, newline and carriage
/// return) allowed round it. A handle means itself, living or not. Its index is at most 4,294,967,295 and its generation
/// at most 65,535, both without leading zeros.
///
/// It is refused by the first of these that holds:
/// - `Syntax`, where the text isn't a reference, with the length in bytes of its longest beginning of one;
/// - `UnknownName`, where no entity has the name, with the byte place where the name begins.
pub fn read_ref<N: Names>(text: &str, names: &N) -> Result<Entity, Refusal>
    ensures { Reads SpellsRef (entity_of_placed (N.entity_named names.now)) text.now result }
{
    match scan_ref(text.as_bytes()) {
        Ok(part) => entity_of_part(part, names),
        Err(at) => Err(Refusal::Syntax { at }),
    }
}

/// Reads an id: a reference, or a pair of two as `(ChildOf, #9.0)`, with white space allowed between tokens and round all
/// (Flecs manual, Relationships).
///
/// It is refused by the first of these that holds:
/// - `Syntax`, where the text isn't an id, with the length in bytes of its longest beginning of one (`*` and `_` are parts);
/// - `WildcardHere`, where `*` or `_` stands in it;
/// - `UnknownName`, with the byte place where the first name begins that no entity has.
pub fn read_id<N: Names>(text: &str, names: &N) -> Result<Id, Refusal>
    ensures { Reads SpellsId (id_of (N.entity_named names.now)) text.now result }
{
    match scan_id(text.as_bytes()) {
        Ok(atom) => id_of_atom(atom, names),
        Err(at) => Err(Refusal::Syntax { at }),
    }
}

/// Reads a query: slots joined by commas, each an access in brackets or none, and then `!` and an id, `?` and an id, or ids
/// joined by `||` (Flecs manual, Queries, "Query DSL").
///
/// It is refused by the first of these that holds:
/// - `Syntax`, where the text isn't a query, with the length in bytes of its longest beginning of one;
/// - `TooManyTerms`, where it has more than 32 ids, alternatives counted;
/// - `WildcardHere`, where `*` or `_` stands as a single id, behind `?` or among alternatives;
/// - `NoPositive`, where each slot has a `!` or a `?`;
/// - `UnknownName`, with the byte place where the first name begins that no entity has;
/// - `OutOfMemory`, where memory for the query is wanting.
pub fn read_query<N: Names>(alloc: Global, text: &str, names: &N) -> Result<Query, Refusal>
    ensures { ReadsInMemory SpellsQuery (query_of (N.entity_named names.now)) text.now result }
{
    let terms = match scan_query(text.as_bytes()) {
        Ok(terms) => terms,
        Err(at) => return Err(Refusal::Syntax { at }),
    };
    let Some(marks) = terms.as_slice() else {
        return Err(Refusal::TooManyTerms);
    };
    query_from(alloc, marks, names)
}
