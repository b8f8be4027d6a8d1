//! Laws of the texts: each function does nothing, and its contract is the law.
ghost use Rattle.std.specs.Prelude.{ℕ, List, Ok, Option};
ghost use Rattle.eco_ids.specs.declared.entity.Entity.{Entity};
ghost use Rattle.eco_query.specs.Canonical.{query_text};
ghost use Rattle.eco_scan.specs.Grammar.{SpellsId, SpellsQuery, SpellsRef};
ghost use Rattle.eco_query.specs.Queries.{IsQuery, QuerySlot};
ghost use Rattle.eco_grammar.specs.Readings.{Reads, ReadsAll, ReadsOnce, entity_of_placed, id_of, query_of};

use eco_query::Query;
pub use eco_scan::laws::texts_spell_once;

/// Under any names a text is answered in one way at most: as what it spells, or as one refusal with one place.
pub fn texts_read_once()
    ensures reference { (entity_named : List ℕ → Option Entity)
        → ReadsOnce SpellsRef (entity_of_placed entity_named) }
    ensures id { (entity_named : List ℕ → Option Entity) → ReadsOnce SpellsId (id_of entity_named) }
    ensures query { (entity_named : List ℕ → Option Entity) → ReadsOnce SpellsQuery (query_of entity_named) }
{
    texts_spell_once();
}

/// Under any names each text is answered in some way: as what it spells, or as a refusal with a place.
pub fn texts_are_read()
    ensures reference { (entity_named : List ℕ → Option Entity)
        → ReadsAll SpellsRef (entity_of_placed entity_named) }
    ensures id { (entity_named : List ℕ → Option Entity) → ReadsAll SpellsId (id_of entity_named) }
    ensures query { (entity_named : List ℕ → Option Entity) → ReadsAll SpellsQuery (query_of entity_named) }
{
    eco_scan::laws::texts_spell_or_fail();
}

/// Under any names the canonical text of a query is read as that query, and so is that of any list of slots that keeps to
/// what a query keeps to.
pub fn canonical_texts_are_read(query: &Query)
    ensures slots { (slots : List QuerySlot) → IsQuery slots → (entity_named : List ℕ → Option Entity)
        → Reads SpellsQuery (query_of entity_named) (query_text slots) (Ok slots) }
    ensures query { (entity_named : List ℕ → Option Entity)
        → Reads SpellsQuery (query_of entity_named) (query_text query.now) (Ok query.now) }
{
    query.is_well_made();
}
