//! Entities, their tables and their types are found by tests of their ids.
ghost use Rattle.std.specs.Prelude.{◌≡◌, ◌≢◌, ◌<◌, ◌↔◌, List, length, map, IsSome, IsTrue, IfOk, OnErr};
ghost use Rattle.std.specs.List.{All, AllPairs, Contains, list_any};
ghost use Rattle.eco_ids.specs.Indices.{living};
ghost use Rattle.eco_ids.specs.declared.id.Id.{Id as Ids};
ghost use Rattle.eco_tables.specs.Tables.{slot_of, table_in};
ghost use Rattle.eco_archetypes.specs.Archetypes.{IsAllFound};
ghost use Rattle.eco_archetypes.specs.Holders.{passes, has_match, entities_with, is_holder};
ghost use Rattle.eco_archetypes.specs.Retyping.{IsTypeWith};
ghost use Rattle.eco_store.specs.Lent.{AreTablesOf};

use crate::store::Store;
use eco_archetypes::{Found, NamingTest, TypeTest, entities_in};
use eco_ids::{Entity, Pattern, TableSlot, TypeList};
use eco_tables::Tables;
use std::alloc::{AllocError, Global};

// The types of the tables in these slots. An `Err` comes where memory is refused, and never without slots.
fn types_in(
    alloc: Global,
    tables: &Tables,
    slots: &[TableSlot],
) -> Result<Vec<TypeList>, AllocError>
    requires { All (λ slot. IsSome (slot_of tables.now slot)) slots.now }
    ensures all { IfOk result
        (λ types. types.items ≡ map (λ slot. (table_in tables.now slot).ids) slots.now) }
    ensures some { OnErr result (0 < length slots.now) }
{
    let mut types = Vec::new(alloc);
    for slot in slots {
        let table = tables.get(*slot).unwrap();
        types.push(table.type_list().try_copy()?)?;
    }
    Ok(types)
}

impl Store {
    /// The tables that have rows and a type that passes the test. Its time grows with the tables that the shortest group of
    /// the test's patterns finds. An `Err` comes where memory is refused, and never where no living entity's type passes.
    pub fn tables_by<T: TypeTest>(&self, test: &T) -> Result<Found<'_>, AllocError>
        ensures lent { IfOk result (λ f. AreTablesOf self.now.entities f.tables.now) }
        ensures found { IfOk result (λ f. IsAllFound (T.test test.now) f.tables.now f.slots.items) }
        ensures some { OnErr result
            (IsTrue (list_any (λ p. passes (T.test test.now) p.1) (living self.now.entities))) }
    {
        let tables = self.layout.archetypes.tables();
        tables.rows_have_ids();
        let slots = self.layout.archetypes.tables_by(test)?;
        Ok(Found { tables, slots })
    }

    /// Whether some living entity has an id that names this one. Where none has, mostly the marks of the index tell so, and no
    /// table is looked at. It takes no memory.
    pub fn is_named(&self, entity: Entity) -> bool
        ensures { result ≡ list_any (λ p. is_holder entity p.1) (living self.now.entities) }
    {
        self.layout.archetypes.tables().rows_have_ids();
        let archetypes = &self.layout.archetypes;
        archetypes.is_named(entity) && archetypes.finds(&NamingTest { entity })
    }

    /// Whether some living entity has an id that the pattern matches. It looks at one table that has rows, and at tables
    /// without rows before it. It takes no memory.
    pub fn is_held(&self, pattern: Pattern) -> bool
        ensures { result ≡ list_any (λ p. has_match pattern p.1) (living self.now.entities) }
    {
        self.layout.archetypes.tables().rows_have_ids();
        self.layout.archetypes.finds(&pattern)
    }

    /// The living entities that have an id which the pattern matches, ascending. Its time grows with how many they are,
    /// and with the tables whose types have such an id. An `Err` comes where memory is refused, and never where nobody has
    /// such an id.
    pub fn entities_with(&self, pattern: Pattern) -> Result<Vec<Entity>, AllocError>
        ensures all { IfOk result (λ v. v.items ≡ entities_with self.now.entities pattern) }
        ensures some { OnErr result
            (IsTrue (list_any (λ p. has_match pattern p.1) (living self.now.entities))) }
    {
        eco_ids::order::handles_are_ordered();
        eco_ids::order::ascending_lists_are_sets();
        let found = self.tables_by(&pattern)?;
        entities_in(self.alloc, found.tables, &found.slots)
    }

    /// The types of living entities with an id that the pattern matches, each once, in any order. An `Err` comes where
    /// memory is refused, and never where nobody has such an id.
    pub fn types_with(&self, pattern: Pattern) -> Result<Vec<TypeList>, AllocError>
        ensures listed { IfOk result (λ types. (ids : List Ids) →
            Contains types.items ids ↔ IsTypeWith self.now.entities pattern ids) }
        ensures distinct { IfOk result (λ types. AllPairs (λ one other. one ≢ other) types.items) }
        ensures some { OnErr result
            (IsTrue (list_any (λ p. has_match pattern p.1) (living self.now.entities))) }
    {
        let found = self.tables_by(&pattern)?;
        types_in(self.alloc, found.tables, &found.slots)
    }
}
