//! What finds the tables of a store by keys: indices over the slots in which tables stand, none of which owns a table (Flecs
//! manual, Quickstart: entities with the same components stand together in an archetype table).
//!
//! The fingerprint of a type leads to the slots of the tables whose types have it ([`TypeMap`]), an id that comes or goes leads
//! from a slot to the next ([`Edges`]), and a pattern to the slots of the types that have an id which it matches ([`IdIndex`]).
//! Who asks for more than a pattern asks by a [`TypeTest`].
//!
//! What the slots of a query find on types stands here too: the entries that they may have on the entities of one type, each slot's
//! own and all choices of one for each slot ([`choices_of`]); and the caches of the queries that a store keeps ([`Caches`]). A cache has
//! the slots of the tables whose types fulfil its query, and is told of each table that is made, takes another type or is dropped
//! (Flecs manual, Queries: cached queries). While a query has just one choice of entries on the type of each of its slots, its cache
//! keeps that too.
#![tactic(auto)]

mod cache;
mod caches;
mod choices;
mod edges;
mod entries;
mod fillings;
mod id_index;
mod occupancy;
mod only_entry;
mod product;
mod seed;
mod seen;
mod single;
mod type_map;
mod type_names;
mod type_test;

pub use caches::Caches;
pub use choices::Choices;
pub use edges::Edges;
pub use id_index::IdIndex;
pub use occupancy::Occupancy;
pub use product::{choices_of, find_only};
pub use seed::Seed;
pub use type_map::TypeMap;
pub use type_names::{is_named_in, only_named};
pub use type_test::{AllOf, NamingTest, TypeTest};
