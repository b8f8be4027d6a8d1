//! The tables of a store, one for each type, with all that finds them (Flecs manual, Quickstart: entities with the same
//! components stand together in an archetype table).
//!
//! [`Archetypes`] has the tables in their slots, and the indices of `eco_index` over these. A type finds its table through a map,
//! an id that comes or goes leads over an edge from a table to the next, and a pattern finds the tables whose types have an id
//! that it matches through an index. Who asks for more than a pattern asks by a [`TypeTest`]. A query that is asked again and
//! again may be kept with the tables that it finds ([`Archetypes::keep`]): each table that comes, turns or goes is told to all
//! that are kept.
//!
//! A living entity stands in one row, of the table of its type. Who only reads a store is lent its [`Places`], and who changes
//! entities by their tables asks it as a [`Population`]; neither has to know the store.
#![tactic(auto)]

mod archetypes;
mod found;
mod occupied;
mod places;
mod population;
mod type_change;

pub use archetypes::Archetypes;
pub use eco_index::{AllOf, NamingTest, Seed, TypeTest};
pub use found::{Found, FoundSlots, entities_in};
pub use places::Places;
pub use population::Population;
pub use type_change::TypeChange;
