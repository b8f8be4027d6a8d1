//! The store of a world: entities with names, ids and values, kept in tables (Flecs manual, Quickstart: entities with the
//! same components stand together in an archetype table).
//!
//! A [`Store`] is seen as a map from entities to their names, ids and values. Inside, each living entity stands in one row
//! of the table of its type; a type finds its table through a map, and a pattern the tables whose types have an id that it
//! matches through an index. A few tables that lost their last row are kept for who comes back to them; when one more loses its
//! last row, the first of them is dropped, and its slot may be used again.
//!
//! Each id has a value, zeros when new. A table keeps as many fields of it as the arities of the entities in the id say, and all
//! where they are not known yet; whether an id is data is not known here.
//!
//! What a query answers on a store is made here too ([`Asking`], [`Results`]): the entries are made once for each table, and all rows
//! of a table share them.
#![tactic(auto)]

mod asking;
mod blocks;
mod coupling;
mod deaths;
mod entries;
mod fixed;
mod iter;
mod layout;
mod moving;
mod placing;
mod ranked;
mod results;
mod searching;
mod standing;
mod staying;
mod store;
mod transfer;
mod walking;

pub use asking::Asking;
pub use eco_archetypes::{
    AllOf, Archetypes, Found, NamingTest, Places, Population, Seed, TypeChange, TypeTest,
};
pub use eco_tables::{Table, Tables};
pub use iter::ResultIter;
pub use moving::Move;
pub use results::{Results, results_of};
pub use store::Store;
