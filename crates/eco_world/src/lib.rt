//! A world of entities with names, ids and values.
#![tactic(auto)]

mod builtins;
mod columns;
mod entity_ref;
mod kept_query;
pub mod laws;
mod loss;
mod query_id;
mod row;
mod table_rows;
mod type_order;
mod world;

pub use columns::{Column, Columns};
pub use eco_query::{Access, Query, Slot, Term};
pub use eco_stages::{Command, Kept, Recorded, Report, RunSet, Stage, Width};
pub use eco_store::Results;
pub use eco_tables::Values;
pub use entity_ref::EntityRef;
pub use query_id::QueryId;
pub use row::Row;
pub use table_rows::TableRows;
pub use world::World;
