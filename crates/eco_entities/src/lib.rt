//! The entity index: handles that are never confused, and the names, arities and places of the living.
#![tactic(auto)]

mod bucket;
mod cell;
mod entity_index;
mod free_set;
mod homes;
mod label;
mod labels;
pub mod laws;
mod level;
mod names;
mod page;
mod place;
mod slot;
mod slot_list;
mod slots;
mod table;
mod tag;

pub use entity_index::EntityIndex;
pub use homes::Homes;
pub use place::Place;
