//! Entities in rows, one table for each type, values in columns (Flecs manual, "Component Traits" and "Queries": entities
//! with the same components are stored together in an archetype table).
//!
//! A [`Table`] is a type and a list of rows: each row is an entity and one value for each id of the type. [`Tables`] keeps
//! tables in slots, and moves rows from one to another. Room is taken first (`reserve`, `reserve_rows`), and what goes
//! into reserved room takes no memory and cannot fail.
//!
//! Which ids are data is not known here: a table is told how many fields the values of each id may use, and keeps so many.
//! An id of width 0 has a value as well, zeros, and takes no memory.
#![tactic(auto)]

mod column;
mod columns;
mod table;
mod tables;
mod values;

pub use table::Table;
pub use tables::Tables;
pub use values::Values;
