//! Queries: lists of slots, each with what it asks of an entity.
#![tactic(auto)]

pub mod access;
pub mod query;
pub mod slot;
pub mod term;

pub use access::Access;
pub use query::Query;
pub use slot::Slot;
pub use term::{Term, exactly};
