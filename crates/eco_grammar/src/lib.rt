//! Reads references, ids and queries from texts.
#![tactic(auto)]

mod build;
mod last_term;
pub mod laws;
pub mod names;
mod range;
pub mod read;
mod resolve;

pub use names::Names;
pub use read::{read_id, read_query, read_ref};
