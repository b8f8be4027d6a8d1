//! Reads the bytes of texts into what is written there, with no name looked up.
#![tactic(auto)]

mod between;
mod classes;
mod inside;
pub mod laws;
mod point;
mod scan;
mod skip;
mod terms;
mod written;

pub use point::{Head, Mark};
pub use scan::{scan_id, scan_query, scan_ref};
pub use terms::Terms;
pub use written::{Reference, WrittenAtom, WrittenPart};
