//! Merges: the commands of stages are done, one after another, by whoever does commands, and their outcomes are written; and
//! stages are copied into one (Flecs manual, Systems, staging).
#![tactic(auto)]

mod copying;
pub mod laws;
mod merging;

pub use copying::copies_of;
pub use merging::{MergeTarget, apply_stages, room_for};
