//! Systems, and in `specs/` what a frame of them is (Flecs manual, Systems): phases, the batches between sync points, what a
//! system records, and the run of all systems one by one.
#![tactic(auto)]

pub mod laws;
mod phase;

pub use phase::{PHASES, Phase};
