//! Tests of what lies below a world (`below`), of a store and of a world, of frames, of typed components, of the shared world and
//! of runs of scripts: long runs, threads, each call that may want memory, where there is enough of it, and devices that give or
//! take little at a time, fail or never end.
#![tactic(auto)]

#[cfg(test)]
mod answers;
#[cfg(test)]
mod below;
#[cfg(test)]
mod bodies;
pub mod bounds;
#[cfg(test)]
mod called;
#[cfg(test)]
mod copying;
#[cfg(test)]
mod devices;
#[cfg(test)]
mod draws;
#[cfg(test)]
mod entering;
#[cfg(test)]
mod filter;
#[cfg(test)]
mod following;
#[cfg(test)]
mod frame_runs;
#[cfg(test)]
mod frames;
#[cfg(test)]
mod handles;
#[cfg(test)]
mod in_turn;
#[cfg(test)]
mod layout;
#[cfg(test)]
mod listings;
#[cfg(test)]
mod long_frames;
#[cfg(test)]
mod long_run;
#[cfg(test)]
mod looking;
#[cfg(test)]
mod mirror_deeds;
#[cfg(test)]
mod mirror_frames;
#[cfg(test)]
mod mirrors;
#[cfg(test)]
mod one_by_one;
#[cfg(test)]
mod plain;
#[cfg(test)]
mod plans;
#[cfg(test)]
mod questions;
#[cfg(test)]
mod reports;
#[cfg(test)]
mod rounds;
#[cfg(test)]
mod run_rows;
#[cfg(test)]
mod ships;
#[cfg(test)]
mod steps;
#[cfg(test)]
mod store;
#[cfg(test)]
mod sweeps;
#[cfg(test)]
mod telling;
#[cfg(test)]
mod twins;
#[cfg(test)]
mod worlds;
