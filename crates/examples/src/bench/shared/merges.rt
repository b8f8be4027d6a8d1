//! How long merges take, into a shared world and into one that is not.
use super::scene::stage_of;
use crate::bench::failure::Failure;
use crate::bench::per_call::hundredths_for_one;
use eco_ids::Refusal;
use eco_shared::{Merger, Naming};
use eco_world::World;
use std::alloc::Global;
use std::rt::Clock;
use std::sync::Wait;
use std::time::Instant;

// So many merges are timed.
const MERGES: u32 = 200;

// Makes the stage of a turn, and merges it into a world that is not shared.
fn merge_plain(alloc: Global, world: &mut World, size: u32, turn: u32) -> Result<(), Refusal> {
    let stage = stage_of(alloc, size, turn)?;
    let _report = world.merge(0, &[stage])?;
    Ok(())
}

/// Makes the stage of a turn, and merges it into a shared world.
pub fn merge_shared<J: Naming, R: Wait + Drop>(
    alloc: Global,
    merger: &mut Merger<J, R>,
    size: u32,
    turn: u32,
) -> Result<(), Refusal> {
    let stage = stage_of(alloc, size, turn)?;
    let _report = merger.merge(0, &[stage])?;
    Ok(())
}

/// The time of one merge into a world of this size that is not shared, in hundredths of a nanosecond.
pub fn time_plain<C: Clock>(
    clock: &C,
    alloc: Global,
    world: &mut World,
    size: u32,
) -> Result<u64, Failure> {
    let start = Instant::now(clock)?;
    for turn in 0..MERGES {
        merge_plain(alloc, world, size, turn)?;
    }
    Ok(hundredths_for_one(start.elapsed(clock)?, MERGES))
}

/// The time of one merge into a shared world of this size, in hundredths of a nanosecond.
pub fn time_shared<J: Naming, R: Wait + Drop, C: Clock>(
    clock: &C,
    alloc: Global,
    merger: &mut Merger<J, R>,
    size: u32,
) -> Result<u64, Failure> {
    let start = Instant::now(clock)?;
    for turn in 0..MERGES {
        merge_shared(alloc, merger, size, turn)?;
    }
    Ok(hundredths_for_one(start.elapsed(clock)?, MERGES))
}
