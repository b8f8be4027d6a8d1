//! The cases of frames: systems that run on a world.
use crate::bench::failure::Failure;
use crate::bench::heavy::Heavy;
use crate::bench::per_call::hundredths_for_one;
use crate::bench::simulation::Simulation;
use eco_bodies::Script;
use eco_ids::Refusal;
use std::alloc::Global;
use std::rt::Clock;
use std::thread::Threads;
use std::time::{Duration, Instant};

/// What is there before the time is taken, where the size of a case is N, and what is measured.
#[derive(Clone, Copy)]
enum FrameStart {
    /// N entities have values of two components, and one system adds the second to the first. A frame was run before.
    Sum,
    /// N/100 components of one field, each of which one entity has and one system doubles. A frame was run before.
    Many,
    /// N entities have a tag, and one system makes an entity with another tag for each.
    Spawn,
    /// N entities have a tag; one system adds another to each who lacks it, and one takes that away, and adds a third and takes it
    /// away. A frame was run before.
    Tags,
    /// N entities have a value, and one system sets each to a number that takes long to find. A frame was run before.
    Heavy,
    /// N systems of ten patterns each, of which the batches are made and none runs.
    Points,
}

/// A case: its name, its sizes, what is there before, how many frames are measured, and how many workers record. The size says how
/// many rows are recorded, or how many systems there are.
#[derive(Clone, Copy)]
pub struct FrameCase(&'static str, &'static [u32], FrameStart, u32, u32);

/// All cases of frames, in the order of their lines.
pub const FRAME_CASES: &[FrameCase] = &[
    FrameCase("frame_sum/1", &[100_000], FrameStart::Sum, 1, 1),
    FrameCase("frame_sum/2", &[100_000], FrameStart::Sum, 1, 2),
    FrameCase("frame_sum/4", &[100_000], FrameStart::Sum, 1, 4),
    FrameCase("frame_many/1", &[6_500], FrameStart::Many, 100, 1),
    FrameCase("frame_many/2", &[6_500], FrameStart::Many, 100, 2),
    FrameCase("frame_many/4", &[6_500], FrameStart::Many, 100, 4),
    FrameCase("frame_spawn", &[100_000], FrameStart::Spawn, 1, 1),
    FrameCase("frame_tags", &[20_000], FrameStart::Tags, 1, 1),
    FrameCase("frame_heavy/1", &[100_000], FrameStart::Heavy, 1, 1),
    FrameCase("frame_heavy/2", &[100_000], FrameStart::Heavy, 1, 2),
    FrameCase("frame_heavy/4", &[100_000], FrameStart::Heavy, 1, 4),
    FrameCase("sync_points_1000", &[1_000], FrameStart::Points, 1, 1),
];

// Makes what is there before the frames of scripts.
fn make(
    simulation: &mut Simulation<Script>,
    alloc: Global,
    start: FrameStart,
    size: u32,
) -> Result<(), Refusal> {
    match start {
        FrameStart::Sum => simulation.make_sum(alloc, size),
        FrameStart::Many => simulation.make_many(alloc, size),
        FrameStart::Spawn => simulation.make_spawn(alloc, size),
        FrameStart::Tags => simulation.make_tags(alloc, size),
        FrameStart::Points => simulation.make_points(alloc, size),
        FrameStart::Heavy => Ok(()),
    }
}

impl FrameCase {
    /// As its lines begin.
    pub fn name(&self) -> &'static str {
        self.0
    }

    /// The sizes at which it is measured.
    pub fn sizes(&self) -> &'static [u32] {
        self.1
    }

    /// The time of one call of one run, in hundredths of a nanosecond.
    pub fn hundredths<R: Clock + Threads + Sync>(
        &self,
        rt: &R,
        alloc: Global,
        size: u32,
    ) -> Result<u64, Failure> {
        Ok(hundredths_for_one(self.time(rt, alloc, size)?, size))
    }

    // How long the frames of one run took. Neither what comes before nor giving up the world and the pipeline is timed.
    fn time<R: Clock + Threads + Sync>(
        &self,
        rt: &R,
        alloc: Global,
        size: u32,
    ) -> Result<Duration, Failure> {
        if matches!(self.2, FrameStart::Heavy) {
            return self.time_heavy(rt, alloc, size);
        }
        let mut simulation = Simulation::new(alloc)?;
        make(&mut simulation, alloc, self.2, size)?;
        match self.2 {
            FrameStart::Points => time_points(rt, alloc, &simulation),
            FrameStart::Spawn => simulation.time(rt, alloc, 0, self.3, self.4, size as usize),
            _ => simulation.time(rt, alloc, 1, self.3, self.4, size as usize),
        }
    }

    // The same of the case with a body of its own.
    fn time_heavy<R: Clock + Threads + Sync>(
        &self,
        rt: &R,
        alloc: Global,
        size: u32,
    ) -> Result<Duration, Failure> {
        let mut simulation: Simulation<Heavy> = Simulation::new(alloc)?;
        simulation.make_heavy(size)?;
        simulation.time(rt, alloc, 1, self.3, self.4, size as usize)
    }
}

// How long it takes to make the batches of a thousand systems, which are ten.
fn time_points<C: Clock>(
    clock: &C,
    alloc: Global,
    simulation: &Simulation<Script>,
) -> Result<Duration, Failure> {
    let start = Instant::now(clock)?;
    let batches = simulation.cut(alloc)?;
    let time = start.elapsed(clock)?;
    if batches == 10 {
        Ok(time)
    } else {
        Err(Failure::WrongAnswer)
    }
}
