//! The cases of a shared world: merges into it, and entries into it, alone and beside a merger that never rests.
mod entries;
mod merges;
mod scene;

ghost use Rattle.std.specs.Prelude.{◌≡◌};

use self::entries::{time_beside, time_entries};
use self::merges::{time_plain, time_shared};
use self::scene::opening;
use crate::bench::failure::Failure;
use eco_shared::{Blank, Merger, Naming, Viewer, open};
use std::alloc::Global;
use std::marker::Brand;
use std::rt::Clock;
use std::sync::Wait;
use std::thread::Threads;

// So many entities have the worlds of all these cases.
const SIZES: &[u32] = &[1_000, 100_000, 1_000_000];

// So many viewers has a shared world, of whom a case may let some enter.
const VIEWERS: usize = 8;

/// What is measured.
#[derive(Clone, Copy)]
enum Measured {
    /// Merges into a world that is not shared: the yardstick for the others.
    PlainMerges,
    /// Merges into a shared world that nobody enters.
    Merges,
    /// Entries of one viewer, without a merge.
    Entries,
    /// Entries of so many viewers, each in a thread of its own, beside a merger that never rests.
    EntriesBeside(usize),
}

/// A case: its name, and what is measured.
#[derive(Clone, Copy)]
pub struct SharedCase(&'static str, Measured);

/// All cases of a shared world, in the order of their lines.
pub const SHARED_CASES: &[SharedCase] = &[
    SharedCase("plain_merge", Measured::PlainMerges),
    SharedCase("shared_merge", Measured::Merges),
    SharedCase("enter", Measured::Entries),
    SharedCase("enter/1", Measured::EntriesBeside(1)),
    SharedCase("enter/2", Measured::EntriesBeside(2)),
    SharedCase("enter/4", Measured::EntriesBeside(4)),
];

impl SharedCase {
    /// As its lines begin.
    pub fn name(&self) -> &'static str {
        self.0
    }

    /// The sizes at which it is measured.
    pub fn sizes(&self) -> &'static [u32] {
        SIZES
    }

    /// The time of one call of one run, in hundredths of a nanosecond. The making of the worlds is not timed.
    pub fn hundredths<R: Clock + Threads + Wait + Copy + Drop + Send + Sync + 'static>(
        &self,
        rt: R,
        alloc: Global,
        size: u32,
    ) -> Result<u64, Failure> {
        match self.1 {
            Measured::PlainMerges => measure_plain(&rt, alloc, size),
            // The registry gets its name here: `Brand` stands for one that this call picks (proofs/shared/SharedCase/hundredths).
            measured => share::<Brand, R>(rt, alloc, Blank::new(), measured, size),
        }
    }
}

// Measures a world that is not shared.
fn measure_plain<C: Clock>(clock: &C, alloc: Global, size: u32) -> Result<u64, Failure> {
    let mut world = opening(alloc, size)?;
    time_plain(clock, alloc, &mut world, size)
}

// Shares a world, and measures it.
fn share<
    J: Naming + Send + 'static,
    R: Clock + Threads + Wait + Copy + Drop + Send + Sync + 'static,
>(rt: R, alloc: Global, blank: Blank, measured: Measured, size: u32) -> Result<u64, Failure>
    requires { blank.front.seen.book ≡ J.book }
{
    let world = opening(alloc, size)?;
    let mut registry = blank.named::<J>();
    match open(rt, &mut registry, alloc, world, VIEWERS) {
        Ok((mut merger, mut viewers)) => measure(
            rt,
            alloc,
            &mut merger,
            &mut viewers,
            measured,
            size,
        ),
        Err((_, refusal)) => Err(Failure::Refused(refusal)),
    }
}

// The time of one call of those that are measured, in hundredths of a nanosecond.
fn measure<
    J: Naming + Send + 'static,
    R: Clock + Threads + Wait + Copy + Drop + Send + Sync + 'static,
>(
    rt: R,
    alloc: Global,
    merger: &mut Merger<J, R>,
    viewers: &mut Vec<Viewer<J, R>>,
    measured: Measured,
    size: u32,
) -> Result<u64, Failure> {
    match measured {
        Measured::EntriesBeside(count) => time_beside(rt, alloc, merger, viewers, count, size),
        Measured::Entries => match viewers.pop() {
            Some(mut viewer) => time_entries(&rt, &mut viewer),
            None => Err(Failure::WrongAnswer),
        },
        _ => time_shared(&rt, alloc, merger, size),
    }
}
