//! Cases of all kinds.
use crate::bench::arguments::Choice;
use crate::bench::call_case::CallCase;
use crate::bench::failure::Failure;
use crate::bench::frames::FrameCase;
use crate::bench::shared::SharedCase;
use std::alloc::Global;
use std::rt::Clock;
use std::sync::Wait;
use std::thread::Threads;

/// What is measured, at some sizes.
#[derive(Clone, Copy)]
pub enum Case {
    /// Single calls of a world.
    Call(&'static CallCase),
    /// Frames of systems.
    Frame(&'static FrameCase),
    /// A shared world.
    Shared(&'static SharedCase),
}

impl Case {
    /// As its lines begin.
    pub fn name(self) -> &'static str {
        match self {
            Case::Call(case) => case.name(),
            Case::Frame(case) => case.name(),
            Case::Shared(case) => case.name(),
        }
    }

    /// The sizes at which it is measured.
    pub fn sizes(self) -> &'static [u32] {
        match self {
            Case::Call(case) => case.sizes(),
            Case::Frame(case) => case.sizes(),
            Case::Shared(case) => case.sizes(),
        }
    }

    // The time of one call of one run, in hundredths of a nanosecond.
    fn hundredths<R: Clock + Threads + Wait + Copy + Drop + Send + Sync + 'static>(
        self,
        rt: R,
        alloc: Global,
        size: u32,
    ) -> Result<u64, Failure> {
        match self {
            Case::Call(case) => case.hundredths(&rt, alloc, size),
            Case::Frame(case) => case.hundredths(&rt, alloc, size),
            Case::Shared(case) => case.hundredths(rt, alloc, size),
        }
    }

    /// The least time of one call of the runs that are chosen, in hundredths of a nanosecond: each run is in a fresh world, and
    /// there is one at least. None where nothing is to be measured.
    pub fn best_hundredths<R: Clock + Threads + Wait + Copy + Drop + Send + Sync + 'static>(
        self,
        rt: R,
        alloc: Global,
        choice: &Choice<'_>,
        size: u32,
    ) -> Result<Option<u64>, Failure> {
        if !choice.is_run {
            return Ok(None);
        }
        let mut best = self.hundredths(rt, alloc, size)?;
        for _ in 1..choice.repeat {
            best = best.min(self.hundredths(rt, alloc, size)?);
        }
        Ok(Some(best))
    }
}
