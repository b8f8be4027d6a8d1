//! Runs of a frame: of one system alone, and of several, held against the same systems run one by one.
ghost use Rattle.std.specs.Prelude.{◌≤◌};

use crate::listings::are_same;
use crate::one_by_one::{Done, OneByOne, number_of};
use crate::plans::FramePlan;
use eco_bodies::{SystemBody, Systems};
use eco_frame::{FrameReport, run_frame};
use eco_systems::Phase;
use eco_world::{Query, World};
use std::alloc::Global;
use std::thread::Threads;

/// What the frames of a run did.
#[derive(Clone, Copy)]
pub struct Totals {
    pub systems: usize,
    pub batches: usize,
    pub commands: usize,
    pub refused: usize,
    pub drawn: u32,
}

impl Totals {
    /// No frame.
    pub fn new() -> Totals {
        Totals {
            systems: 0,
            batches: 0,
            commands: 0,
            refused: 0,
            drawn: 0,
        }
    }

    // One frame more.
    fn count(&mut self, systems: usize, report: &FrameReport, done: &[Done]) {
        self.systems = self.systems.saturating_add(systems);
        self.batches = self.batches.saturating_add(report.batches());
        self.commands = self.commands.saturating_add(report.commands());
        self.drawn = self.drawn.saturating_add(report.drawn());
        for command in done {
            if command.outcome.is_err() {
                self.refused = self.refused.saturating_add(1);
            }
        }
    }
}

/// Runs a frame of this system alone, and tells whether it has one batch.
pub fn runs_alone<R: Threads + Sync, B: SystemBody + Sync + Drop>(
    rt: &R,
    alloc: Global,
    world: &mut World,
    query: Query,
    body: B,
    workers: u32,
) -> bool
    requires { (1 ≤ workers) × (workers ≤ 64) }
{
    let mut systems = Systems::new(alloc);
    if systems.add("alone", Phase::OnUpdate, query, body).is_err() {
        return false;
    }
    match run_frame(rt, alloc, world, &systems, workers) {
        Ok(report) => report.batches() == 1,
        Err(_) => false,
    }
}

// Whether a frame's commands have these outcomes.
fn has_outcomes(report: &FrameReport, done: &[Done]) -> bool {
    let mut rest = done;
    for part in report.reports() {
        for outcome in part.iter() {
            match rest {
                [first, others @ ..] if number_of(first.outcome) == number_of(outcome) => {
                    rest = others;
                }
                _ => return false,
            }
        }
    }
    rest.is_empty()
}

/// Runs a frame of the systems, and tells whether it is what is expected, but for which fresh index is whose. One worker draws as is
/// expected.
pub fn runs_as<R: Threads + Sync, B: SystemBody + Sync + Drop>(
    rt: &R,
    alloc: Global,
    world: &mut World,
    systems: &Systems<B>,
    workers: u32,
    expected: &OneByOne,
    totals: &mut Totals,
) -> bool
    requires { (1 ≤ workers) × (workers ≤ 64) }
{
    let known = if workers == 1 { u32::MAX } else { world.high() };
    match run_frame(rt, alloc, world, systems, workers) {
        Ok(report) => {
            totals.count(systems.as_slice().len(), &report, &expected.done);
            has_outcomes(&report, &expected.done) && are_same(alloc, world, &expected.world, known)
        }
        Err(_) => false,
    }
}

/// Runs a frame of the systems, and tells whether it is the run of their plans one by one on a copy of the world.
pub fn frame_agrees<R: Threads + Sync, B: SystemBody + Sync + Drop>(
    rt: &R,
    alloc: Global,
    world: &mut World,
    systems: &Systems<B>,
    workers: u32,
    plans: &[FramePlan],
    totals: &mut Totals,
) -> bool
    requires { (1 ≤ workers) × (workers ≤ 64) }
{
    match OneByOne::begin(alloc, world) {
        Ok(mut expected) => {
            expected.run(world, plans)
                && runs_as(rt, alloc, world, systems, workers, &expected, totals)
        }
        Err(_) => false,
    }
}
