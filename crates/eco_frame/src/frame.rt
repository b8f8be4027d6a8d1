//! Frames: all batches of a list of systems, one after another.
ghost use Rattle.std.specs.Prelude.{◌≡◌, ◌<◌, ◌≤◌, [], ℕ, length, map, take, vec_capacity, vec_len, Err, IfErr, OnErr, OnOk};
ghost use Rattle.std.specs.List.{All, AllByRecursion};
ghost use Rattle.eco_ids.specs.declared.refusal.Refusal.TheVariants.{NoMoreIds, OutOfMemory};
ghost use Rattle.eco_systems.specs.Systems.{IsLawfulSystem};
ghost use Rattle.eco_stages.specs.Taking.{IsStopped};
ghost use Rattle.eco_frame.specs.Models.{ArePlaced, model_at, model_of};
ghost use Rattle.eco_frame.specs.Progresses.{HaveRun};
ghost use Rattle.eco_frame.specs.Reports.{IsFrameBy};
ghost use Rattle.eco_frame.specs.Stops.{IsNextOut, IsWhy};

use crate::batch::run_next;
use crate::points::sync_points;
use crate::pool::StagePool;
use crate::progress::Progress;
use crate::report::FrameReport;
use crate::stop::FrameStop;
use eco_bodies::{System, SystemBody, Systems, systems_are_lawful};
use eco_ids::Refusal;
use eco_stages::Stage;
use eco_world::World;
use std::alloc::Global;
use std::thread::Threads;

// Does nothing, and its contract says that the systems keep the law of systems.
pub(crate) fn are_lawful<B: SystemBody>(systems: &[System<B>])
    ensures { AllByRecursion IsLawfulSystem
        (map (model_of B.reads_of B.writes_of B.kills_of B.taken B.commands) systems.now) }
{
    for system in systems {
        systems_are_lawful(system.phase, &system.query, &system.body);
    }
}

// Nothing was done of a frame: memory was wanting before its first batch.
pub(crate) fn stop_at_once<B: SystemBody>(world: &World, systems: &Systems<B>) -> FrameStop
    ensures frame { (workers : ℕ) → IsFrameBy workers world.now
        (map (model_of B.reads_of B.writes_of B.kills_of B.taken B.commands) systems.now)
        (Err result) world.now }
    ensures why { result.refusal ≡ OutOfMemory }
{
    world.is_lawful();
    eco_systems::laws::batches_are_unique();
    FrameStop {
        batches: 0,
        refusal: Refusal::OutOfMemory,
    }
}

// Runs batches, one after another, until one is refused.
fn run_all<B: SystemBody + Sync, R: Threads + Sync>(
    rt: &R,
    alloc: Global,
    world: &mut World,
    systems: &[System<B>],
    batches: &[Vec<usize>],
    workers: u32,
    done: &mut Progress,
    spare: &mut Vec<Stage>,
) -> Result<(), Refusal>
    requires workers { (1 ≤ workers) × (workers ≤ 64) }
    requires places { All (λ b. All (λ k. k < length systems.now) b.items) batches.now }
    requires none { (done.old.reports.items ≡ []) × (done.old.commands ≡ 0) × (done.old.drawn ≡ 0) }
    requires room { length batches.now ≤ vec_capacity done.old.reports }
    ensures so_far { HaveRun workers world.old
        (map (λ b. map
        (model_at (map (model_of B.reads_of B.writes_of B.kills_of B.taken B.commands) systems.now)) b.items)
        (take (vec_len done.new.reports) batches.now)) done.new world.new }
    ensures all { OnOk result (vec_len done.new.reports ≡ length batches.now) }
    ensures left { OnErr result (vec_len done.new.reports < length batches.now) }
    ensures why { IfErr result (λ e. IsStopped e) }
    ensures out { IfErr result (λ e. e ≡ NoMoreIds → IsNextOut B.taken B.commands world.new systems.now
        (map (λ b. b.items) batches.now) (vec_len done.new.reports)) }
{
    for places in batches {
        run_next(rt, alloc, world, systems, places, workers, done, spare)?;
    }
    Ok(())
}

// Runs the batches of some systems on a world, with which a frame begins.
pub(crate) fn run_batches<B: SystemBody + Sync + Drop, R: Threads + Sync>(
    rt: &R,
    alloc: Global,
    world: &mut World,
    systems: &Systems<B>,
    batches: &[Vec<usize>],
    workers: u32,
    spare: &mut Vec<Stage>,
) -> Result<FrameReport, FrameStop>
    requires workers { (1 ≤ workers) × (workers ≤ 64) }
    requires placed { ArePlaced world.old
        (map (model_of B.reads_of B.writes_of B.kills_of B.taken B.commands) systems.now)
        (map (λ b. b.items) batches.now) }
    ensures frame { IsFrameBy workers world.old
        (map (model_of B.reads_of B.writes_of B.kills_of B.taken B.commands) systems.now) result world.new }
    ensures why { IfErr result (λ stop. IsWhy B.taken B.commands
        (model_of B.reads_of B.writes_of B.kills_of B.taken B.commands)
        world.old systems.now stop world.new) }
{
    world.is_lawful();
    eco_systems::laws::systems_are_ordered();
    eco_systems::laws::frames_are_one_by_one();
    are_lawful(systems.as_slice());
    let Ok(mut done) = Progress::with_room(alloc, batches.len()) else {
        return Err(stop_at_once(world, systems));
    };
    match run_all(
        rt,
        alloc,
        world,
        systems.as_slice(),
        batches,
        workers,
        &mut done,
        spare,
    ) {
        Ok(()) => Ok(done.into_report()),
        Err(refusal) => Err(FrameStop {
            batches: done.reports.len(),
            refusal,
        }),
    }
}

/// Runs a frame of systems on a world (Flecs manual, Systems): for each batch between sync points, what its systems record on
/// the world as it is then, by at most so many threads, 1 to 64, the caller's among them, is merged into it. So a frame leaves
/// the world as the run of its systems one by one does with the same draws. More workers draw the same handles together, but
/// which row draws which may differ from run to run. With one worker they are drawn in the order of the rows.
///
/// It stops at a batch that is refused: with `NoMoreIds` where the rows of the batch draw more fresh handles than there are
/// indices left, and with `OutOfMemory` where memory is refused, or where the batch has more than 16,777,216 pieces of 64 rows.
/// The batches before it are merged then, and nothing else is done. A command that finds no memory is no reason to stop: its
/// outcome is `OutOfMemory`.
pub fn run_frame<B: SystemBody + Sync + Drop, R: Threads + Sync>(
    rt: &R,
    alloc: Global,
    world: &mut World,
    systems: &Systems<B>,
    workers: u32,
) -> Result<FrameReport, FrameStop>
    requires workers { (1 ≤ workers) × (workers ≤ 64) }
    ensures frame { IsFrameBy workers world.old
        (map (model_of B.reads_of B.writes_of B.kills_of B.taken B.commands) systems.now) result world.new }
    ensures why { IfErr result (λ stop. IsWhy B.taken B.commands
        (model_of B.reads_of B.writes_of B.kills_of B.taken B.commands)
        world.old systems.now stop world.new) }
{
    run_frame_with(
        rt,
        alloc,
        world,
        systems,
        workers,
        &mut StagePool::new(alloc),
    )
}

/// Runs a frame, as [`run_frame`] does, whose commands are recorded into the memory of a pool; what they took is there for the
/// next frame. So who runs one frame after another doesn't ask the system for memory in each.
pub fn run_frame_with<B: SystemBody + Sync + Drop, R: Threads + Sync>(
    rt: &R,
    alloc: Global,
    world: &mut World,
    systems: &Systems<B>,
    workers: u32,
    pool: &mut StagePool,
) -> Result<FrameReport, FrameStop>
    requires workers { (1 ≤ workers) × (workers ≤ 64) }
    ensures frame { IsFrameBy workers world.old
        (map (model_of B.reads_of B.writes_of B.kills_of B.taken B.commands) systems.now) result world.new }
    ensures why { IfErr result (λ stop. IsWhy B.taken B.commands
        (model_of B.reads_of B.writes_of B.kills_of B.taken B.commands)
        world.old systems.now stop world.new) }
{
    let Ok(batches) = sync_points(alloc, world, systems) else {
        return Err(stop_at_once(world, systems));
    };
    let spare = &mut pool.stages;
    run_batches(rt, alloc, world, systems, &batches, workers, spare)
}
