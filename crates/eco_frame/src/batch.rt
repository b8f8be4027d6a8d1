//! A batch of systems: recorded on one world, and merged into it.
ghost use Rattle.std.specs.Prelude.{◌≡◌, ◌+◌, ◌<◌, ◌≤◌, length, map, vec_capacity, vec_len, IfErr, IfOk, OnErr, OnOk};
ghost use Rattle.std.specs.List.{All};
ghost use Rattle.eco_ids.specs.declared.refusal.Refusal.TheVariants.{NoMoreIds};
ghost use Rattle.eco_workers.specs.Alone.{IsInTurn, IsOutInTurn};
ghost use Rattle.eco_workers.specs.Batches.{IsOut};
ghost use Rattle.eco_stages.specs.Taking.{by_index, IsStopped};
ghost use Rattle.eco_stages.specs.Merging.{all_commands};
ghost use Rattle.eco_frame.specs.Models.{model_at, model_of};
ghost use Rattle.eco_frame.specs.Pieces.{AreGiven, IsRecorded, IsRunOut, Settled};
ghost use Rattle.eco_frame.specs.Progresses.{HasRun};

use crate::chunk::chunks;
use crate::part::{Part, parts, pieces};
use crate::progress::Progress;
use eco_bodies::{System, SystemBody};
use eco_ids::Refusal;
use eco_stages::Stage;
use eco_workers::{Piece, count_pieces, run_alone, run_batch};
use eco_world::World;
use std::alloc::Global;
use std::mem::replace;
use std::thread::Threads;

// Does nothing, and its contract is the law of bodies that they look at no more of the handles than they take.
fn are_settled<B: SystemBody>()
    ensures { Settled B.taken B.commands }
{}

// How many rows of light bodies make one more thread worth its start.
const LIGHT_ROWS: usize = 4096;

// Whether all bodies are light.
fn are_light<B: SystemBody>(parts: &[Part<'_, B>]) -> bool {
    for part in parts {
        if !part.body.is_light() {
            return false;
        }
    }
    true
}

// How many rows there are in all.
fn count_rows<B>(parts: &[Part<'_, B>]) -> usize {
    let mut rows = 0usize;
    for part in parts {
        rows = rows.saturating_add(part.rows.len());
    }
    rows
}

// How many workers record the parts: as many as may, but where all bodies are light one, and one more for each further
// `LIGHT_ROWS`.
fn workers_for<B: SystemBody>(parts: &[Part<'_, B>], workers: u32) -> u32
    requires { 1 ≤ workers }
    ensures { (1 ≤ result) × (result ≤ workers) }
{
    if !are_light(parts) {
        return workers;
    }
    let most = 1 + count_rows(parts) / LIGHT_ROWS;
    most.min(workers as usize) as u32
}

// Records the pieces on this thread alone, all into one stage, which takes the memory of a spare one.
fn record_alone<P: Piece>(
    alloc: Global,
    spare: &mut Vec<Stage>,
    pieces: &[P],
    base: u32,
    limit: u32,
) -> Result<(Vec<Stage>, u32), Refusal>
    requires { base ≤ limit }
    ensures batch { IfOk result (λ r. IsInTurn (by_index P.commands) (by_index P.taken) pieces.now base r.1
        (all_commands r.0.items)) }
    ensures most { IfOk result (λ r. base + r.1 ≤ limit) }
    ensures why { IfErr result (λ e. IsStopped e) }
    ensures out { IfErr result (λ e. e ≡ NoMoreIds
        → IsOutInTurn (by_index P.commands) (by_index P.taken) pieces.now base limit) }
{
    let mut stages = Vec::with_capacity(alloc, 1)?;
    let own = spare.pop().unwrap_or(Stage::new(alloc));
    let (stage, drawn) = run_alone(own, pieces, base, limit)?;
    stages.push_reserved(stage);
    Ok((stages, drawn))
}

// Records the pieces by so many workers: by one into one stage, else each chunk of them into a stage of its own.
fn record_pieces<P: Piece + Sync, R: Threads + Sync>(
    rt: &R,
    alloc: Global,
    spare: &mut Vec<Stage>,
    pieces: &[P],
    workers: u32,
    base: u32,
    limit: u32,
) -> Result<(Vec<Stage>, u32), Refusal>
    requires indices { (base ≤ limit) × (limit ≤ 1048576) }
    requires workers { (1 ≤ workers) × (workers ≤ 64) }
    ensures batch { IfOk result (λ r. AreGiven (by_index P.commands) (by_index P.taken) workers pieces.now
        base r.1 (all_commands r.0.items)) }
    ensures most { IfOk result (λ r. base + r.1 ≤ limit) }
    ensures why { IfErr result (λ e. IsStopped e) }
    ensures out { IfErr result (λ e. e ≡ NoMoreIds
        → IsOut (by_index P.commands) (by_index P.taken) pieces.now base limit) }
    ensures few { OnOk result (length pieces.now ≤ 16777216) }
    ensures gone { IfErr result (λ e. e ≡ NoMoreIds → length pieces.now ≤ 16777216) }
{
    // However many workers there are, it stops at the same number of pieces.
    count_pieces(pieces)?;
    if workers == 1 {
        return record_alone(alloc, spare, pieces, base, limit);
    }
    let chunks = chunks(alloc, pieces, workers)?;
    let spare = replace(spare, Vec::new(alloc));
    run_batch(rt, alloc, spare, &chunks, workers, base, limit)
}

// Records the systems at some positions of declaration on a world. Answers stages, which in order hold what the pieces of the
// systems record in order, and how many handles were drawn. By one worker it is one stage, else one for each chunk of
// pieces.
fn record<B: SystemBody + Sync, R: Threads + Sync>(
    rt: &R,
    alloc: Global,
    spare: &mut Vec<Stage>,
    world: &World,
    systems: &[System<B>],
    places: &[usize],
    workers: u32,
) -> Result<(Vec<Stage>, u32), Refusal>
    requires workers { (1 ≤ workers) × (workers ≤ 64) }
    requires places { All (λ k. k < length systems.now) places.now }
    ensures ok { IfOk result (λ r. IsRecorded workers world.now
        (map (model_at (map (model_of B.reads_of B.writes_of B.kills_of B.taken B.commands) systems.now))
        places.now) (all_commands r.0.items) r.1) }
    ensures most { IfOk result (λ r. length world.now.indices + r.1 ≤ world.now.limit) }
    ensures why { IfErr result (λ e. IsStopped e) }
    ensures out { IfErr result (λ e. e ≡ NoMoreIds
        → IsRunOut B.taken B.commands world.now systems.now places.now) }
{
    world.is_lawful();
    are_settled::<B>();
    let parts = parts(alloc, world, systems, places)?;
    let pieces = pieces(alloc, &parts)?;
    let workers = workers_for(&parts, workers);
    record_pieces(
        rt,
        alloc,
        spare,
        &pieces,
        workers,
        world.high(),
        world.limit(),
    )
}

// Keeps the memory of these stages for the batch to come, where there is room to list them.
fn keep(mut stages: Vec<Stage>, spare: &mut Vec<Stage>) {
    let _kept = spare.append(&mut stages);
}

// Runs one batch more: the systems at some positions of declaration are recorded on the world, and what they recorded is merged
// into it. What is refused changes nothing.
pub(crate) fn run_next<B: SystemBody + Sync, R: Threads + Sync>(
    rt: &R,
    alloc: Global,
    world: &mut World,
    systems: &[System<B>],
    places: &[usize],
    workers: u32,
    done: &mut Progress,
    spare: &mut Vec<Stage>,
) -> Result<(), Refusal>
    requires workers { (1 ≤ workers) × (workers ≤ 64) }
    requires places { All (λ k. k < length systems.now) places.now }
    requires room { vec_len done.old.reports < vec_capacity done.old.reports }
    ensures ok { OnOk result (HasRun workers world.old
        (map (model_at (map (model_of B.reads_of B.writes_of B.kills_of B.taken B.commands) systems.now))
        places.now) done.old done.new world.new) }
    ensures err { OnErr result ((world.new ≡ world.old) × (done.new ≡ done.old)) }
    ensures why { IfErr result (λ e. IsStopped e) }
    ensures out { IfErr result (λ e. e ≡ NoMoreIds
        → IsRunOut B.taken B.commands world.new systems.now places.now) }
{
    let (stages, drawn) = record(rt, alloc, spare, world, systems, places, workers)?;
    // So many commands that they can't be counted have no room either.
    let Some((commands, in_all)) = done.with_batch(&stages, drawn) else {
        return Err(Refusal::OutOfMemory);
    };
    let report = world.merge(drawn, &stages)?;
    done.push(report, commands, in_all);
    keep(stages, spare);
    Ok(())
}
