//! Batches: workers record pieces side by side, and the stages come in order.
ghost use Rattle.std.specs.Prelude.{◌≡◌, ◌≤◌, ℕ, [], ◌∷◌, ◌++◌, get_or, IfErr, OnOk};
ghost use Rattle.eco_ids.specs.Run.{Create};
ghost use Rattle.eco_ids.specs.declared.refusal.Refusal.TheVariants.{OutOfMemory};
ghost use Rattle.eco_ids.specs.declared.entity.TheConstants.{CHILD_OF};

use eco_ids::{Entity, Id, Refusal};
use eco_stages::{Command, Draws, Recorded, Stage};
use eco_workers::{Piece, run_batch};
use std::alloc::Global;
use std::sync::atomic::{AtomicU64, Ordering};
use std::thread::Threads;

// Makes an entity of a fresh handle.
fn make_one(made: Entity, stage: &mut Stage) -> Result<(), Refusal>
    ensures ok { OnOk result (stage.new ≡ stage.old ++ Create made ∷ []) }
    ensures err { IfErr result (λ why. why ≡ OutOfMemory) }
{
    match stage.record(Command::Create(made)) {
        Ok(()) => Ok(()),
        Err(_) => Err(Refusal::OutOfMemory),
    }
}

// Makes one entity.
#[derive(Clone, Copy, Drop)]
struct Made;

impl Piece for Made {
    ghost commands = { λ s draws. Create (get_or draws 0 CHILD_OF) ∷ [] };

    ghost taken = { λ s draws. 1 };

    fn record<D: Draws>(&self, draws: &mut D, stage: &mut Stage) -> Result<(), Refusal> {
        let made = draws.draw()?;
        make_one(made, stage)
    }
}

// Waits, where it is no last piece, until the last one is recorded, for so many turns; notes where it waited in vain.
#[derive(Clone, Copy, Drop)]
struct Gate<'a> {
    is_last: bool,
    turns: u64,
    opened: &'a AtomicU64,
    missed: &'a AtomicU64,
}

impl Gate<'_> {
    // Opens or waits.
    fn pass(&self) {
        if self.is_last {
            self.opened.store(1, Ordering::SeqCst);
            return;
        }
        for _ in 0..self.turns {
            if self.opened.load(Ordering::SeqCst) == 1 {
                return;
            }
        }
        self.missed.store(1, Ordering::SeqCst);
    }
}

impl Piece for Gate<'_> {
    ghost commands = { λ s draws. [] };

    ghost taken = { λ s draws. 0 };

    fn record<D: Draws>(&self, _draws: &mut D, _stage: &mut Stage) -> Result<(), Refusal> {
        self.pass();
        Ok(())
    }
}

// How many stages there are, and how many handles were drawn from 5 on, where a hundred pieces draw one each.
fn make_hundred<R: Threads + Sync>(
    rt: &R,
    alloc: Global,
    workers: u32,
    limit: u32,
) -> Result<(usize, u32), Refusal>
    requires { (1 ≤ workers) × (workers ≤ 64) × (5 ≤ limit) × (limit ≤ 1000) }
{
    let (stages, drawn) = run_batch(rt, alloc, Vec::new(alloc), &[Made; 100], workers, 5, limit)?;
    Ok((stages.len(), drawn))
}

// Whether a limit of 105 has a handle for each piece, and one of 104 does not.
fn last<R: Threads + Sync>(rt: &R, alloc: Global, workers: u32) -> bool
    requires { (1 ≤ workers) × (workers ≤ 64) }
{
    make_hundred(rt, alloc, workers, 105) == Ok((100, 100))
        && make_hundred(rt, alloc, workers, 104) == Err(Refusal::NoMoreIds)
}

#[test]
fn handles_last_to_the_limit(rt: HostRuntime) {
    for workers in 1..5 {
        assert!(rt; last(&rt, rt.alloc(), workers));
    }
}

// Whether eight workers are inside eight pieces at once.
fn overlap<R: Threads + Sync>(rt: &R, alloc: Global) -> Result<bool, Refusal> {
    let opened = AtomicU64::new(0);
    let missed = AtomicU64::new(0);
    let waiting = Gate {
        is_last: false,
        turns: 2_000_000_000,
        opened: &opened,
        missed: &missed,
    };
    let mut gates = [waiting; 8];
    gates[7].is_last = true;
    run_batch(rt, alloc, Vec::new(alloc), &gates, 8, 0, 0)?;
    Ok(missed.load(Ordering::SeqCst) == 0)
}

// Draws a handle, waits until so many pieces have drawn one, for so many turns, and draws another; notes where it waited in vain.
#[derive(Clone, Copy, Drop)]
struct Twice<'a> {
    pieces: u64,
    turns: u64,
    drew: &'a AtomicU64,
    missed: &'a AtomicU64,
}

impl Twice<'_> {
    // Tells that one more piece has drawn, and waits for the others.
    fn meet(&self) {
        self.drew.fetch_add(1, Ordering::SeqCst);
        for _ in 0..self.turns {
            if self.drew.load(Ordering::SeqCst) >= self.pieces {
                return;
            }
        }
        self.missed.store(1, Ordering::SeqCst);
    }
}

impl Piece for Twice<'_> {
    ghost commands = { λ s draws. Create (get_or draws 0 CHILD_OF) ∷ Create (get_or draws 1 CHILD_OF) ∷ [] };

    ghost taken = { λ s draws. 2 };

    fn record<D: Draws>(&self, draws: &mut D, stage: &mut Stage) -> Result<(), Refusal> {
        let first = draws.draw()?;
        make_one(first, stage)?;
        self.meet();
        let second = draws.draw()?;
        make_one(second, stage)
    }
}

// Whether the command makes the entity of an index.
fn makes(command: &Recorded, index: u32) -> bool {
    match command {
        Recorded::Create(made) => made.index == index,
        _ => false,
    }
}

// Whether of two commands the one at a place makes the entity of an index.
fn makes_at(commands: &[Recorded], place: usize, index: u32) -> bool {
    match commands.get(place) {
        Some(command) => commands.len() == 2 && makes(command, index),
        None => false,
    }
}

// Whether one of the stages makes the entity of an index by its command at a place.
fn is_made(stages: &[Stage], place: usize, index: u32) -> bool {
    for stage in stages {
        if makes_at(stage.recorded().0, place, index) {
            return true;
        }
    }
    false
}

// Whether the eight indices from one on are made so.
fn are_made(stages: &[Stage], place: usize, first: u32) -> bool {
    let mut are_made = true;
    for turn in 0..8 {
        are_made &= is_made(stages, place, first.wrapping_add(turn));
    }
    are_made
}

// Whether eight stages make the eight indices from 5 on first, in any order, and then the next eight.
fn make_in_turn(stages: &[Stage]) -> bool {
    stages.len() == 8 && are_made(stages, 0, 5) && are_made(stages, 1, 13)
}

// Whether eight pieces draw in turn: none draws its second handle before all have drawn their first, and none waits in vain.
fn draw_in_turn<R: Threads + Sync>(rt: &R, alloc: Global) -> bool {
    let drew = AtomicU64::new(0);
    let missed = AtomicU64::new(0);
    let piece = Twice {
        pieces: 8,
        turns: 2_000_000_000,
        drew: &drew,
        missed: &missed,
    };
    match run_batch(rt, alloc, Vec::new(alloc), &[piece; 8], 8, 5, 1_000) {
        Ok((stages, _)) => make_in_turn(&stages) && missed.load(Ordering::SeqCst) == 0,
        Err(_) => false,
    }
}

#[test]
fn eight_workers_draw_in_turn(rt: HostRuntime) {
    assert!(rt; draw_in_turn(&rt, rt.alloc()));
}

#[test]
fn workers_overlap(rt: HostRuntime) {
    assert!(rt; overlap(&rt, rt.alloc()) == Ok(true));
}
