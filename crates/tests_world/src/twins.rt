//! Fresh handles of a frame: each is drawn once, and those of a chunk of pieces ascend, however many workers draw at the same time.
ghost use Rattle.std.specs.Prelude.{◌≡◌, ◌≤◌, ◌∷◌, [], false};
ghost use Rattle.eco_ids.specs.declared.pattern.Pattern.TheVariants as pattern;
ghost use Rattle.eco_bodies.specs.Lent.{item_at};
ghost use Rattle.tests_world.specs.Twins.{made, made_is_declared, made_is_settled, makes};

use crate::frame_runs::runs_alone;
use eco_bodies::{BodyRow, Draws, SystemBody, record_command};
use eco_ids::{Entity, Id, Pattern, Refusal, Value};
use eco_stages::{Command, Stage};
use eco_world::World;
use std::alloc::{AllocError, Global};
use std::sync::atomic::{AtomicU64, Ordering};
use std::thread::Threads;

// The first index that is free where only built-ins and two components are there.
const FIRST: u32 = 11;

// Makes an entity for each row that has a number, and gives it that number. Where a piece begins it waits, behind its first draw,
// until so many pieces have drawn, for so many turns.
#[derive(Drop)]
struct Twins<'a> {
    twin: Entity,
    writes: [Pattern; 1],
    together: u64,
    turns: u64,
    begun: &'a AtomicU64,
    ghost own: { writes ≡ pattern.One twin ∷ [] },
}

impl Twins<'_> {
    // Tells that one more piece has drawn, and waits for others, where it is a piece's first row.
    fn meet(&self, number: Value) {
        if number.0[0] % 64 != 0 {
            return;
        }
        self.begun.fetch_add(1, Ordering::SeqCst);
        for _ in 0..self.turns {
            if self.begun.load(Ordering::SeqCst) >= self.together {
                return;
            }
        }
    }
}

impl SystemBody for Twins<'_> {
    ghost reads_of = { λ s. [] };

    ghost writes_of = { λ s. s.writes };

    ghost kills_of = { λ s. false };

    ghost commands = { λ s row draws. made s.twin (item_at row.values 0) draws };

    ghost taken = { λ s row draws. makes (item_at row.values 0) };

    fn reads(&self) -> &[Pattern] {
        &[]
    }

    fn writes(&self) -> &[Pattern] {
        &self.writes
    }

    fn kills(&self) -> bool {
        false
    }

    fn record<R: BodyRow, D: Draws>(
        &self,
        row: &R,
        draws: &mut D,
        stage: &mut Stage,
    ) -> Result<(), Refusal> {
        let Some(number) = row.value(0) else {
            return Ok(());
        };
        let twin = draws.draw()?;
        self.meet(number);
        record_command(stage, Command::Create(twin))?;
        record_command(stage, Command::Set(twin, Id::One(self.twin), number))
    }

    ghost declared = { λ s row draws h.
        made_is_declared s.twin s.writes s.own (item_at row.values 0) draws };

    ghost settled = { λ s row mine later h.
        made_is_settled s.twin (item_at row.values 0) mine later h };
}

// The components `Number` and `Twin`, and entities with the numbers from 0 up: the second component.
fn prepare(world: &mut World, rows: u32) -> Result<Entity, Refusal> {
    let number = Id::One(world.component(Some("Number"), 1)?);
    let twin = world.component(Some("Twin"), 1)?;
    for k in 0..rows {
        let entity = world.create(None)?;
        world.set(entity, number, Value::of([i64::from(k)]))?;
    }
    Ok(twin)
}

// Runs a frame of so many workers in which each row draws a twin.
fn draws_twins<R: Threads + Sync>(
    rt: &R,
    alloc: Global,
    world: &mut World,
    twin: Entity,
    workers: u32,
) -> bool
    requires { (1 ≤ workers) × (workers ≤ 64) }
{
    let begun = AtomicU64::new(0);
    match world.read_query("[in] Number") {
        Ok(query) => {
            let body = Twins {
                twin,
                writes: [Pattern::One(twin)],
                together: u64::from(workers),
                turns: 2_000_000_000,
                begun: &begun,
            };
            runs_alone(rt, alloc, world, query, body, workers)
        }
        Err(_) => false,
    }
}

// The row whose number an entity has, if it is a twin.
fn row_of(world: &World, entity: Entity, twin: Entity) -> Option<usize> {
    let number = world.get(entity, Id::One(twin))?;
    usize::try_from(number.0[0]).ok()
}

// Writes the indices of the twins among the living, each at its row.
fn fill(twins: &mut Vec<u32>, world: &World, living: &[Entity], twin: Entity) {
    for entity in living {
        let row = row_of(world, *entity, twin).unwrap_or(usize::MAX);
        if row < twins.len() {
            twins[row] = entity.index;
        }
    }
}

// The index of the twin of each row, in the order of rows; 0 where there is none.
fn twins_of(alloc: Global, world: &World, twin: Entity, rows: u32) -> Result<Vec<u32>, AllocError> {
    let living = world.living()?;
    let mut twins = vec![in alloc; 0u32; rows as usize]?;
    fill(&mut twins, world, &living, twin);
    Ok(twins)
}

// Whether indices ascend from each to the next, but from the last of so many to the first of the next so many.
fn ascend_by(chunk: usize, twins: &[u32]) -> bool
    requires { 1 ≤ chunk }
{
    let mut before = 0;
    for (row, twin) in twins.iter().enumerate() {
        if row % chunk != 0 && *twin <= before {
            return false;
        }
        before = *twin;
    }
    true
}

// Whether the first index of each of so many chunks of so many rows is below a bound.
fn begin_below(chunks: usize, chunk: usize, bound: u32, twins: &[u32]) -> bool
    requires { 1 ≤ chunk }
{
    for (row, twin) in twins.iter().enumerate() {
        let is_first = row % chunk == 0 && row / chunk < chunks;
        if is_first && *twin >= bound {
            return false;
        }
    }
    true
}

// Whether they are the indices from one on.
fn are_from(base: u32, sorted: &[u32]) -> bool {
    let mut next = base;
    for index in sorted {
        if *index != next {
            return false;
        }
        next = next.wrapping_add(1);
    }
    true
}

// Whether so many rows drew the indices behind their own, each once, whether those of each chunk ascend, and whether as many chunks
// as there are workers drew one before any of them drew its second.
fn are_drawn(twins: &mut Vec<u32>, workers: u32, rows: u32, chunk: usize) -> bool
    requires { (workers ≤ 64) × (rows ≤ 16384) × (1 ≤ chunk) }
{
    let base = FIRST + rows;
    ascend_by(chunk, twins.as_slice())
        && begin_below(workers as usize, chunk, base + workers, twins.as_slice())
        && twins.sort().is_ok()
        && are_from(base, twins.as_slice())
}

// Whether it is so of a world's twins.
fn drew(alloc: Global, world: &World, twin: Entity, workers: u32, rows: u32, chunk: usize) -> bool
    requires { (workers ≤ 64) × (rows ≤ 16384) × (1 ≤ chunk) }
{
    match twins_of(alloc, world, twin, rows) {
        Ok(mut twins) => are_drawn(&mut twins, workers, rows, chunk),
        Err(_) => false,
    }
}

// Whether it is so of a frame of this world.
fn draws_in<R: Threads + Sync>(
    rt: &R,
    alloc: Global,
    world: &mut World,
    workers: u32,
    rows: u32,
    chunk: usize,
) -> bool
    requires { (1 ≤ workers) × (workers ≤ 64) × (rows ≤ 16384) × (1 ≤ chunk) }
{
    match prepare(world, rows) {
        Ok(twin) => {
            draws_twins(rt, alloc, world, twin, workers)
                && drew(alloc, world, twin, workers, rows, chunk)
        }
        Err(_) => false,
    }
}

// Whether it is so of a frame of a new world.
fn draws_each_once<R: Threads + Sync>(
    rt: &R,
    alloc: Global,
    workers: u32,
    rows: u32,
    chunk: usize,
) -> bool
    requires { (1 ≤ workers) × (workers ≤ 64) × (rows ≤ 16384) × (1 ≤ chunk) }
{
    match World::new(alloc, 2 * rows + 64) {
        Ok(mut world) => draws_in(rt, alloc, &mut world, workers, rows, chunk),
        Err(_) => false,
    }
}

// By two workers 8,200 rows are 129 pieces, of which two are a chunk.
#[test]
fn a_frame_draws_each_handle_once(rt: HostRuntime) {
    assert!(rt; draws_each_once(&rt, rt.alloc(), 1, 512, 512));
    assert!(rt; draws_each_once(&rt, rt.alloc(), 2, 512, 64));
    assert!(rt; draws_each_once(&rt, rt.alloc(), 8, 512, 64));
    assert!(rt; draws_each_once(&rt, rt.alloc(), 2, 8200, 128));
}
