//! After each of many frames that look random the world is that of the same systems run one by one, but for which fresh index is
//! whose.
ghost use Rattle.std.specs.Prelude.{◌≤◌};

use crate::draws::RandomDraws;
use crate::frame_runs::{Totals, frame_agrees};
use crate::handles::at;
use crate::plans::{FramePlan, declare_all, draw_id, draw_plans, prepare};
use eco_bodies::{Script, Systems};
use eco_ids::{Entity, Id, Refusal, Value};
use eco_world::World;
use std::alloc::{AllocError, Global};
use std::thread::Threads;

// How many indices are there from the start: of the built-ins, and of what the systems are about.
const NAMED: usize = 21;

// Makes an entity with some ids, of which each may be refused.
fn make_one(world: &mut World, draws: &mut RandomDraws) -> Result<(), Refusal> {
    let entity = world.create(None)?;
    for _ in 0..6 {
        let _may_be_refused = world.add(entity, draw_id(draws));
    }
    let field = i64::from(draws.below(1_000));
    world.set(entity, Id::One(at(9)), Value::of([field, 2]))
}

// Deletes these, of whom some may be refused, and some have died with others.
fn delete_all(world: &mut World, entities: &[Entity]) {
    for entity in entities {
        let _may_be_refused = world.delete(*entity);
    }
}

// All but the first three hundred of those without names die, and so many are left.
fn thin(world: &mut World) -> Result<usize, AllocError> {
    let living = world.living()?;
    delete_all(world, living.get(NAMED + 300..).unwrap_or(&[]));
    Ok(living.len().saturating_sub(NAMED))
}

/// Some three hundred entities live besides those with names: more die, and as many as lack are made.
pub fn mend(world: &mut World, draws: &mut RandomDraws) -> Result<(), Refusal> {
    let count = thin(world)?;
    for _ in count..300 {
        make_one(world, draws)?;
    }
    Ok(())
}

// Declares those of the drawn plans that are allowed, runs a frame of them, and tells whether it is right.
fn run_drawn<R: Threads + Sync>(
    rt: &R,
    alloc: Global,
    world: &mut World,
    drawn: &[FramePlan],
    workers: u32,
    totals: &mut Totals,
) -> bool
    requires { (1 ≤ workers) × (workers ≤ 64) }
{
    let mut systems: Systems<Script> = Systems::new(alloc);
    let mut allowed = Vec::new(alloc);
    declare_all(alloc, world, drawn, &mut systems, &mut allowed).is_ok()
        && frame_agrees(rt, alloc, world, &systems, workers, &allowed, totals)
}

// Runs a frame of systems that look random, and tells whether it is right.
fn run_one<R: Threads + Sync>(
    rt: &R,
    alloc: Global,
    world: &mut World,
    draws: &mut RandomDraws,
    workers: u32,
    totals: &mut Totals,
) -> bool
    requires { (1 ≤ workers) × (workers ≤ 64) }
{
    match draw_plans(alloc, draws) {
        Ok(drawn) => run_drawn(rt, alloc, world, &drawn, workers, totals),
        Err(_) => false,
    }
}

// Whether the frames did enough of everything: some shared batches, and some commands were refused.
fn is_enough(totals: &Totals) -> bool {
    totals.batches.saturating_add(50) < totals.systems
        && totals.commands > 10_000
        && totals.refused > 100
        && totals.drawn > 500
}

// Whether a hundred frames are right, and did enough.
fn run<R: Threads + Sync>(rt: &R, alloc: Global, world: &mut World, seed: u64, workers: u32) -> bool
    requires { (1 ≤ workers) × (workers ≤ 64) }
{
    let mut draws = RandomDraws::new(seed);
    let mut totals = Totals::new();
    let mut are_right = prepare(world).is_ok();
    for _ in 0..100 {
        are_right = are_right
            && mend(world, &mut draws).is_ok()
            && run_one(rt, alloc, world, &mut draws, workers, &mut totals);
    }
    are_right && is_enough(&totals)
}

// Whether they are so in a new world.
fn are_right<R: Threads + Sync>(rt: &R, alloc: Global, seed: u64, workers: u32) -> bool
    requires { (1 ≤ workers) × (workers ≤ 64) }
{
    match World::new(alloc, 1_048_576) {
        Ok(mut world) => run(rt, alloc, &mut world, seed, workers),
        Err(_) => false,
    }
}

#[test]
fn frames_are_their_systems_one_by_one(rt: HostRuntime) {
    assert!(rt; are_right(&rt, rt.alloc(), 2026, 1));
    assert!(rt; are_right(&rt, rt.alloc(), 7, 1));
    assert!(rt; are_right(&rt, rt.alloc(), 2026, 2));
    assert!(rt; are_right(&rt, rt.alloc(), 7, 2));
    assert!(rt; are_right(&rt, rt.alloc(), 2026, 8));
    assert!(rt; are_right(&rt, rt.alloc(), 7, 8));
}
