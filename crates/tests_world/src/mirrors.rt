//! Symmetric relationships: after each of many steps that look random, frames among them, each of their pairs stands on both of its
//! entities, and all who were made have the ids that a plain list has. A clash of traits is refused exactly where the list would
//! have one, and a frame does what its systems do one by one.
use crate::following::{Followed, Met};
use crate::frame_runs::Totals;
use crate::handles::at;
use crate::mirror_deeds::{FIRST, draw_deed};
use crate::mirror_frames::run_mirrored;
use crate::plain::{Deed, Had, agrees};
use eco_ids::entity::{ON_DELETE, PANIC, SYMMETRIC};
use eco_ids::{Edition, Entity, Id, Refusal};
use eco_world::World;
use std::alloc::{AllocError, Global};
use std::thread::Threads;

// How many steps a run has.
const STEPS: u32 = 200;

// All indices of a world lie below it: each frame draws new ones.
const LIMIT: u32 = 65_536;

// Makes twelve. The first is a component, and it and the second are symmetric.
fn begin(world: &mut World, list: &mut Vec<Had>) -> Result<(), Refusal> {
    world.component(None, 1)?;
    for _ in 1..12 {
        world.create(None)?;
    }
    list.push(Had {
        holder: at(FIRST),
        id: Id::Two(ON_DELETE, PANIC),
    })?;
    for index in FIRST..FIRST + 2 {
        world.add(at(index), Id::One(SYMMETRIC))?;
        list.push(Had {
            holder: at(index),
            id: Id::One(SYMMETRIC),
        })?;
    }
    Ok(())
}

// The next deed.
fn draw(run: &mut Followed) -> Result<Deed, AllocError> {
    let living = run.world.living()?;
    Ok(draw_deed(&mut run.draws, &living))
}

// Draws a deed and does it, and tells whether a clash was refused as it should be.
fn do_one(run: &mut Followed) -> bool {
    match draw(run) {
        Ok(deed) => run.apply(deed),
        Err(_) => false,
    }
}

// Makes somebody, runs a frame or does a deed, and tells whether that was right.
fn step<R: Threads + Sync>(rt: &R, alloc: Global, run: &mut Followed) -> bool {
    match run.draws.below(24) {
        0..=1 => run.world.create(None).is_ok(),
        2..=3 => run_mirrored(rt, alloc, run),
        _ => do_one(run),
    }
}

// The mirror that the id of the entity has to have, if it is a pair of a symmetric relationship: who has it, and what it is.
fn mirror_of(world: &World, entity: Entity, id: Id) -> Option<(Entity, Id)> {
    match id {
        Id::Two(relationship, target) if world.has(relationship, Id::One(SYMMETRIC)) => {
            Some((target, Id::Two(relationship, entity)))
        }
        _ => None,
    }
}

// How many symmetric pairs the entity has, if the mirror of each is there.
fn count_on(world: &World, entity: Entity) -> Option<usize> {
    let mut count = 0usize;
    for id in world.ids_of(entity) {
        if let Some((holder, mirror)) = mirror_of(world, entity, *id) {
            if !world.has(holder, mirror) {
                return None;
            }
            count = count.saturating_add(1);
        }
    }
    Some(count)
}

// How many these have.
fn count_on_all(world: &World, living: &[Entity]) -> Option<usize> {
    let mut count = 0usize;
    for entity in living {
        count = count.saturating_add(count_on(world, *entity)?);
    }
    Some(count)
}

// How many all have.
fn count_mirrored(world: &World) -> Option<usize> {
    match world.living() {
        Ok(living) => count_on_all(world, &living),
        Err(_) => None,
    }
}

// Whether mirrors are there, and the world has just what the list has.
fn is_mirrored(run: &mut Followed) -> bool {
    let Some(count) = count_mirrored(&run.world) else {
        return false;
    };
    run.met.mirrored = run.met.mirrored.saturating_add(count);
    agrees(&run.world, &run.list.now)
}

// Whether all is so after each step of a run.
fn take_steps<R: Threads + Sync>(rt: &R, alloc: Global, run: &mut Followed) -> bool {
    let mut is_right = begin(&mut run.world, &mut run.list.now).is_ok();
    for _ in 0..STEPS {
        is_right = is_right && step(rt, alloc, run) && is_mirrored(run);
    }
    is_right
}

// Whether it is so in a new world.
fn is_right<R: Threads + Sync>(rt: &R, alloc: Global, seed: u64, met: &mut Met) -> bool {
    match World::of_edition(alloc, Edition::Second, LIMIT) {
        Ok(world) => {
            let mut run = Followed::new(alloc, world, seed, *met);
            let is_right = take_steps(rt, alloc, &mut run);
            *met = run.met;
            is_right
        }
        Err(_) => false,
    }
}

// Whether the runs met enough: clashes, symmetric pairs, and frames of several batches, of which some have several systems.
fn is_enough(met: &Met) -> bool {
    let frames = met.frames;
    met.clashes > 20
        && met.mirrored > 10_000
        && frames.batches > 600
        && frames.batches.saturating_add(50) < frames.systems
        && frames.commands > 5_000
        && frames.refused > 200
        && frames.drawn > 200
}

// Whether twenty runs are right, and meet enough.
fn are_right<R: Threads + Sync>(rt: &R, alloc: Global) -> bool {
    let mut met = Met {
        clashes: 0,
        mirrored: 0,
        frames: Totals::new(),
    };
    for seed in 0..20 {
        if !is_right(rt, alloc, seed, &mut met) {
            return false;
        }
    }
    is_enough(&met)
}

#[test]
fn symmetric_pairs_stand_on_both_sides(rt: HostRuntime) {
    assert!(rt; are_right(&rt, rt.alloc()));
}
