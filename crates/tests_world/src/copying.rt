//! A copy of a world lists the same as it, and then lives on its own.
use crate::draws::RandomDraws;
use crate::listings::{are_same, has_lines, lines};
use crate::plans::prepare;
use crate::steps::take_step;
use eco_world::World;
use std::alloc::Global;

// Takes a step about the living, and tells whether their list found memory. A step that is refused counts too.
fn step(alloc: Global, world: &mut World, draws: &mut RandomDraws) -> bool {
    match world.living() {
        Ok(living) => {
            let _done_or_refused = take_step(alloc, world, draws, &living);
            true
        }
        Err(_) => false,
    }
}

// Takes 600 steps, which follow from the seed and the world.
fn run(alloc: Global, world: &mut World, seed: u64) -> bool {
    let mut draws = RandomDraws::new(seed);
    let mut are_taken = true;
    for _ in 0..600 {
        are_taken &= step(alloc, world, &mut draws);
    }
    are_taken
}

// Whether steps change the world and leave the other alone.
fn is_left_alone(alloc: Global, world: &mut World, other: &World, seed: u64) -> bool {
    match lines(alloc, other, u32::MAX) {
        Ok(lines) => {
            run(alloc, world, seed)
                && has_lines(alloc, other, u32::MAX, &lines)
                && !has_lines(alloc, world, u32::MAX, &lines)
        }
        Err(_) => false,
    }
}

// Whether the copy lists the same, steps of the world leave it alone, the same steps bring it to the world, and further ones of
// its own leave the world alone.
fn follows(alloc: Global, world: &mut World, copy: &mut World) -> bool {
    are_same(alloc, world, copy, u32::MAX)
        && is_left_alone(alloc, world, copy, 7)
        && run(alloc, copy, 7)
        && are_same(alloc, world, copy, u32::MAX)
        && is_left_alone(alloc, copy, world, 8)
}

// Whether some died.
fn some_died(world: &World) -> bool {
    match world.living() {
        Ok(living) => living.len() < world.high() as usize,
        Err(_) => false,
    }
}

// Whether a copy of a world in which some died does so.
fn is_followed(alloc: Global, world: &mut World) -> bool {
    match world.try_copy() {
        Ok(mut copy) => some_died(&copy) && follows(alloc, world, &mut copy),
        Err(_) => false,
    }
}

// Whether it is so behind a run of a world that begins with names.
fn lives_on(alloc: Global) -> bool {
    match World::new(alloc, 1_000) {
        Ok(mut world) => {
            prepare(&mut world).is_ok()
                && run(alloc, &mut world, 2026)
                && is_followed(alloc, &mut world)
        }
        Err(_) => false,
    }
}

#[test]
fn a_copy_lives_on_its_own(rt: HostRuntime) {
    assert!(rt; lives_on(rt.alloc()));
}
