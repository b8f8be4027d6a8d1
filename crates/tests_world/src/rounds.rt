//! Round after round comes back to where it began, and after each step the tables are those that a listing entity by entity gives.
use crate::handles::at;
use crate::layout::agrees;
use eco_ids::{Id, Refusal};
use eco_world::World;
use std::alloc::Global;

/// A round: whether the entity gets a tag or loses it, and the tag's index. Two tables are left on one way and come to on
/// another, and the last step leads back to the first.
const ROUND: [(bool, u32); 6] = [
    (true, 9),
    (true, 10),
    (false, 9),
    (true, 11),
    (false, 10),
    (false, 11),
];

// Gives the entity at 12 a tag or takes it.
fn take(world: &mut World, is_added: bool, tag: u32) -> Result<(), Refusal> {
    if is_added {
        world.add(at(12), Id::One(at(tag)))
    } else {
        world.remove(at(12), Id::One(at(tag)))
    }
}

// Whether the tables agree after each step of a thousand rounds.
fn rounds_agree(world: &mut World) -> Result<bool, Refusal> {
    for _ in 9..13 {
        world.create(None)?;
    }
    for _ in 0..1_000 {
        for (is_added, tag) in ROUND {
            take(world, is_added, tag)?;
            if !agrees(world) {
                return Ok(false);
            }
        }
    }
    Ok(true)
}

// Whether they do so in a new world.
fn graph_is_kept(alloc: Global) -> bool {
    match World::new(alloc, 64) {
        Ok(mut world) => rounds_agree(&mut world) == Ok(true),
        Err(_) => false,
    }
}

#[test]
fn a_thousand_rounds_keep_the_layout(rt: HostRuntime) {
    assert!(rt; graph_is_kept(rt.alloc()));
}
