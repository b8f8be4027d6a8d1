//! What comes of a call on a world.
use crate::faults::mark::tell;
use crate::faults::order::NONE;
use crate::faults::scenario::Scenario;
use crate::faults::scene::Scene;
use eco_ids::Refusal;
use eco_world::World;
use std::alloc::Global;
use std::thread::Threads;

// Makes the call in one scene, where memory may be refused, and does in the other, where it is ample, what came of that; goes
// on in both, and tells how the two compare.
fn judge_scenes<R: Print + Eprint + Threads + Sync>(
    rt: &R,
    name: &str,
    scene: &mut Scene,
    other: &mut Scene,
) -> Result<bool, Refusal> {
    scene.arm(&NONE)?;
    let lack = scene.call_marked(rt)?;
    other.follow(rt, lack)?;
    scene.go_on(rt)?;
    other.go_on(rt)?;
    Ok(tell(
        rt,
        name,
        (lack, 0),
        scene.text.as_str(),
        other.text.as_str(),
    ))
}

/// Makes the call of a scenario on a copy of its world, and tells what came of it by another copy, on which it is made where
/// memory is ample. Answers whether it was no fault.
pub fn judge<R: Print + Eprint + Threads + Sync>(
    rt: &R,
    alloc: Global,
    scenario: &Scenario,
    world: &World,
) -> Result<bool, Refusal> {
    let mut scene = Scene::new(alloc, scenario.call, world)?;
    let mut other = Scene::new(alloc, scenario.call, world)?;
    judge_scenes(rt, scenario.name, &mut scene, &mut other)
}
