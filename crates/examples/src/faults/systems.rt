//! Two systems, each of which is a batch.
use eco_bodies::{Action, Script, Systems};
use eco_ids::{Refusal, Value};
use eco_systems::Phase;
use eco_world::World;
use std::alloc::Global;

/// How many there are.
pub const SYSTEMS: usize = 2;

// The first writes what the second, whose query reads it, is to read.
const DECLARED: [(&str, &str, Action); SYSTEMS] = [
    (
        "move",
        "[inout] Position, [in] Velocity",
        Action::Sum { into: 0, from: 1 },
    ),
    (
        "watch",
        "[in] Position, [inout] Mass",
        Action::Put {
            slot: 1,
            value: Value([5, 0, 0, 0, 0, 0, 0, 0]),
        },
    ),
];

// Adds a system of one action.
fn declare(
    alloc: Global,
    world: &World,
    systems: &mut Systems<Script>,
    (name, text, action): &(&str, &str, Action),
) -> Result<(), Refusal> {
    let query = world.read_query(text)?;
    let actions = Vec::from_slice(alloc, &[*action])?;
    let body = Script::new(alloc, &query, actions)?;
    match systems.add(name, Phase::OnUpdate, query, body) {
        Ok(()) => Ok(()),
        Err(refused) => Err(refused.refusal),
    }
}

/// Adds the first systems, so many.
pub fn declare_first(
    alloc: Global,
    world: &World,
    systems: &mut Systems<Script>,
    count: usize,
) -> Result<(), Refusal> {
    *systems = Systems::new(alloc);
    for system in DECLARED.get(..count).unwrap_or(&DECLARED) {
        declare(alloc, world, systems, system)?;
    }
    Ok(())
}
