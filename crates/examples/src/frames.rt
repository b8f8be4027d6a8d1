//! Systems by example: ships sail, and each of them lowers a boat; then a body in Rust notes where they are.
use crate::calls::{find, name_of};
use crate::wake::Wake;
use anyhow::Result;
use eco_frame::{Action, Phase, Script, SystemBody, Systems, run_frame};
use eco_ids::{Entity, Id, Refusal};
use eco_world::{Results, World};
use std::alloc::Global;
use std::io;
use std::thread::Threads;

// A system is a name, a phase, a query, and a body, here a script of one action.
fn add(
    alloc: Global,
    world: &World,
    systems: &mut Systems<Script>,
    name: &str,
    text: &str,
    action: Action,
) -> Result<(), Refusal> {
    let query = world.read_query(text)?;
    let actions = Vec::from_slice(alloc, &[action])?;
    let body = Script::new(alloc, &query, actions)?;
    systems
        .add(name, Phase::OnUpdate, query, body)
        .map_err(|refused| refused.refusal)
}

// The first changes values and the second makes entities. Neither reads what the other writes, so they share a batch.
fn declare(
    alloc: Global,
    world: &World,
    boat: Entity,
    systems: &mut Systems<Script>,
) -> Result<(), Refusal> {
    let sail = Action::Sum { into: 0, from: 1 };
    let lower = Action::Spawn(Some(Id::One(boat)));
    add(
        alloc,
        world,
        systems,
        "sail",
        "[inout] Position, [in] Velocity",
        sail,
    )?;
    add(alloc, world, systems, "lower", "Ship, Velocity", lower)
}

// A frame, by at most two threads.
fn run<R: Print + Threads + Sync + AllocGlobal, B: SystemBody + Sync + Drop>(
    rt: &R,
    world: &mut World,
    systems: &Systems<B>,
) -> io::Result<()> {
    match run_frame(rt, rt.alloc(), world, systems, 2) {
        Ok(report) => {
            let (batches, commands) = (report.batches(), report.commands());
            println!(rt; "a frame: {batches} batch, {commands} commands")
        }
        Err(stop) => {
            let (batches, refusal) = (stop.batches, stop.refusal);
            println!(rt; "stopped behind {batches} batches: {refusal}")
        }
    }
}

// What the first ship has of a component.
fn print_value<R: Print>(
    rt: &R,
    world: &World,
    heron: Entity,
    component: Entity,
) -> io::Result<()> {
    let Some(value) = world.get(heron, Id::One(component)) else {
        return Ok(());
    };
    let (name, fields) = (name_of(world, component), value.fields(2));
    println!(rt; "Heron's {name}: {fields}")
}

// Who is a boat.
fn print_boats<R: Print>(rt: &R, boats: &Results) -> io::Result<()> {
    for (boat, _) in boats.iter() {
        println!(rt; "{boat} is a boat")?;
    }
    Ok(())
}

// What a frame leaves.
fn print_all<R: Print>(rt: &R, world: &World, heron: Entity, component: Entity) -> Result<()> {
    print_value(rt, world, heron, component)?;
    let boats = find(world, "Boat")?;
    print_boats(rt, &boats)?;
    Ok(())
}

// A frame, and what it leaves.
fn run_and_print<R: Print + Threads + Sync + AllocGlobal, B: SystemBody + Sync + Drop>(
    rt: &R,
    world: &mut World,
    systems: &Systems<B>,
    heron: Entity,
    component: Entity,
) -> Result<()> {
    run(rt, world, systems)?;
    print_all(rt, world, heron, component)
}

// A frame of scripts. A ship sails by its velocity, and lowers a boat: a fresh entity.
fn sail<R: Print + Threads + Sync + AllocGlobal>(
    rt: &R,
    world: &mut World,
    heron: Entity,
    position: Entity,
) -> Result<()> {
    let boat = world.create(Some("Boat"))?;
    let mut systems = Systems::new(rt.alloc());
    declare(rt.alloc(), world, boat, &mut systems)?;
    run_and_print(rt, world, &systems, heron, position)
}

// Adds the system of a body in Rust.
fn add_wake(world: &World, wake: Entity, systems: &mut Systems<Wake>) -> Result<(), Refusal> {
    let query = world.read_query("[in] Position, Ship")?;
    systems
        .add("note", Phase::PostUpdate, query, Wake::new(wake))
        .map_err(|refused| refused.refusal)
}

// A frame of bodies in Rust.
fn note<R: Print + Threads + Sync + AllocGlobal>(
    rt: &R,
    world: &mut World,
    heron: Entity,
) -> Result<()> {
    let wake = world.component(Some("Wake"), 2)?;
    let mut systems = Systems::new(rt.alloc());
    add_wake(world, wake, &mut systems)?;
    run_and_print(rt, world, &systems, heron, wake)
}

/// Runs the frames.
pub fn show<R: Print + Threads + Sync + AllocGlobal>(
    rt: &R,
    world: &mut World,
    heron: Entity,
    position: Entity,
) -> Result<()> {
    sail(rt, world, heron, position)?;
    note(rt, world, heron)
}
