//! Typed components by example: where ships are and how they sail are Rust types with named fields. They are set and read by
//! them, the columns of a query are looped over as their values, and a system's body reads its rows so. At last the whole world
//! is printed.
mod position;
mod sail;
mod ship_components;
mod velocity;

use self::sail::Sail;
use self::ship_components::ShipComponents;
use anyhow::Result;
use eco_frame::run_frame;
use eco_ids::Refusal;
use eco_script::printed;
use eco_world::World;
use std::alloc::Global;
use std::thread::Threads;

// Ships sail for an hour: a frame of one system, by at most two threads.
fn sail_on<R: Threads + Sync>(
    rt: &R,
    alloc: Global,
    world: &mut World,
    components: ShipComponents,
) -> Result<(), Refusal> {
    let systems = Sail::listed(alloc, world, components)?;
    match run_frame(rt, alloc, world, &systems, 2) {
        Ok(_) => Ok(()),
        Err(stop) => Err(stop.refusal),
    }
}

// All that there is, readably.
fn print_world<R: Print>(rt: &R, alloc: Global, world: &World) -> Result<()> {
    let text = printed(world, alloc)?;
    print!(rt; "{text}")?;
    Ok(())
}

// The world is passed on by reference: a function that owns it would have its end to prove at each way out.
fn show_all<R: Print + Threads + Sync>(rt: &R, alloc: Global, world: &mut World) -> Result<()> {
    let components = ShipComponents::declare(world)?;
    let (heron, teal) = components.launch(world)?;
    components.print_place(rt, world, heron)?;
    components.print_courses(rt, world)?;
    sail_on(rt, alloc, world, components)?;
    components.print_place(rt, world, heron)?;
    components.print_place(rt, world, teal)?;
    print_world(rt, alloc, world)
}

/// Shows typed components in a world of their own.
pub fn show<R: Print + Threads + Sync>(rt: &R, alloc: Global) -> Result<()> {
    let mut world = World::new(alloc, 64)?;
    show_all(rt, alloc, &mut world)
}
