//! A shared world by example: a simulation merges frame after frame, while two viewers in threads of their own look on, and at the
//! end are told of all.
ghost use Rattle.std.specs.Prelude.{◌≡◌};

use anyhow::Result;
use eco_ids::{Entity, Id, Refusal, Value};
use eco_shared::{Blank, Merger, Naming, Viewer, open};
use eco_stages::{Command, Stage};
use eco_world::World;
use std::alloc::Global;
use std::marker::Brand;
use std::sync::Wait;
use std::thread::{JoinHandle, Threads};
use std::{io, thread};

// So many frames are merged, and so often each viewer looks.
const FRAMES: i64 = 100;

const LOOKS: u32 = 1_000;

// A ship, and where it is.
#[derive(Clone, Copy)]
struct Ship {
    heron: Entity,
    position: Entity,
}

impl Ship {
    fn launch(world: &mut World) -> Result<Ship, Refusal> {
        let position = world.component(Some("Position"), 2)?;
        let heron = world.create(Some("Heron"))?;
        world.set(heron, Id::One(position), Value::ZERO)?;
        Ok(Ship { heron, position })
    }

    // How far east it is.
    fn east(self, world: &World) -> i64 {
        match world.get(self.heron, Id::One(self.position)) {
            Some(value) => value.0[0],
            None => 0,
        }
    }

    // A frame: the ship is so far east.
    fn frame(self, alloc: Global, east: i64) -> Result<Stage, Refusal> {
        let mut stage = Stage::new(alloc);
        let sail = Command::Set(self.heron, Id::One(self.position), Value::of([east]));
        stage.record(sail).map_err(|_| Refusal::OutOfMemory)?;
        Ok(stage)
    }
}

// Looks at the ship again and again. Whatever is merged meanwhile, a later look shows no older world.
fn look_on<J: Naming, R: Wait + Drop>(
    rt: &R,
    mut viewer: Viewer<J, R>,
    ship: Ship,
) -> (Viewer<J, R>, bool) {
    let mut farthest: i64 = 0;
    let mut only_east = true;
    for _ in 0..LOOKS {
        let east = ship.east(viewer.enter(rt).world());
        only_east = only_east && farthest <= east;
        farthest = east;
    }
    (viewer, only_east)
}

// Merges frame after frame.
fn sail<J: Naming, R: Wait + Drop>(
    alloc: Global,
    merger: &mut Merger<J, R>,
    ship: Ship,
) -> Result<(), Refusal> {
    for frame in 1..=FRAMES {
        let stage = ship.frame(alloc, frame)?;
        merger.merge(0, &[stage])?;
    }
    Ok(())
}

// What a viewer sees once it was told of all frames.
fn print_told<J: Naming, R: Wait + Print + Drop>(
    rt: &R,
    merger: &Merger<J, R>,
    viewer: &mut Viewer<J, R>,
    ship: Ship,
) -> io::Result<()> {
    let told = viewer.learn(&merger.tell());
    let east = ship.east(viewer.enter(rt).world());
    println!(rt; "told of it: {told}, and Heron is {east} miles to the east")
}

// A viewer looks on in a thread of its own, where one can be had.
fn start_one<J: Naming + Send + 'static, R: Threads + Wait + Copy + Drop + Send + Sync + 'static>(
    rt: R,
    viewer: Viewer<J, R>,
    ship: Ship,
) -> Option<JoinHandle<(Viewer<J, R>, bool)>> {
    thread::spawn(&rt, move || look_on(&rt, viewer, ship)).ok()
}

// Each viewer looks on in a thread of its own, where one can be had.
fn start<J: Naming + Send + 'static, R: Threads + Wait + Copy + Drop + Send + Sync + 'static>(
    rt: R,
    alloc: Global,
    viewers: Vec<Viewer<J, R>>,
    ship: Ship,
) -> Result<Vec<JoinHandle<(Viewer<J, R>, bool)>>, Refusal> {
    let mut threads = Vec::new(alloc);
    for viewer in viewers {
        if let Some(started) = start_one(rt, viewer, ship) {
            threads.push(started)?;
        }
    }
    Ok(threads)
}

// What was seen in a thread, and what its viewer sees at the end.
fn print_seen<J: Naming, R: Threads + Wait + Print + Drop>(
    rt: &R,
    merger: &Merger<J, R>,
    started: JoinHandle<(Viewer<J, R>, bool)>,
    ship: Ship,
) -> io::Result<()> {
    let (mut viewer, only_east) = started.join(rt);
    println!(rt; "looked on, and Heron never sailed back: {only_east}")?;
    print_told(rt, merger, &mut viewer, ship)
}

// Sails while the viewers look on.
fn sail_seen<
    J: Naming + Send + 'static,
    R: Threads + Wait + Print + Copy + Drop + Send + Sync + 'static,
>(
    rt: R,
    alloc: Global,
    merger: &mut Merger<J, R>,
    viewers: Vec<Viewer<J, R>>,
    ship: Ship,
) -> Result<()> {
    let threads = start(rt, alloc, viewers, ship)?;
    sail(alloc, merger, ship)?;
    println!(&rt; "{FRAMES} frames were merged")?;
    for started in threads {
        print_seen(&rt, merger, started, ship)?;
    }
    Ok(())
}

// Shares a world with two viewers, and sails.
fn share<
    J: Naming + Send + 'static,
    R: Threads + Wait + Print + Copy + Drop + Send + Sync + 'static,
>(rt: R, alloc: Global, blank: Blank) -> Result<()>
    requires { blank.front.seen.book ≡ J.book }
{
    let mut world = World::new(alloc, 64)?;
    let ship = Ship::launch(&mut world)?;
    let mut registry = blank.named::<J>();
    let (mut merger, viewers) = open(rt, &mut registry, alloc, world, 2).map_err(
        |refused| refused.1,
    )?;
    sail_seen(rt, alloc, &mut merger, viewers, ship)
}

/// Shows a world that is shared.
pub fn show<R: Threads + Wait + Print + Copy + Drop + Send + Sync + 'static>(
    rt: R,
    alloc: Global,
) -> Result<()> {
    // The registry gets its name here: `Brand` stands for one that this call picks (proofs/shared/show).
    share::<Brand, R>(rt, alloc, Blank::new())
}
