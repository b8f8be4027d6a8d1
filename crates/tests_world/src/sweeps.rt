//! Frames of systems that clear and delete: the world is that of the same systems run one by one.
ghost use Rattle.std.specs.Prelude.{◌∷◌, [], true, refl};
ghost use Rattle.eco_ids.specs.Run as run;

use crate::draws::RandomDraws;
use crate::frame_runs::{Totals, frame_agrees};
use crate::handles::at;
use crate::long_frames::mend;
use crate::plans::{Deeds, FramePlan, prepare};
use eco_bodies::{BodyRow, Draws as Handles, SystemBody, Systems, record_command};
use eco_ids::{Id, Pattern, Refusal};
use eco_systems::Phase;
use eco_world::{Command, Stage, World};
use std::alloc::Global;
use std::thread::Threads;

// Clears each row's entity, and then deletes all who have an id.
#[derive(Clone, Copy, Drop)]
struct Sweep {
    id: Id,
}

impl SystemBody for Sweep {
    ghost reads_of = { λ s. [] };

    ghost writes_of = { λ s. [] };

    ghost kills_of = { λ s. true };

    ghost commands = { λ s row draws. run.Clear row.entity ∷ run.DeleteWith s.id ∷ [] };

    ghost taken = { λ s row draws. 0 };

    fn reads(&self) -> &[Pattern] {
        &[]
    }

    fn writes(&self) -> &[Pattern] {
        &[]
    }

    fn kills(&self) -> bool {
        true
    }

    fn record<R: BodyRow, D: Handles>(
        &self,
        row: &R,
        _draws: &mut D,
        stage: &mut Stage,
    ) -> Result<(), Refusal> {
        record_command(stage, Command::Clear(row.entity()))?;
        record_command(stage, Command::DeleteWith(self.id))
    }

    ghost declared = { λ s row draws h. (refl, (refl, tt)) };

    ghost settled = { λ s row mine later h. (h, refl) };
}

// Three of them, of whom each clears others: the last runs first.
fn sweeps() -> [(Phase, &'static str, Id); 3] {
    let z = Id::One(at(14));
    let (liked, held) = (Id::Two(at(15), at(19)), Id::Two(at(16), at(20)));
    [
        (Phase::OnUpdate, "T, U, (Likes, *)", z),
        (Phase::OnUpdate, "P, (In, a)", held),
        (Phase::OnLoad, "M || V, !P", liked),
    ]
}

// Adds a system of one of them, and tells whether that was done.
fn add(
    world: &World,
    systems: &mut Systems<Sweep>,
    name: &str,
    (phase, text, id): (Phase, &str, Id),
) -> bool {
    match world.read_query(text) {
        Ok(query) => systems.add(name, phase, query, Sweep { id }).is_ok(),
        Err(_) => false,
    }
}

// Declares them, and tells whether that was done.
fn declare(world: &World, systems: &mut Systems<Sweep>) -> bool {
    let [first, second, third] = sweeps();
    add(world, systems, "first", first)
        && add(world, systems, "second", second)
        && add(world, systems, "third", third)
}

// What one of them is to do.
fn plan((phase, text, id): (Phase, &'static str, Id)) -> FramePlan {
    FramePlan {
        phase,
        text,
        deeds: Deeds::Sweep(id),
    }
}

// What they are to do.
fn plans() -> [FramePlan; 3] {
    let [first, second, third] = sweeps();
    [plan(first), plan(second), plan(third)]
}

// Whether thirty frames of them are right, between which others come to live, and have three batches each.
fn run<R: Threads + Sync>(
    rt: &R,
    alloc: Global,
    world: &mut World,
    systems: &Systems<Sweep>,
) -> bool {
    let mut draws = RandomDraws::new(2026);
    let mut totals = Totals::new();
    let mut is_right = true;
    for _ in 0..30 {
        is_right = is_right
            && mend(world, &mut draws).is_ok()
            && frame_agrees(rt, alloc, world, systems, 8, &plans(), &mut totals);
    }
    is_right && totals.batches == 90
}

// Whether they are so once they are declared.
fn run_declared<R: Threads + Sync>(rt: &R, alloc: Global, world: &mut World) -> bool {
    let mut systems = Systems::new(alloc);
    prepare(world).is_ok() && declare(world, &mut systems) && run(rt, alloc, world, &systems)
}

// Whether they are so in a new world.
fn are_right<R: Threads + Sync>(rt: &R, alloc: Global) -> bool {
    match World::new(alloc, 65_536) {
        Ok(mut world) => run_declared(rt, alloc, &mut world),
        Err(_) => false,
    }
}

#[test]
fn frames_that_kill_are_one_by_one(rt: HostRuntime) {
    assert!(rt; are_right(&rt, rt.alloc()));
}
