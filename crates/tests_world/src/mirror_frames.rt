//! Frames of systems that look random and write symmetric pairs, in a run that a plain list follows.
use crate::draws::RandomDraws;
use crate::following::Followed;
use crate::frame_runs::runs_as;
use crate::mirror_deeds::{FIRST, draw_id, draw_trait};
use crate::one_by_one::OneByOne;
use crate::plain::Deed;
use crate::plans::{Deeds, FramePlan, declare_all};
use eco_bodies::{Action, Script, Systems};
use eco_ids::{Entity, Refusal, Value};
use eco_systems::PHASES;
use eco_world::World;
use std::alloc::{AllocError, Global};
use std::thread::Threads;

// Who stands at the first places behind the built-ins has these names in a frame, the four that serve as relationships first.
const NAMES: [&str; 12] = ["R", "S", "X", "Y", "a", "b", "c", "d", "e", "f", "g", "h"];

// Of these the frame's queries tell. Those of single pairs share a batch with whoever writes another relationship, and must not
// with whoever writes another pair of theirs, whose mirror may be the pair that they ask for.
const TEXTS: [&str; 16] = [
    "(R, *)",
    "(S, *)",
    "(X, _)",
    "(R, a)",
    "(R, b)",
    "(S, a)",
    "(S, c)",
    "(R, b), !(S, b)",
    "(R, c) || (S, b) || (X, b)",
    "a || b || c",
    "[inout] (R, *), [in] ?(R, a)",
    "[out] (R, _), (S, _)",
    "[none] (S, *), [in] (R, *)",
    "(S, _), !(R, _)",
    "(*, a), !(X, a)",
    "(R, R) || (S, S)",
];

// How many live at most when a frame begins, besides the built-ins.
const MOST: usize = 20;

// So many live that each name has somebody.
fn populate(world: &mut World) -> Result<(), Refusal> {
    let count = world.living()?.len();
    for _ in count..NAMES.len() + FIRST as usize {
        world.create(None)?;
    }
    Ok(())
}

// These die, in the list too. Tells whether that was right.
fn delete_all(run: &mut Followed, entities: &[Entity]) -> bool {
    let mut is_right = true;
    for entity in entities {
        is_right &= run.apply(Deed::Delete(*entity));
    }
    is_right
}

// The same of whoever is one too many of all who live.
fn thin(run: &mut Followed) -> bool {
    match run.world.living() {
        Ok(living) => delete_all(run, living.get(MOST + FIRST as usize..).unwrap_or(&[])),
        Err(_) => false,
    }
}

// Takes the names of all of these off.
fn unname(world: &mut World, living: &[Entity]) -> Result<(), Refusal> {
    for entity in living {
        world.rename(*entity, None)?;
    }
    Ok(())
}

// Gives the first of these their names; the others have none.
fn name(world: &mut World, living: &[Entity]) -> Result<(), Refusal> {
    for (place, entity) in living.iter().enumerate() {
        world.rename(*entity, NAMES.get(place).copied())?;
    }
    Ok(())
}

// Names those at the first places behind the built-ins, and nobody else.
fn name_all(world: &mut World) -> bool {
    match world.living() {
        Ok(living) => {
            let made = living.get(FIRST as usize..).unwrap_or(&[]);
            unname(world, made).is_ok() && name(world, made).is_ok()
        }
        Err(_) => false,
    }
}

// What a system may do with a row, if its query allows it.
fn draw_action(draws: &mut RandomDraws, living: &[Entity]) -> Action {
    let slot = draws.below(2) as usize;
    match draws.below(40) {
        0..=15 => Action::AddId(draw_id(draws, living)),
        16..=24 => Action::RemoveId(draw_id(draws, living)),
        25..=30 => Action::Put {
            slot,
            value: Value::of([i64::from(draws.below(9))]),
        },
        31..=35 => Action::Sum {
            into: slot,
            from: draws.below(2) as usize,
        },
        36 => Action::AddId(draw_trait(draws, living)),
        37 => Action::RemoveId(draw_trait(draws, living)),
        _ => Action::Spawn(Some(draw_id(draws, living))),
    }
}

// A system whose actions its query may not allow: now and then one that kills.
fn draw_plan(draws: &mut RandomDraws, living: &[Entity]) -> FramePlan {
    let phase = PHASES[draws.below(8) as usize];
    let action = draw_action(draws, living);
    let (text, other) = match draws.below(16) {
        0 => ("(R, c), (S, *)", Action::Kill),
        _ => (TEXTS[draws.below(16) as usize], draw_action(draws, living)),
    };
    FramePlan {
        phase,
        text,
        deeds: Deeds::Script([action, other]),
    }
}

// Up to eight plans.
fn draw_plans(
    alloc: Global,
    draws: &mut RandomDraws,
    living: &[Entity],
) -> Result<Vec<FramePlan>, AllocError> {
    let mut plans = Vec::new(alloc);
    for _ in 0..2 + draws.below(7) {
        plans.push(draw_plan(draws, living))?;
    }
    Ok(plans)
}

// Up to eight plans about the living.
fn draw_frame(alloc: Global, run: &mut Followed) -> Result<Vec<FramePlan>, AllocError> {
    let living = run.world.living()?;
    draw_plans(alloc, &mut run.draws, &living)
}

// Lets the list follow the plans of these systems, which run one by one, and runs a frame.
fn run_declared<R: Threads + Sync>(
    rt: &R,
    alloc: Global,
    run: &mut Followed,
    systems: &Systems<Script>,
    plans: &[FramePlan],
) -> bool {
    match OneByOne::begin(alloc, &run.world) {
        Ok(mut expected) => {
            expected.run(&run.world, plans)
                && run.follow_all(&expected.done)
                && runs_as(
                    rt,
                    alloc,
                    &mut run.world,
                    systems,
                    1,
                    &expected,
                    &mut run.met.frames,
                )
        }
        Err(_) => false,
    }
}

// The same of those of the drawn plans that are allowed.
fn run_drawn<R: Threads + Sync>(
    rt: &R,
    alloc: Global,
    run: &mut Followed,
    drawn: &[FramePlan],
) -> bool {
    let mut systems: Systems<Script> = Systems::new(alloc);
    let mut allowed = Vec::new(alloc);
    declare_all(alloc, &run.world, drawn, &mut systems, &mut allowed).is_ok()
        && run_declared(rt, alloc, run, &systems, &allowed)
}

// The same of plans that are drawn now.
fn run_frame<R: Threads + Sync>(rt: &R, alloc: Global, run: &mut Followed) -> bool {
    match draw_frame(alloc, run) {
        Ok(drawn) => run_drawn(rt, alloc, run, &drawn),
        Err(_) => false,
    }
}

/// Runs a frame by one worker, and tells whether it is the run of its systems one by one. The list does what that run does.
pub fn run_mirrored<R: Threads + Sync>(rt: &R, alloc: Global, run: &mut Followed) -> bool {
    populate(&mut run.world).is_ok()
        && thin(run)
        && name_all(&mut run.world)
        && run_frame(rt, alloc, run)
}
