//! The reports of a frame, one for each batch: each has the outcomes of its own batch.
use eco_bodies::{Action, Script, Systems};
use eco_frame::{FrameReport, run_frame};
use eco_ids::entity::ACYCLIC;
use eco_ids::{Entity, Id, Refusal};
use eco_stages::Report;
use eco_systems::Phase;
use eco_world::World;
use std::alloc::{AllocError, Global};
use std::thread::Threads;

// `Afloat` is #9.0, and `Follows`, which is acyclic, #10.0. `Heron` is #11.0 and `Teal` #12.0, both afloat.
fn prepare(world: &mut World) -> Result<Id, Refusal> {
    let afloat = Id::One(world.create(Some("Afloat"))?);
    let follows = world.create(Some("Follows"))?;
    world.add(follows, Id::One(ACYCLIC))?;
    let heron = world.create(Some("Heron"))?;
    world.add(heron, afloat)?;
    let teal = world.create(Some("Teal"))?;
    world.add(teal, afloat)?;
    Ok(Id::Two(follows, teal))
}

// Adds a system of one action.
fn add(
    alloc: Global,
    world: &World,
    systems: &mut Systems<Script>,
    name: &str,
    text: &str,
    action: Action,
) -> Result<(), Refusal> {
    let query = world.read_query(text)?;
    let actions = Vec::from_slice(alloc, &[action])?;
    let body = Script::new(alloc, &query, actions)?;
    systems
        .add(name, Phase::OnUpdate, query, body)
        .map_err(|refused| refused.refusal)
}

// Who is afloat follows Teal, which Teal itself can't; then each who follows makes an entity. The second reads what the first
// writes, so each has a batch.
fn declare(alloc: Global, world: &World, follows_teal: Id) -> Result<Systems<Script>, Refusal> {
    let mut systems = Systems::new(alloc);
    add(
        alloc,
        world,
        &mut systems,
        "follow",
        "Afloat",
        Action::AddId(follows_teal),
    )?;
    add(
        alloc,
        world,
        &mut systems,
        "lower",
        "(Follows, *)",
        Action::Spawn(None),
    )?;
    Ok(systems)
}

// Puts what a batch answered behind a text, and a line's end.
fn push_report(text: &mut String, report: &Report) -> Result<(), AllocError> {
    for outcome in report.iter() {
        match outcome {
            Ok(()) => write!(text, "done; ")?,
            Err(refusal) => write!(text, "{refusal}; ")?,
        }
    }
    write!(text, "\n")
}

// Whether the reports of a frame, a line each, are these.
fn are_shown(alloc: Global, report: &FrameReport, expected: &str) -> bool {
    let mut shown = String::new(alloc);
    for part in report.reports() {
        if push_report(&mut shown, part).is_err() {
            return false;
        }
    }
    shown.as_str() == expected
}

// Whether a frame of these systems has these reports.
fn reports<R: Threads + Sync>(
    rt: &R,
    alloc: Global,
    world: &mut World,
    systems: &Systems<Script>,
    expected: &str,
) -> bool {
    match run_frame(rt, alloc, world, systems, 1) {
        Ok(report) => are_shown(alloc, &report, expected),
        Err(_) => false,
    }
}

// Whether each batch of a frame has a report of its own.
fn are_apart<R: Threads + Sync>(rt: &R, alloc: Global, world: &mut World) -> bool {
    let Ok(follows_teal) = prepare(world) else {
        return false;
    };
    match declare(alloc, world, follows_teal) {
        Ok(systems) => reports(
            rt,
            alloc,
            world,
            &systems,
            "done; 6 Cycle #10.0; \ndone; \n",
        ),
        Err(_) => false,
    }
}

// The same of a new world.
fn are_apart_in_new<R: Threads + Sync>(rt: &R, alloc: Global) -> bool {
    match World::new(alloc, 64) {
        Ok(mut world) => are_apart(rt, alloc, &mut world),
        Err(_) => false,
    }
}

#[test]
fn each_batch_has_a_report_of_its_own(rt: HostRuntime) {
    assert!(rt; are_apart_in_new(&rt, rt.alloc()));
}
