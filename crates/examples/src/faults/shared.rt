//! The calls of a shared world.
ghost use Rattle.std.specs.Prelude.{◌≡◌};

use crate::faults::dump::push_world;
use crate::faults::lack::{Lack, NOTHING, conclude, push_merge};
use crate::faults::mark::{begin_call, end_call, tell};
use crate::faults::order::{BEFORE, NONE, record_all};
use crate::faults::scenario::{Call, Scenario};
use crate::faults::scene::{ADMITTED, ROOM, Scene};
use eco_ids::Refusal;
use eco_shared::{Blank, Merger, Naming, Registry, Viewer, open};
use eco_world::{Stage, World};
use std::alloc::{AllocError, Global};
use std::sync::Wait;
use std::thread::Threads;

// So many viewers are there.
const VIEWERS: usize = 2;

// Who merges into a shared world, and who looks on.
type Shared<J, R> = (Merger<J, R>, Vec<Viewer<J, R>>);

// Merges, and writes what came of it.
fn merge<J: Naming, R: Wait + Drop>(
    text: &mut String,
    merger: &mut Merger<J, R>,
    stages: &[Stage],
) -> Lack {
    let outcome = push_merge(text, merger.merge(ADMITTED, stages));
    conclude(text, outcome)
}

// Tells a viewer of what is published, and answers whether that is news of its world.
fn inform<J: Naming, R: Wait + Drop>(merger: &Merger<J, R>, viewer: &mut Viewer<J, R>) -> bool {
    let news = merger.tell();
    viewer.learn(&news)
}

// Writes all that a viewer finds.
fn show<J: Naming, R: Wait + Drop>(
    rt: &R,
    alloc: Global,
    text: &mut String,
    viewer: &mut Viewer<J, R>,
) -> Result<(), AllocError> {
    let view = viewer.enter(rt);
    push_world(text, alloc, view.world())
}

// Writes what a viewer finds who was told, and what the other world tells.
fn show_beside<J: Naming, R: Wait + Drop>(
    rt: &R,
    text: &mut String,
    merger: &Merger<J, R>,
    viewer: &mut Viewer<J, R>,
    other: &mut Scene,
) -> Result<(), AllocError> {
    if inform(merger, viewer) {
        show(rt, other.alloc, text, viewer)?;
    }
    other.show()
}

// Writes what each viewer finds who was told, and as often what the other world tells.
fn show_both<J: Naming, R: Wait + Drop>(
    rt: &R,
    text: &mut String,
    shared: &mut Shared<J, R>,
    other: &mut Scene,
) -> Result<(), AllocError> {
    let (merger, viewers) = shared;
    for viewer in viewers.iter_mut() {
        show_beside(rt, text, merger, viewer, other)?;
    }
    Ok(())
}

// Merges into both worlds.
fn merge_both<J: Naming, R: Threads + Wait + Sync + Drop>(
    rt: &R,
    text: &mut String,
    shared: &mut Shared<J, R>,
    other: &mut Scene,
) -> Result<(), AllocError> {
    merge(text, &mut shared.0, &other.stages);
    other.call(rt);
    show_both(rt, text, shared, other)
}

// Two merges more, by which the merger has changed each of its two worlds, and made each merge before the last one twice.
// Publishing asks for no memory, so no merger is stopped here.
fn go_on<J: Naming, R: Threads + Wait + Sync + Drop>(
    rt: &R,
    text: &mut String,
    shared: &mut Shared<J, R>,
    other: &mut Scene,
) -> Result<(), Refusal> {
    show_both(rt, text, shared, other)?;
    other.arm(&NONE)?;
    merge_both(rt, text, shared, other)?;
    merge_both(rt, text, shared, other)?;
    Ok(())
}

// Merges into both worlds, of which the second follows, and answers where the line begins that has the answer. Another merge comes
// before, which the merger makes once more.
fn judge_merge<J: Naming, R: Eprint + Threads + Wait + Sync + Drop>(
    rt: &R,
    text: &mut String,
    shared: &mut Shared<J, R>,
    other: &mut Scene,
) -> Result<(Lack, usize), Refusal> {
    record_all(other.alloc, &mut other.stages, BEFORE, &NONE)?;
    merge_both(rt, text, shared, other)?;
    other.arm(&NONE)?;
    let place = text.len();
    text.reserve(ROOM)?;
    begin_call(rt);
    let lack = merge(text, &mut shared.0, &other.stages);
    end_call(rt);
    other.follow(rt, lack)?;
    go_on(rt, text, shared, other)?;
    Ok((lack, place))
}

// What comes of a merge.
fn judge_merged<J: Naming, R: Eprint + Threads + Wait + Copy + Sync + Drop>(
    rt: R,
    registry: &mut Registry<J>,
    text: &mut String,
    world: World,
    other: &mut Scene,
) -> Result<(Lack, usize), Refusal> {
    match open(rt, registry, other.alloc, world, VIEWERS) {
        Ok(mut shared) => judge_merge(&rt, text, &mut shared, other),
        Err((_world, refusal)) => Err(refusal),
    }
}

// Writes what a world tells that was not shared, and what the other tells.
fn show_unshared(text: &mut String, world: &World, other: &mut Scene) -> Result<(), AllocError> {
    push_world(text, other.alloc, world)?;
    other.show()
}

// The world that was handed back is shown, and shared after all.
fn judge_refused<J: Naming, R: Threads + Wait + Copy + Sync + Drop>(
    rt: R,
    registry: &mut Registry<J>,
    text: &mut String,
    world: World,
    other: &mut Scene,
) -> Result<(), Refusal> {
    show_unshared(text, &world, other)?;
    match open(rt, registry, other.alloc, world, VIEWERS) {
        Ok(mut shared) => go_on(&rt, text, &mut shared, other),
        Err((_world, refusal)) => Err(refusal),
    }
}

// What comes of an opening that was done.
fn judge_opened<J: Naming, R: Threads + Wait + Sync + Drop>(
    rt: &R,
    text: &mut String,
    shared: &mut Shared<J, R>,
    other: &mut Scene,
) -> Result<(Lack, usize), Refusal> {
    conclude(text, Ok(NOTHING));
    conclude(&mut other.text, Ok(NOTHING));
    go_on(rt, text, shared, other)?;
    Ok((NOTHING, 0))
}

// What comes of an opening that was refused: the refusal, and all that the world tells that was handed back.
fn judge_unopened<J: Naming, R: Threads + Wait + Copy + Sync + Drop>(
    rt: R,
    registry: &mut Registry<J>,
    text: &mut String,
    world: World,
    refusal: Refusal,
    other: &mut Scene,
) -> Result<(Lack, usize), Refusal> {
    let lack = conclude(text, Err(refusal));
    conclude(&mut other.text, Err(Refusal::OutOfMemory));
    judge_refused(rt, registry, text, world, other)?;
    Ok((lack, 0))
}

// What comes of an opening.
fn judge_open<J: Naming, R: Eprint + Threads + Wait + Copy + Sync + Drop>(
    rt: R,
    registry: &mut Registry<J>,
    text: &mut String,
    world: World,
    other: &mut Scene,
) -> Result<(Lack, usize), Refusal> {
    begin_call(&rt);
    let opened = open(rt, registry, other.alloc, world, VIEWERS);
    end_call(&rt);
    match opened {
        Ok(mut shared) => judge_opened(&rt, text, &mut shared, other),
        Err((world, refusal)) => judge_unopened(rt, registry, text, world, refusal, other),
    }
}

// What comes of the call.
fn judge_call<J: Naming, R: Eprint + Threads + Wait + Copy + Sync + Drop>(
    rt: R,
    registry: &mut Registry<J>,
    call: Call,
    text: &mut String,
    world: World,
    other: &mut Scene,
) -> Result<(Lack, usize), Refusal> {
    match call {
        Call::OpenShared => judge_open(rt, registry, text, world, other),
        _ => judge_merged(rt, registry, text, world, other),
    }
}

// What comes of the call on a copy of the world, by another copy. Copies have no room to spare.
fn judge_copies<J: Naming, R: Print + Eprint + Threads + Wait + Copy + Sync + Drop>(
    rt: R,
    registry: &mut Registry<J>,
    scenario: &Scenario,
    text: &mut String,
    copy: World,
    other: &mut Scene,
) -> Result<bool, Refusal> {
    let answer = judge_call(rt, registry, scenario.call, text, copy, other)?;
    Ok(tell(
        &rt,
        scenario.name,
        answer,
        text.as_str(),
        other.text.as_str(),
    ))
}

/// Makes the call of a scenario on a copy of its world that is shared, and tells what came of it by another copy that is not.
/// Answers whether it was no fault.
pub fn judge_shared<J: Naming, R: Print + Eprint + Threads + Wait + Copy + Sync + Drop>(
    rt: R,
    alloc: Global,
    blank: Blank,
    scenario: &Scenario,
    world: &World,
) -> Result<bool, Refusal>
    requires { blank.front.seen.book ≡ J.book }
{
    let mut registry = blank.named::<J>();
    let mut other = Scene::new(alloc, scenario.call, world)?;
    let copy = world.try_copy()?;
    let mut text = String::new(alloc);
    judge_copies(rt, &mut registry, scenario, &mut text, copy, &mut other)
}
