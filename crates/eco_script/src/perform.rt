//! Runs one step of a script.

ghost use Rattle.std.specs.Prelude.{◌≡◌, ◌≤◌, IsFalse, option_map};
ghost use Rattle.eco_ids.specs.Outcome.{is_out_of_memory};
ghost use Rattle.eco_script.specs.Answers.{answer_view};
ghost use Rattle.eco_script.specs.Replies.{DeclaresSystem, Replies, StepReplies};
ghost use Rattle.eco_script.specs.Systems.{reached, ReadsBody};
ghost use Rattle.eco_steps.specs.Steps as steps;
ghost use Rattle.eco_steps.specs.Steps.{KeepsTo};
ghost use Rattle.eco_steps.specs.Views.{actions_view, change_view, stages_view, step_view};

use crate::making::make_change;
use crate::reply::Reply;
use crate::{ShownValue, read_actions, read_entity, read_id, read_query, record_stages};
use eco_bodies::{Script, Systems};
use eco_frame::{StagePool, run_frame_with};
use eco_ids::Refusal;
use eco_steps::{Actions, Stages, WrittenChange, WrittenStep};
use eco_systems::Phase;
use eco_world::{Query, QueryId, World};
use std::alloc::Global;
use std::thread::Threads;

// Each of these does the step of its name, and answers what its line is to tell.

fn create(world: &mut World, name: Option<&str>) -> Result<Reply, Refusal>
    ensures { Replies world.old (steps.create (option_map (λ s. s.now) name.entry))
        (answer_view result) world.new }
{
    Ok(Reply::Made(world.create(name)?))
}

fn component(world: &mut World, name: &str, arity: u8) -> Result<Reply, Refusal>
    requires { KeepsTo world.old.edition (steps.component name.now arity) }
    ensures { Replies world.old (steps.component name.now arity) (answer_view result) world.new }
{
    Ok(Reply::Made(world.component(Some(name), arity)?))
}

fn change(world: &mut World, change: WrittenChange<'_>) -> Result<Reply, Refusal>
    ensures { Replies world.old (steps.change (change_view change.entry))
        (answer_view result) world.new }
{
    make_change(world, change)?;
    Ok(Reply::Done)
}

fn has(world: &World, entity: &str, id: &str) -> Result<Reply, Refusal>
    ensures { Replies world.now (steps.has entity.now id.now) (answer_view result) world.now }
{
    let entity = read_entity(entity, world)?;
    let id = read_id(id, world)?;
    Ok(Reply::Truth(world.has(entity, id)))
}

fn get(world: &World, entity: &str, id: &str) -> Result<Reply, Refusal>
    ensures { Replies world.now (steps.get entity.now id.now) (answer_view result) world.now }
{
    let entity = read_entity(entity, world)?;
    let id = read_id(id, world)?;
    Ok(Reply::Got(ShownValue::of(world, entity, id)))
}

fn show(world: &World, entity: &str) -> Result<Reply, Refusal>
    ensures { Replies world.now (steps.show entity.now) (answer_view result) world.now }
{
    let entity = read_entity(entity, world)?;
    if world.is_alive(entity) {
        Ok(Reply::Shown(entity))
    } else {
        Err(Refusal::NotAlive)
    }
}

fn list(world: &World) -> Result<Reply, Refusal>
    ensures { Replies world.now steps.list (answer_view result) world.now }
{
    Ok(Reply::Listed(world.living()?))
}

fn query(world: &World, text: &str) -> Result<Reply, Refusal>
    ensures { Replies world.now (steps.query text.now) (answer_view result) world.now }
{
    let query = read_query(text, world)?;
    Ok(Reply::Found(world.results(&query)?))
}

fn cache(world: &mut World, text: &str) -> Result<Reply, Refusal>
    ensures { Replies world.old (steps.cache text.now) (answer_view result) world.new }
{
    let query = read_query(text, world)?;
    Ok(Reply::Kept(world.add_query(query)?))
}

fn cached(world: &World, query: u32) -> Result<Reply, Refusal>
    ensures { Replies world.now (steps.cached query) (answer_view result) world.now }
{
    Ok(Reply::Found(world.answer_results(QueryId(query as usize))?))
}

fn merge(
    alloc: Global,
    world: &mut World,
    admitted: u32,
    stages: Stages<'_>,
) -> Result<Reply, Refusal>
    ensures { Replies world.old (steps.merge admitted (stages_view stages.entry))
        (answer_view result) world.new }
{
    let recorded = record_stages(alloc, world, stages)?;
    let report = world.merge(admitted, recorded.as_slice())?;
    Ok(Reply::Merged(report))
}

// The body of a system, for the rows of a query.
fn read_body(
    alloc: Global,
    world: &World,
    query: &Query,
    actions: Actions<'_>,
) -> Result<Script, Refusal>
    ensures { IsFalse (is_out_of_memory result)
        → ReadsBody world.now query.now (actions_view actions.entry) result }
{
    let actions = read_actions(alloc, world, actions)?;
    Script::new(alloc, query, actions)
}

fn system(
    alloc: Global,
    world: &World,
    systems: &mut Systems<Script>,
    name: &str,
    phase: Phase,
    text: &str,
    actions: Actions<'_>,
) -> Result<Reply, Refusal>
    ensures { DeclaresSystem (reached world.now systems.old) name.now phase text.now
        (actions_view actions.entry)
        (answer_view result) (reached world.now systems.new) }
{
    let query = read_query(text, world)?;
    let body = read_body(alloc, world, &query, actions)?;
    match systems.add(name, phase, query, body) {
        Ok(()) => Ok(Reply::Done),
        Err(not_added) => Err(not_added.refusal),
    }
}

fn frame<R: Threads + Sync>(
    rt: &R,
    alloc: Global,
    world: &mut World,
    systems: &Systems<Script>,
    workers: u32,
    pool: &mut StagePool,
) -> Reply
    requires { (1 ≤ workers) × (workers ≤ 64) }
    ensures { StepReplies workers (reached world.old systems.now) steps.frame
        (answer_view (Ok result)) (reached world.new systems.now) }
{
    match run_frame_with(rt, alloc, world, systems, workers, pool) {
        Ok(report) => Reply::Framed(report),
        Err(stop) => Reply::Stopped(stop),
    }
}

// Runs a step, whichever it is.
fn answer<R: Threads + Sync>(
    rt: &R,
    alloc: Global,
    world: &mut World,
    systems: &mut Systems<Script>,
    workers: u32,
    pool: &mut StagePool,
    step: &WrittenStep<'_>,
) -> Result<Reply, Refusal>
    requires workers { (1 ≤ workers) × (workers ≤ 64) }
    requires keeps { KeepsTo world.old.edition (step_view step.now) }
    ensures { StepReplies workers (reached world.old systems.old) (step_view step.now)
        (answer_view result) (reached world.new systems.new) }
{
    match *step {
        WrittenStep::Create(name) => create(world, name),
        WrittenStep::Component { name, arity } => component(world, name, arity),
        WrittenStep::Change(asked) => change(world, asked),
        WrittenStep::Has { entity, id } => has(world, entity, id),
        WrittenStep::Get { entity, id } => get(world, entity, id),
        WrittenStep::Show { entity } => show(world, entity),
        WrittenStep::List => list(world),
        WrittenStep::Query { text } => query(world, text),
        WrittenStep::Cache { text } => cache(world, text),
        WrittenStep::Cached { query } => cached(world, query),
        WrittenStep::Merge { admitted, stages } => merge(alloc, world, admitted, stages),
        WrittenStep::System {
            name,
            phase,
            query,
            actions,
        } => system(alloc, world, systems, name, phase, query, actions),
        WrittenStep::Frame => Ok(frame(rt, alloc, world, systems, workers, pool)),
    }
}

/// Runs a step on a world of its script's edition, with the systems declared so far; a frame of them has so many
/// workers, 1 to 64, and records into the memory of the pool. What is recorded for a merge, and what is kept of a system, take
/// their memory from `alloc`.
pub fn perform<R: Threads + Sync>(
    rt: &R,
    alloc: Global,
    world: &mut World,
    systems: &mut Systems<Script>,
    workers: u32,
    pool: &mut StagePool,
    step: &WrittenStep<'_>,
) -> Result<Reply, Refusal>
    requires workers { (1 ≤ workers) × (workers ≤ 64) }
    requires keeps { KeepsTo world.old.edition (step_view step.now) }
    ensures replies { StepReplies workers (reached world.old systems.old) (step_view step.now)
        (answer_view result) (reached world.new systems.new) }
    ensures edition { world.new.edition ≡ world.old.edition }
{
    answer(rt, alloc, world, systems, workers, pool, step)
}
