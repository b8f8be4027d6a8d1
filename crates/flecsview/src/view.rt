//! Steps beside their lines.

ghost use Rattle.std.specs.Prelude.{◌≡◌, All};
ghost use Rattle.eco_steps.specs.Steps.{KeepsTo};
ghost use Rattle.eco_steps.specs.Views.{step_view};

use crate::named::push_named;
use crate::stopped::Stopped;
use eco_bodies::Systems;
use eco_checker::push_meaning;
use eco_frame::StagePool;
use eco_ids::Refusal;
use eco_script::perform::perform;
use eco_script::reply::push_step_lines;
use eco_steps::WrittenStep;
use eco_world::World;
use serde_json::Value;
use std::alloc::{AllocError, Global};
use std::thread::Threads;

// Adds the number of a step and the step itself.
fn push_step(
    alloc: Global,
    text: &mut String,
    number: usize,
    value: &Value,
) -> Result<(), AllocError> {
    let step = value.to_string(alloc)?;
    write!(text, "{number:>4}  {step}\n")
}

// Adds lines below their step, with names in place of handles where that is asked for.
fn push_lines(
    text: &mut String,
    world: &World,
    lines: &str,
    has_names: bool,
) -> Result<(), AllocError> {
    for line in lines.lines() {
        text.push_str("      ")?;
        if has_names {
            push_named(text, world, line)?;
        } else {
            text.push_str(line)?;
        }
        text.push_str("\n")?;
    }
    Ok(())
}

// Adds the line that says what a refusal means.
fn push_refusal(
    alloc: Global,
    text: &mut String,
    world: &World,
    step: &WrittenStep<'_>,
    refusal: &Refusal,
) -> Result<(), AllocError> {
    text.push_str("      means ")?;
    push_meaning(alloc, text, world, step, refusal)?;
    text.push_str("\n")
}

// Runs a step, and adds it with its lines.
fn view_step<T: Threads + Sync>(
    threads: &T,
    alloc: Global,
    world: &mut World,
    systems: &mut Systems,
    pool: &mut StagePool,
    step: &WrittenStep<'_>,
    text: &mut String,
    has_names: bool,
) -> Result<(), AllocError>
    requires { KeepsTo world.old.edition (step_view step.now) }
    ensures { world.new.edition ≡ world.old.edition }
{
    let answer = perform(threads, alloc, world, systems, 1, pool, step);
    let mut lines = String::new(alloc);
    push_step_lines(&mut lines, world, &answer)?;
    push_lines(text, world, lines.as_str(), has_names)?;
    match &answer {
        Ok(_) => Ok(()),
        Err(refusal) => push_refusal(alloc, text, world, step, refusal),
    }
}

/// Runs the steps on a world of their edition, one by one, and shows each with its lines. A frame has one worker.
pub fn view_steps<T: Threads + Sync>(
    rt: &HostRuntime,
    threads: &T,
    world: &mut World,
    systems: &mut Systems,
    steps: &[WrittenStep<'_>],
    values: &[Value],
    has_names: bool,
) -> Result<(), Stopped>
    requires { All (λ step. KeepsTo world.old.edition (step_view step)) steps.now }
{
    let mut text = String::new(rt.alloc());
    let mut pool = StagePool::new(rt.alloc());
    for (number, step) in steps.iter().enumerate() {
        if let Some(value) = values.get(number) {
            push_step(rt.alloc(), &mut text, number, value)?;
        }
        view_step(
            threads,
            rt.alloc(),
            world,
            systems,
            &mut pool,
            step,
            &mut text,
            has_names,
        )?;
        rt.print(text.as_str())?;
        text.clear();
    }
    Ok(())
}
