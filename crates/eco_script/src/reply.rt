//! What the steps of a script answer.

ghost use Rattle.std.specs.Prelude.{◌≡◌, ◌+◌, ◌≤◌, ◌++◌, codes, decimal, length, IfOk, OnOk, string_bytes, flat_map};
ghost use Rattle.eco_systems.specs.Batches.{joined};
ghost use Rattle.eco_script.specs.Answers.{answer_view, reply_view};
ghost use Rattle.eco_script.specs.Lines.{line_of, row_line};
ghost use Rattle.eco_script.specs.Text.{command_line, command_lines, framed_lines, outcome_line, refused_line, reply_lines};
ghost use Rattle.eco_script.specs.Text.{step_lines, stopped_line};

use crate::{EntityLine, RowLine, ShownValue};
use eco_frame::{FrameReport, FrameStop};
use eco_ids::{Entity, Refusal};
use eco_world::{QueryId, Report, Results, World};
use std::alloc::AllocError;

/// What a step answers where it is done.
#[derive(Drop)]
pub enum Reply {
    /// Nothing but that it is done.
    Done,
    /// The entity that was made.
    Made(Entity),
    /// Whether it is so.
    Truth(bool),
    /// The value of an id, or none.
    Got(Option<ShownValue>),
    /// One living entity.
    Shown(Entity),
    /// All living entities, ascending.
    Listed(Vec<Entity>),
    /// The results of a query, ascending.
    Found(Results),
    /// The query that was added, by its number.
    Kept(QueryId),
    /// The outcomes of the commands of a merge, in order.
    Merged(Report),
    /// What a frame did that ran to its end.
    Framed(FrameReport),
    /// Where a frame stopped.
    Stopped(FrameStop),
}

// Adds the line of how many lines come.
fn push_count(text: &mut String, count: usize) -> Result<(), AllocError>
    ensures { OnOk result (string_bytes text.new
        ≡ string_bytes text.old ++ (codes "ok " ++ decimal count ++ codes "\n")) }
{
    write!(text, "ok {count}\n")
}

// Adds the line of a refusal.
fn push_refused_line(text: &mut String, refusal: &Refusal) -> Result<(), AllocError>
    ensures { OnOk result (string_bytes text.new
        ≡ string_bytes text.old ++ refused_line refusal.now) }
{
    write!(text, "refused {refusal}\n")
}

// Adds the line of a command.
fn push_outcome_line(text: &mut String, outcome: Result<(), Refusal>) -> Result<(), AllocError>
    ensures { OnOk result (string_bytes text.new
        ≡ string_bytes text.old ++ outcome_line outcome) }
{
    match outcome {
        Ok(()) => text.push_str("ok\n"),
        Err(refusal) => push_refused_line(text, &refusal),
    }
}

// Adds the lines of commands.
fn push_outcome_lines(text: &mut String, report: &Report) -> Result<(), AllocError>
    ensures { OnOk result (string_bytes text.new
        ≡ string_bytes text.old ++ flat_map outcome_line report.now) }
{
    for outcome in report.iter() {
        push_outcome_line(text, outcome)?;
    }
    Ok(())
}

// Adds the line of a command of a frame, if it was refused.
fn push_command_line(
    text: &mut String,
    number: usize,
    outcome: Result<(), Refusal>,
) -> Result<(), AllocError>
    ensures { OnOk result (string_bytes text.new
        ≡ string_bytes text.old ++ command_line number outcome) }
{
    match outcome {
        Ok(()) => Ok(()),
        Err(refusal) => write!(text, "cmd {number} refused {refusal}\n"),
    }
}

// Adds the lines of commands of a frame, the first of which has this number, and gives the number of the one behind them.
fn push_command_lines(text: &mut String, first: usize, report: &Report) -> Result<usize, AllocError>
    requires { first + length report.now ≤ usize.MAX }
    ensures lines { OnOk result (string_bytes text.new
        ≡ string_bytes text.old ++ command_lines first report.now) }
    ensures next { IfOk result (λ n. n ≡ first + length report.now) }
{
    let mut number = first;
    for outcome in report.iter() {
        push_command_line(text, number, outcome)?;
        number += 1;
    }
    Ok(number)
}

// Adds the lines of the commands of a frame.
fn push_frame_lines(text: &mut String, reports: &[Report]) -> Result<(), AllocError>
    requires { length (joined reports.now) ≤ usize.MAX }
    ensures { OnOk result (string_bytes text.new
        ≡ string_bytes text.old ++ command_lines 0 (joined reports.now)) }
{
    let mut number = 0;
    for report in reports {
        number = push_command_lines(text, number, report)?;
    }
    Ok(())
}

// Adds the lines of a frame.
fn push_framed(text: &mut String, report: &FrameReport) -> Result<(), AllocError>
    ensures { OnOk result (string_bytes text.new
        ≡ string_bytes text.old ++ framed_lines report.now) }
{
    let batches = report.batches();
    let commands = report.commands();
    write!(text, "ok {batches} {commands}\n")?;
    push_frame_lines(text, report.reports())
}

// Adds the line of a frame that stopped.
fn push_stopped(text: &mut String, stop: &FrameStop) -> Result<(), AllocError>
    ensures { OnOk result (string_bytes text.new
        ≡ string_bytes text.old ++ stopped_line stop.now) }
{
    let FrameStop { batches, refusal } = *stop;
    write!(text, "stopped {batches} refused {refusal}\n")
}

// Adds the lines of entities.
fn push_entity_lines(
    text: &mut String,
    world: &World,
    entities: &[Entity],
) -> Result<(), AllocError>
    ensures { OnOk result (string_bytes text.new
        ≡ string_bytes text.old ++ flat_map (line_of world.now) entities.now) }
{
    for entity in entities {
        let line = EntityLine {
            world,
            entity: *entity,
        };
        write!(text, "{line}")?;
    }
    Ok(())
}

// Adds the lines of results.
fn push_row_lines(text: &mut String, results: &Results) -> Result<(), AllocError>
    ensures { OnOk result (string_bytes text.new
        ≡ string_bytes text.old ++ flat_map (λ r. row_line r.entity r.entries) results.now) }
{
    for place in 0..results.len() {
        let (entity, entries) = results.get(place);
        let line = RowLine { entity, entries };
        write!(text, "{line}")?;
    }
    Ok(())
}

impl Reply {
    /// Adds the lines of the reply, on the world that the step has left.
    pub fn push_lines(&self, text: &mut String, world: &World) -> Result<(), AllocError>
        ensures { OnOk result (string_bytes text.new
            ≡ string_bytes text.old ++ reply_lines world.now (reply_view self.now)) }
    {
        match self {
            Reply::Done => text.push_str("ok\n"),
            Reply::Made(entity) => write!(text, "ok {entity}\n"),
            Reply::Truth(truth) => write!(text, "ok {truth}\n"),
            Reply::Got(None) => text.push_str("ok none\n"),
            Reply::Got(Some(value)) => write!(text, "ok {value}\n"),
            Reply::Shown(entity) => {
                let line = EntityLine {
                    world,
                    entity: *entity,
                };
                write!(text, "ok {line}")
            }
            Reply::Listed(entities) => {
                push_count(text, entities.len())?;
                push_entity_lines(text, world, entities.as_slice())
            }
            Reply::Found(results) => {
                push_count(text, results.len())?;
                push_row_lines(text, results)
            }
            Reply::Kept(QueryId(number)) => write!(text, "ok {number}\n"),
            Reply::Merged(report) => {
                push_count(text, report.len())?;
                push_outcome_lines(text, report)
            }
            Reply::Framed(report) => push_framed(text, report),
            Reply::Stopped(stop) => push_stopped(text, stop),
        }
    }
}

/// Adds the lines of a step's answer: those of its reply, or the line of its refusal.
pub fn push_step_lines(
    text: &mut String,
    world: &World,
    answer: &Result<Reply, Refusal>,
) -> Result<(), AllocError>
    ensures { OnOk result (string_bytes text.new
        ≡ string_bytes text.old ++ step_lines world.now (answer_view answer.now)) }
{
    match answer {
        Ok(reply) => reply.push_lines(text, world),
        Err(refusal) => push_refused_line(text, &refusal),
    }
}
