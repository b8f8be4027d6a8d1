//! What was refused for want of memory.
use crate::faults::dump::push;
use crate::faults::order::{Marks, NONE};
use eco_frame::{FrameReport, FrameStop};
use eco_ids::Refusal;
use eco_world::Report;
use std::alloc::AllocError;

/// What of a call was refused for want of memory.
#[derive(Clone, Copy)]
pub enum Lack {
    /// The whole call.
    All,
    /// These of the commands of a merge; none of them where nothing was refused, whatever the call.
    Commands(Marks),
    /// Of a frame all but the first batches, so many.
    Behind(usize),
}

/// Nothing was refused for want of memory.
pub const NOTHING: Lack = Lack::Commands(NONE);

impl Lack {
    /// Whether there is any.
    pub fn is_some(self) -> bool {
        match self {
            Lack::Commands(commands) => commands.contains(&true),
            Lack::All | Lack::Behind(_) => true,
        }
    }
}

// Writes the outcomes of the commands that found memory, and marks the others.
fn push_outcomes(
    text: &mut String,
    report: &Report,
    lacking: &mut Marks,
) -> Result<(), AllocError> {
    let mut outcomes = report.iter();
    for is_lacking in lacking {
        match outcomes.next() {
            Some(Ok(())) => text.push_str(" ok")?,
            Some(Err(Refusal::OutOfMemory)) => *is_lacking = true,
            Some(Err(refusal)) => push(text, &refusal)?,
            None => break,
        }
    }
    Ok(())
}

/// Writes what a merge did.
pub fn push_merge(text: &mut String, outcome: Result<Report, Refusal>) -> Result<Lack, Refusal> {
    let report = outcome?;
    let mut lacking = NONE;
    text.push_str(" outcomes")?;
    push_outcomes(text, &report, &mut lacking)?;
    Ok(Lack::Commands(lacking))
}

// Writes what the merges of a frame did.
fn push_frame(text: &mut String, report: &FrameReport) -> Result<Lack, AllocError> {
    let mut lacking = NONE;
    push(text, &report.batches())?;
    push(text, &report.drawn())?;
    for merged in report.reports() {
        push_outcomes(text, merged, &mut lacking)?;
    }
    Ok(Lack::Commands(lacking))
}

/// Writes where a frame stopped for want of memory.
pub fn push_stop(text: &mut String, batches: usize) -> Result<Lack, AllocError> {
    text.push_str(" stopped behind")?;
    push(text, &batches)?;
    Ok(Lack::Behind(batches))
}

/// Writes what a frame did.
pub fn push_run(
    text: &mut String,
    outcome: Result<FrameReport, FrameStop>,
) -> Result<Lack, Refusal> {
    match outcome {
        Ok(report) => Ok(push_frame(text, &report)?),
        Err(
            FrameStop {
                batches,
                refusal: Refusal::OutOfMemory,
            },
        ) => Ok(push_stop(text, batches)?),
        Err(stop) => Err(stop.refusal),
    }
}

/// Writes what a call was refused with, if it was, and ends its line. What isn't written is a fault: texts differ then.
pub fn conclude(text: &mut String, outcome: Result<Lack, Refusal>) -> Lack {
    let lack = match outcome {
        Ok(lack) => lack,
        Err(refusal) => {
            let _written = push(text, &refusal);
            if matches!(refusal, Refusal::OutOfMemory) {
                Lack::All
            } else {
                NOTHING
            }
        }
    };
    let _ended = text.push_str("\n");
    lack
}
