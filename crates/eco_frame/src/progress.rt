//! What a frame has done so far.
ghost use Rattle.std.specs.Prelude.{◌≡◌, ◌+◌, ◌≤◌, ◌<◌, ◌++◌, ◌∷◌, [], length, vec_capacity, vec_len, IfOk, IfSome};
ghost use Rattle.eco_stages.specs.Merging.{all_commands};
ghost use Rattle.eco_frame.specs.Progresses.{CountsReport, CommandsAreCounted, done_of};

use crate::report::FrameReport;
use eco_stages::{Report, Stage};
use std::alloc::{AllocError, Global};

// What the merges of the batches answered, how many commands that are, and how many handles were drawn.
pub(crate) struct Progress {
    pub(crate) reports: Vec<Report>,
    pub(crate) commands: usize,
    pub(crate) drawn: u32,
}

// By hand, so that dropping it is one call: a derived drop is proved anew at each early return of whoever holds it.
impl Drop for Progress {
    fn drop(self) {
        let Progress {
            reports: _,
            commands: _,
            drawn: _,
        } = self;
    }
}

// How many commands these stages hold, where they can be counted.
fn count_commands(stages: &[Stage]) -> Option<usize>
    ensures { IfSome result (λ n. n ≡ length (all_commands stages.now)) }
{
    let mut count: usize = 0;
    for stage in stages {
        count = count.checked_add(stage.len())?;
    }
    Some(count)
}

impl Progress {
    // Nothing yet, and room for so many batches.
    pub(crate) fn with_room(alloc: Global, batches: usize) -> Result<Progress, AllocError>
        ensures { IfOk result (λ p. (p.reports.items ≡ []) × (p.commands ≡ 0) × (p.drawn ≡ 0)
            × (batches ≤ vec_capacity p.reports)) }
    {
        Ok(Progress {
            reports: Vec::with_capacity(alloc, batches)?,
            commands: 0,
            drawn: 0,
        })
    }

    // How many commands and draws these are with those of one more batch, where they can be counted.
    pub(crate) fn with_batch(&self, stages: &[Stage], drawn: u32) -> Option<(usize, u32)>
        ensures { IfSome result (λ n. (n.0 ≡ self.now.commands + length (all_commands stages.now))
            × (n.1 ≡ self.now.drawn + drawn)) }
    {
        let commands = self.commands.checked_add(count_commands(stages)?)?;
        let drawn = self.drawn.checked_add(drawn)?;
        Some((commands, drawn))
    }

    // One more batch was merged, with so many commands and draws in all.
    pub(crate) fn push(&mut self, report: Report, commands: usize, drawn: u32)
        requires { vec_len self.old.reports < vec_capacity self.old.reports }
        ensures { CountsReport self.old report commands drawn self.new }
    {
        self.reports.push_reserved(report);
        self.commands = commands;
        self.drawn = drawn;
    }

    // Of all that was done.
    pub(crate) fn into_report(self) -> FrameReport
        requires { CommandsAreCounted self }
        ensures { result ≡ done_of self }
    {
        let Progress {
            reports,
            commands,
            drawn,
        } = self;
        FrameReport::of(reports, commands, drawn)
    }
}
