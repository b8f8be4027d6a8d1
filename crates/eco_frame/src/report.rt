//! What a frame did.
ghost use Rattle.std.specs.Prelude.{◌≡◌, length};
ghost use Rattle.eco_systems.specs.Batches.{joined};

use eco_stages::Report;
use std::marker::Model;

/// What a frame did that ran to its end (Flecs manual, Systems): how many batches it had, the outcome of each of its commands in
/// the order in which they ran, and how many fresh handles were drawn.
#[derive(Debug)]
pub struct FrameReport {
    reports: Vec<Report>,
    commands: usize,
    drawn: u32,
}

// By hand, so that dropping it is one call: a derived drop is proved anew at each early return of whoever holds it.
impl Drop for FrameReport {
    fn drop(self) {
        let FrameReport {
            reports: _,
            commands: _,
            drawn: _,
        } = self;
    }
}

impl Model for FrameReport {
    ghost use Rattle.std.specs.Prelude.{◌≡◌, length};
    ghost use Rattle.eco_systems.specs.Batches.{joined};
    ghost use Rattle.eco_frame.specs.Reports.{FrameDone};

    ghost Value = { FrameDone };

    ghost view = { λ r. record {
      batches = length r.reports.items;
      outcomes = joined r.reports.items;
      drawn = r.drawn;
    } };

    ghost invariant = { λ r. r.commands ≡ length (joined r.reports.items) };
}

impl FrameReport {
    // Of these reports, which are so many commands, and of so many draws.
    pub(crate) fn of(reports: Vec<Report>, commands: usize, drawn: u32) -> FrameReport
        requires { commands ≡ length (joined reports.items) }
        ensures { result ≡ record {
          batches = length reports.items;
          outcomes = joined reports.items;
          drawn = drawn;
        } }
    {
        FrameReport {
            reports,
            commands,
            drawn,
        }
    }

    /// How many batches it had.
    pub fn batches(&self) -> usize
        ensures { result ≡ self.now.batches }
    {
        self.reports.len()
    }

    /// How many commands ran, the refused ones counted.
    pub fn commands(&self) -> usize
        ensures { result ≡ length self.now.outcomes }
    {
        self.commands
    }

    /// How many fresh handles were drawn.
    pub fn drawn(&self) -> u32
        ensures { result ≡ self.now.drawn }
    {
        self.drawn
    }

    /// What the merge of each batch answered, in order: together the outcomes of all commands.
    pub fn reports(&self) -> &[Report]
        ensures all { joined result.now ≡ self.now.outcomes }
        ensures each { length result.now ≡ self.now.batches }
    {
        self.reports.as_slice()
    }
}
