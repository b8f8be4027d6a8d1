//! What the commands of a merge answered.
ghost use Rattle.std.specs.Prelude.{◌≡◌, ◌==◌, IfOk, length};
ghost use Rattle.eco_stages.specs.Outcomes.{alike_in_memory};

use crate::iter::Iter;
use crate::outcomes::Outcomes;
use std::alloc::AllocError;
use std::marker::Model;

/// The outcome of each command of a merge, in the order in which they ran: done, or why it was refused.
#[derive(Debug)]
pub struct Report {
    outcomes: Outcomes,
}

// By hand, so that dropping it is one call: a derived drop is proved anew at each early return of whoever holds it.
impl Drop for Report {
    fn drop(self) {
        let Report { outcomes: _ } = self;
    }
}

impl Model for Report {
    ghost use Rattle.eco_stages.specs.Outcomes as specs;

    ghost Value = { specs.Outcomes };

    ghost view = { λ r. r.outcomes.outcomes };
}

impl Report {
    /// Of these outcomes.
    pub fn of(outcomes: Outcomes) -> Report
        ensures { result ≡ outcomes.outcomes }
    {
        Report { outcomes }
    }

    /// The outcome of each command.
    pub fn iter(&self) -> Iter<'_>
        ensures { result ≡ self.now }
    {
        self.outcomes.iter()
    }

    /// How many commands ran, the refused ones counted.
    pub fn len(&self) -> usize
        ensures { result ≡ length self.now }
    {
        self.outcomes.len()
    }

    /// Whether no command ran.
    pub fn is_empty(&self) -> bool
        ensures { result ≡ (length self.now == 0) }
    {
        self.outcomes.len() == 0
    }

    /// The same report once more. An `Err` comes where memory is refused.
    pub fn try_copy(&self) -> Result<Report, AllocError>
        ensures { IfOk result (λ copy. copy ≡ self.now) }
    {
        let outcomes = self.outcomes.try_copy()?;
        Ok(Report { outcomes })
    }

    /// Whether both tell of the same number of commands, and memory was wanting for the same of them. Of two merges of the same
    /// commands into the same world this is all that can differ.
    pub fn is_alike(&self, other: &Report) -> bool
        ensures { result ≡ alike_in_memory self.now other.now }
    {
        self.iter().is_alike(other.iter())
    }
}
