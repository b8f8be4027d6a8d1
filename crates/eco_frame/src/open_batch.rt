//! The batch that is open.
ghost use Rattle.std.specs.Prelude.{◌≡◌, ◌&&◌, ◌||◌, IfOk, List, OnOk, option_copied, slice_get};
ghost use Rattle.std.specs.List.{list_any};
ghost use Rattle.eco_query.specs.Queries.{has_any};
ghost use Rattle.eco_frame.specs.Open.{IsFresh, IsOpen, JoinsOpen, stands_apart};
ghost use Rattle.eco_frame.specs.Outlines as spec;
ghost use Rattle.eco_frame.specs.OutlineModels.{OutlineModel};
ghost use Rattle.eco_frame.specs.Outlines.{clash_of};
ghost use Rattle.eco_frame.specs.Written.{overlaps};

use crate::declared_system::Declared;
use crate::outline::Outlines;
use crate::written::Written;
use std::alloc::{AllocError, Global};

/// A batch that systems still join: their positions of declaration, whether one of them kills, and what they write.
pub(crate) struct Batch {
    places: Vec<usize>,
    kills: bool,
    written: Written,
}

// By hand, so that dropping it is one call: a derived drop is proved anew at each early return of whoever holds it.
impl Drop for Batch {
    fn drop(self) {
        let Batch {
            places: _,
            kills: _,
            written: _,
        } = self;
    }
}

// Whether the system kills.
fn kills_too(system: Option<&Declared>) -> bool
    ensures { result ≡ spec.kills_too (option_copied system.entry) }
{
    match system {
        Some(system) => system.kills,
        None => false,
    }
}

// Whether something that is written overlaps one of the system's reads.
fn disturb(written: &Written, system: Option<&Declared>) -> bool
    ensures { result ≡ list_any (overlaps written.now) (spec.reads_in (option_copied system.entry)) }
{
    match system {
        Some(system) => {
            written.overlaps_some(system.query_reads) || written.overlaps_some(system.body_reads)
        }
        None => false,
    }
}

impl Batch {
    /// No system, and room for so many.
    pub fn with_capacity(alloc: Global, count: usize) -> Result<Batch, AllocError>
        ensures { IfOk result IsFresh }
    {
        Ok(Batch {
            places: Vec::with_capacity(alloc, count)?,
            kills: false,
            written: Written::new(alloc)?,
        })
    }

    // Whether it has a system.
    fn has_systems(&self) -> bool
        ensures { result ≡ has_any self.now.places.items }
    {
        !self.places.is_empty()
    }

    // Whether a later system stands apart from those that it has, if any.
    fn stands_apart(&self, later: Option<&Declared>, late: bool) -> bool
        ensures { result ≡ stands_apart self.now (option_copied later.entry) late }
    {
        self.kills || kills_too(later) || late || disturb(&self.written, later)
    }

    fn has_clash(&self, later: Option<&Declared>, late: bool) -> bool
        ensures { result ≡ (has_any self.now.places.items
            && stands_apart self.now (option_copied later.entry) late) }
    {
        self.has_systems() && self.stands_apart(later, late)
    }

    /// Whether one of its systems can't be recorded on one world with a later one. `late` says that the later one or a system
    /// before it writes traits.
    pub fn clashes(&self, later: Option<&Declared>, late: bool) -> bool
        ensures { (os : List OutlineModel) → IsOpen os self.now → result ≡ list_any
            (λ s. clash_of (slice_get os s) (option_copied later.entry) late) self.now.places.items }
    {
        self.has_clash(later, late)
    }

    // Whether it kills, or the system at a position.
    fn kills_with(&self, outlines: &Outlines, at: usize) -> bool
        ensures { result ≡ (self.now.kills || spec.kills_in (slice_get outlines.now at)) }
    {
        let own = outlines.kills(at);
        self.kills || own
    }

    /// The system at a position joins.
    pub fn add(&mut self, outlines: &Outlines, at: usize) -> Result<(), AllocError>
        ensures { OnOk result (JoinsOpen outlines.now self.old at self.new) }
    {
        self.places.push(at)?;
        self.kills = self.kills_with(outlines, at);
        self.written.add_all(outlines.closed(at))
    }

    /// Its systems, which leave it. The memory stays, for the next ones.
    pub fn take(&mut self, alloc: Global) -> Result<Vec<usize>, AllocError>
        ensures taken { IfOk result (λ taken. taken.items ≡ self.old.places.items) }
        ensures fresh { OnOk result (IsFresh self.new) }
    {
        let taken = Vec::from_slice(alloc, &self.places)?;
        self.places.clear();
        self.kills = false;
        self.written.clear();
        Ok(taken)
    }
}
