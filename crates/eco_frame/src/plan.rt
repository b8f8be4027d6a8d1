//! Batches that are kept from frame to frame.
ghost use Rattle.std.specs.Prelude.{◌≡◌, map, IfOk, OnErr, OnOk};
ghost use Rattle.eco_frame.specs.Outlines.{ArePlacedBatches};
ghost use Rattle.eco_frame.specs.Plans.{IsBatchPlan, batches_in};

use crate::declared_system::Declared;
use crate::order::running_order;
use crate::outline::{Outlines, work_out};
use crate::sync::cut;
use eco_traits::Holdings;
use std::alloc::{AllocError, Global};

/// The batches of some systems, kept from frame to frame with what they rest on: which patterns the systems write with all that
/// comes along. They are made again only where these have changed.
pub struct Plan<'a> {
    systems: Vec<Declared<'a>>,
    // Their positions of declaration, as they run.
    order: Vec<usize>,
    outlines: Outlines,
    batches: Vec<Vec<usize>>,
}

// By hand, so that dropping it is one call: a derived drop is proved anew at each early return of whoever holds it.
impl Drop for Plan<'_> {
    fn drop(self) {
        let Plan {
            systems: _,
            order: _,
            outlines: _,
            batches: _,
        } = self;
    }
}

impl<'a> Plan<'a> {
    /// The batches of the systems on a world. `AllocError` comes where memory for what is kept is refused.
    pub fn new<H: Holdings>(
        alloc: Global,
        holdings: &H,
        systems: Vec<Declared<'a>>,
    ) -> Result<Plan<'a>, AllocError>
        ensures plan { IfOk result IsBatchPlan }
        ensures systems { IfOk result (λ p. p.systems.items ≡ systems.entry.items) }
        ensures placed { IfOk result (λ p. ArePlacedBatches (H.world holdings.now) systems.entry.items
            (batches_in p)) }
    {
        eco_systems::laws::systems_are_ordered();
        eco_systems::laws::batches_are_unique();
        let order = running_order(alloc, &systems)?;
        let outlines = work_out(alloc, holdings, &systems)?;
        let batches = cut(alloc, &outlines, &systems, &order)?;
        Ok(Plan {
            systems,
            order,
            outlines,
            batches,
        })
    }

    /// Makes the batches those of a world, with which a frame begins. They stay as they are where the systems write what they
    /// wrote before. `AllocError` comes where memory for what they write or for the batches is refused, and then they stay too.
    pub fn renew<H: Holdings>(&mut self, alloc: Global, holdings: &H) -> Result<(), AllocError>
        requires { IsBatchPlan self.old }
        ensures plan { IsBatchPlan self.new }
        ensures systems { self.new.systems.items ≡ self.old.systems.items }
        ensures placed { OnOk result (ArePlacedBatches (H.world holdings.now) self.old.systems.items
            (batches_in self.new)) }
        ensures err { OnErr result (self.new ≡ self.old) }
    {
        eco_systems::laws::systems_are_ordered();
        eco_systems::laws::batches_are_unique();
        if self.outlines.are_known(holdings, &self.systems) {
            return Ok(());
        }
        let outlines = work_out(alloc, holdings, &self.systems)?;
        if self.outlines.is(&outlines) {
            return Ok(());
        }
        let batches = cut(alloc, &outlines, &self.systems, &self.order)?;
        self.outlines = outlines;
        self.batches = batches;
        Ok(())
    }

    /// The batches, as lists of positions of declaration in the order in which the systems run.
    pub fn batches(&self) -> &[Vec<usize>]
        ensures { map (λ b. b.items) result.now ≡ batches_in self.now }
    {
        self.batches.as_slice()
    }
}
