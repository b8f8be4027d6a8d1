//! A world, and a plain list that does what was done to it.
use crate::draws::RandomDraws;
use crate::frame_runs::Totals;
use crate::one_by_one::Done;
use crate::plain::{Deed, PlainList, clashes};
use eco_ids::Refusal;
use eco_world::World;
use std::alloc::Global;

/// How often a clash was refused, how many symmetric pairs stood on both sides, counted after each step, and what frames did.
#[derive(Clone, Copy)]
pub struct Met {
    pub clashes: usize,
    pub mirrored: usize,
    pub frames: Totals,
}

/// A world, the list that follows it, what is drawn next, and what was met.
#[derive(Drop)]
pub struct Followed {
    pub world: World,
    pub list: PlainList,
    pub draws: RandomDraws,
    pub met: Met,
}

impl Followed {
    /// The list is that of a new world.
    pub fn new(alloc: Global, world: World, seed: u64, met: Met) -> Followed {
        Followed {
            world,
            list: PlainList::new(alloc),
            draws: RandomDraws::new(seed),
            met,
        }
    }

    // Does to the list what was done to the world, if it was done. Tells whether a clash was refused just where the list would have
    // one; what else is refused is not the list's to say.
    fn settle(&mut self, outcome: Result<(), Refusal>) -> bool {
        let would_clash = clashes(&self.list.next);
        match outcome {
            Ok(()) => {
                self.list.accept();
                !would_clash
            }
            Err(Refusal::TraitClash) => {
                self.met.clashes = self.met.clashes.saturating_add(1);
                would_clash
            }
            Err(_) => true,
        }
    }

    // The same of a deed with this outcome.
    fn follow(&mut self, deed: Deed, outcome: Result<(), Refusal>) -> bool {
        self.list.foresee(deed).is_ok() && self.settle(outcome)
    }

    /// The same of all deeds that were done, in their order.
    pub fn follow_all(&mut self, all: &[Done]) -> bool {
        let mut is_right = true;
        for done in all {
            if let Some(deed) = done.deed {
                is_right &= self.follow(deed, done.outcome);
            }
        }
        is_right
    }

    /// Does a deed to the world and to the list, and tells whether a clash was refused as it should be.
    pub fn apply(&mut self, deed: Deed) -> bool {
        let outcome = deed.apply(&mut self.world);
        self.follow(deed, outcome)
    }
}
