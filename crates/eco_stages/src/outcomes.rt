//! The outcomes of commands as they run.
ghost use Rattle.std.specs.Prelude.{◌≡◌, ◌+◌, ◌<◌, ◌≤◌, ◌^◌, ◌++◌, ◌∷◌, [], IfOk, OnErr, OnOk, length};
ghost use Rattle.eco_stages.specs.Outcomes.{all_done};

use crate::iter::Iter;
use eco_ids::Refusal;
use std::alloc::{AllocError, Global};
use std::marker::Model;

/// A command that was refused, and how many were done between the refused one before it and this one.
#[derive(Clone, Copy, Debug)]
pub(crate) struct Refused {
    pub(crate) done: usize,
    pub(crate) refusal: Refusal,
}

/// The outcomes of commands, in the order in which they ran. Most commands are done, and nothing is written for those but a number.
/// So the memory that is kept for all of them is only touched for refused ones. A contract sees the list of them,
/// and for how many there is room.
#[derive(Debug)]
pub struct Outcomes {
    pub(crate) refused: Vec<Refused>,
    pub(crate) done: usize,
    pub(crate) count: usize,
}

// By hand, so that dropping it is one call: a derived drop is proved anew at each early return of whoever holds it.
impl Drop for Outcomes {
    fn drop(self) {
        let Outcomes {
            refused: _,
            done: _,
            count: _,
        } = self;
    }
}

impl Model for Outcomes {
    ghost use Rattle.std.specs.Prelude.{◌≡◌, length, vec_capacity};
    ghost use Rattle.eco_stages.specs.Outcomes.{Written, outcomes_of};

    ghost Value = { Written };

    ghost view = { λ o.
        record { outcomes = outcomes_of o.refused.items o.done; room = vec_capacity o.refused } };

    ghost invariant = { λ o. o.count ≡ length (outcomes_of o.refused.items o.done) };
}

impl Outcomes {
    /// No outcome, and room for so many. An `Err` comes where memory is refused.
    pub fn with_room(alloc: Global, count: usize) -> Result<Outcomes, AllocError>
        ensures none { IfOk result (λ o. o.outcomes ≡ []) }
        ensures room { IfOk result (λ o. count ≤ o.room) }
        ensures small { OnOk result (count < 2 ^ 63) }
        ensures err { OnErr result (0 < count) }
    {
        Ok(Outcomes {
            refused: Vec::with_capacity(alloc, count)?,
            done: 0,
            count: 0,
        })
    }

    /// The outcome comes last, in room that is there. It takes no memory.
    #[inline(always)]
    pub fn push(&mut self, outcome: Result<(), Refusal>)
        requires { length self.old.outcomes < self.old.room }
        ensures written { self.new.outcomes ≡ self.old.outcomes ++ outcome ∷ [] }
        ensures room { self.new.room ≡ self.old.room }
    {
        match outcome {
            Ok(()) => self.done += 1,
            Err(refusal) => {
                let done = self.done;
                self.refused.push_reserved(Refused { done, refusal });
                self.done = 0;
            }
        }
        self.count += 1;
    }

    /// As many outcomes come last as sets were done, in room that is there. It takes no memory.
    #[inline]
    pub fn push_done(&mut self, count: usize)
        requires { length self.old.outcomes + count ≤ self.old.room }
        ensures written { self.new.outcomes ≡ self.old.outcomes ++ all_done count }
        ensures room { self.new.room ≡ self.old.room }
    {
        self.done += count;
        self.count += count;
    }

    /// Each of them, in their order.
    pub fn iter(&self) -> Iter<'_>
        ensures { result ≡ self.now.outcomes }
    {
        Iter::of(self.refused.as_slice(), self.done)
    }

    /// How many they are.
    pub fn len(&self) -> usize
        ensures { result ≡ length self.now.outcomes }
    {
        self.count
    }

    /// The same outcomes once more. An `Err` comes where memory is refused.
    pub fn try_copy(&self) -> Result<Outcomes, AllocError>
        ensures { IfOk result (λ copy. copy.outcomes ≡ self.now.outcomes) }
    {
        let refused = Vec::from_slice(*self.refused.allocator(), self.refused.as_slice())?;
        Ok(Outcomes {
            refused,
            done: self.done,
            count: self.count,
        })
    }
}
