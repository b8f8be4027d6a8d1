//! The outcomes of commands, one after another.
ghost use Rattle.std.specs.Prelude.{◌≡◌, length};
ghost use Rattle.std.specs.Iterator.{at_most};
ghost use Rattle.std.specs.Map.Iter.{TakesFirst};
ghost use Rattle.std.specs.Slice.Iter.{iter_rest};
ghost use Rattle.eco_ids.specs.Outcome.{is_out_of_memory};
ghost use Rattle.eco_stages.specs.Outcomes.{alike_in_memory, left, outcomes_of};

use crate::outcomes::Refused;
use eco_ids::Refusal;
use std::marker::Model;
use std::slice;

/// The outcomes that are left: each `Ok`, or why the command was refused. A contract sees the list of them.
#[derive(Debug, Drop)]
pub struct Iter<'a> {
    // So many come first, all done.
    done: usize,
    // Then this one, if any is refused, and only then what stands behind it.
    refusal: Option<Refusal>,
    rest: slice::Iter<'a, Refused>,
    // So many are done behind the last that is refused.
    last: usize,
}

impl<'a> Model for Iter<'a> {
    ghost use Rattle.std.specs.Slice.Iter.{iter_rest};
    ghost use Rattle.eco_stages.specs.Outcomes.{Outcomes, left};

    ghost Value = { Outcomes };

    ghost view = { λ i. left i.done i.refusal (iter_rest i.rest) i.last };
}

impl<'a> Iter<'a> {
    /// All that these refused ones tell, and so many done ones behind them.
    pub(crate) fn of(refused: &'a [Refused], last: usize) -> Iter<'a>
        ensures { result ≡ outcomes_of refused.now last }
    {
        let mut rest = refused.iter();
        let (done, refusal) = take_next(&mut rest, last);
        Iter {
            done,
            refusal,
            rest,
            last,
        }
    }
}

// How many are done before the next that is refused, and that one; the last done ones, where none is.
fn take_next(rest: &mut slice::Iter<'_, Refused>, last: usize) -> (usize, Option<Refusal>)
    ensures { left result.0 result.1 (iter_rest rest.new) last ≡ outcomes_of (iter_rest rest.old) last }
{
    match rest.next() {
        Some(next) => (next.done, Some(next.refusal)),
        None => (last, None),
    }
}

// Whether memory was wanting.
fn wants_memory(outcome: &Result<(), Refusal>) -> bool
    ensures { result ≡ is_out_of_memory outcome.now }
{
    match outcome {
        Ok(()) => false,
        Err(Refusal::OutOfMemory) => true,
        Err(_) => false,
    }
}

impl Iter<'_> {
    /// Whether both have the same number of outcomes left, and memory was wanting for the same commands.
    pub(crate) fn is_alike(self, other: Iter<'_>) -> bool
        ensures { result ≡ alike_in_memory self.entry other.entry }
    {
        let (mut own, mut others) = (self, other);
        while let Some(outcome) = own.next() {
            match others.next() {
                Some(other) if wants_memory(&other) == wants_memory(&outcome) => {}
                _ => return false,
            }
        }
        others.next().is_none()
    }
}

impl<'a> Iterator for Iter<'a> {
    type Item = Result<(), Refusal>;

    ghost next_gives = { TakesFirst (λ x. x) };

    ghost remaining = { λ s. at_most (length s) };

    #[inline]
    fn next(&mut self) -> Option<Result<(), Refusal>> {
        if self.done > 0 {
            self.done -= 1;
            return Some(Ok(()));
        }
        let refusal = self.refusal?;
        (self.done, self.refusal) = take_next(&mut self.rest, self.last);
        Some(Err(refusal))
    }
}
