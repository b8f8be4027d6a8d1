//! What a worker is given.
ghost use Rattle.std.specs.Prelude.{◌≡◌, vec_len, IfOk};
ghost use Rattle.std.specs.List.{All};
ghost use Rattle.eco_workers.specs.Rounds.{IsNewSeatOf};
ghost use Rattle.eco_workers.specs.Workers.{IsNewJobOf};

use crate::round::Round;
use crate::seat::Seat;
use eco_stages::Stage;
use std::alloc::{AllocError, Global};

// Its seat, and stages whose memory its pieces take first.
#[derive(Drop)]
pub(crate) struct Job {
    pub(crate) seat: Seat,
    pub(crate) spare: Vec<Stage>,
}

// A job for each seat of a round, with an even share of the spare stages that its pieces can take.
pub(crate) fn share_out(
    alloc: Global,
    round: &Round,
    mut spare: Vec<Stage>,
    mut seats: Vec<Seat>,
) -> Result<Vec<Job>, AllocError>
    requires { All (IsNewSeatOf round.now) seats.items }
    ensures { IfOk result (λ v. (vec_len v ≡ vec_len seats) × All (IsNewJobOf round.now) v.items) }
{
    let taken = spare.len().min(round.pieces() as usize);
    let share = taken.div_ceil(seats.len().max(1));
    let mut jobs = Vec::with_capacity(alloc, seats.len())?;
    while let Some(seat) = seats.pop() {
        let rest = spare.len().saturating_sub(share);
        let own = spare.split_off(rest)?;
        jobs.push_reserved(Job { seat, spare: own });
    }
    Ok(jobs)
}
