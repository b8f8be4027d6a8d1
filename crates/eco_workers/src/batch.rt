//! A batch: its pieces are shared among workers, and their stages put in order.
ghost use Rattle.std.specs.Prelude.{◌≡◌, ℕ, ◌+◌, ◌<◌, ◌≤◌, List, true, [], ◌∷◌, ◌++◌, IfOk, IfErr, IfNone, IfSome, vec_len};
ghost use Rattle.std.specs.Prelude.{length, OnOk};
ghost use Rattle.std.specs.List.{All, Contains};
ghost use Rattle.eco_ids.specs.declared.refusal.Refusal.TheVariants.{NoMoreIds, OutOfMemory};
ghost use Rattle.eco_workers.specs.Rounds.{base_of, is_done, limit_of, piece_count, seats_of, IsSeatOf};
ghost use Rattle.eco_workers.specs.declared.end.End.{End};
ghost use Rattle.eco_workers.specs.declared.end.End.TheVariants.{Done, Refused};
ghost use Rattle.eco_stages.specs.Taking.{by_index, IsStopped};
ghost use Rattle.eco_workers.specs.Entries.{Entry, IsGathered, IsShared, IsFoundShort};
ghost use Rattle.eco_workers.specs.Workers.{IsNewJobOf, IsWorked, IsStop, IsFound, ends_of};
ghost use Rattle.eco_workers.specs.Batches.{IsBatch, IsOut};

use crate::collected::Collected;
use crate::end::End;
use crate::job::{Job, share_out};
use crate::order::place;
use crate::piece::Piece;
use crate::round::Round;
use crate::seat::Seat;
use crate::worked::Worked;
use crate::worker::work;
use eco_ids::Refusal;
use eco_stages::Stage;
use std::alloc::{AllocError, Global};
use std::thread;
use std::thread::Threads;

// How many pieces a batch may have.
const MOST: usize = 16_777_216;

/// How many pieces a batch has. More than 16,777,216 are refused, with `OutOfMemory`.
pub fn count_pieces<P>(pieces: &[P]) -> Result<u32, Refusal>
    ensures count { IfOk result (λ n. (n ≡ length pieces.now) × (n ≤ 16777216)) }
    ensures many { IfErr result (λ _. 16777216 < length pieces.now) }
    ensures why { IfErr result (λ e. e ≡ OutOfMemory) }
{
    if pieces.len() > MOST {
        return Err(Refusal::OutOfMemory);
    }
    Ok(pieces.len() as u32)
}

// A worker for each job, of which one runs on the calling thread. Halves of the jobs are handed to threads, which halve them
// again.
fn work_by_halves<P: Piece + Sync, R: Threads + Sync>(
    rt: &R,
    alloc: Global,
    round: &Round,
    pieces: &[P],
    jobs: Vec<Job>,
) -> Result<Vec<Worked>, AllocError>
    requires jobs { All (IsNewJobOf round.now) jobs.items }
    requires count { piece_count round.now ≡ length pieces.now }
    ensures { IfOk result (λ v. (vec_len v ≡ vec_len jobs)
        × All (IsWorked (by_index P.commands) (by_index P.taken) pieces.now round.now) v.items) }
{
    thread::map_vec(
        rt,
        jobs,
        &|job: Job| -> Worked
            requires { IsNewJobOf round.now job × (piece_count round.now ≡ length pieces.now) }
            ensures { IsWorked (by_index P.commands) (by_index P.taken) pieces.entry.now
                round.entry.now result }
        { work(alloc, round, pieces, job) },
    )
}

// A worker for the last job in a thread of its own, and one for each other job, of which one runs on the calling thread.
fn work_last_and_others<P: Piece + Sync, R: Threads + Sync>(
    rt: &R,
    alloc: Global,
    round: &Round,
    pieces: &[P],
    last: Job,
    others: Vec<Job>,
) -> (Worked, Result<Vec<Worked>, AllocError>)
    requires last { IsNewJobOf round.now last }
    requires others { All (IsNewJobOf round.now) others.items }
    requires count { piece_count round.now ≡ length pieces.now }
    ensures last { IsWorked (by_index P.commands) (by_index P.taken) pieces.now round.now result.0 }
    ensures others { IfOk result.1 (λ v. (vec_len v ≡ vec_len others)
        × All (IsWorked (by_index P.commands) (by_index P.taken) pieces.now round.now) v.items) }
{
    thread::join(
        rt,
        move || -> Worked
            requires { IsNewJobOf round.now last × (piece_count round.now ≡ length pieces.now) }
            ensures { IsWorked (by_index P.commands) (by_index P.taken) pieces.entry.now
                round.entry.now result }
        { work(alloc, round, pieces, last) },
        move || -> Result<Vec<Worked>, AllocError>
            requires { All (IsNewJobOf round.now) others.items × (piece_count round.now ≡ length pieces.now) }
            ensures { IfOk result (λ v. (vec_len v ≡ vec_len others)
                × All (IsWorked (by_index P.commands) (by_index P.taken) pieces.entry.now round.entry.now)
                v.items) }
        { work_by_halves(rt, alloc, round, pieces, others) },
    )
}

// A worker for each job, of which one runs on the calling thread. That starts the thread of the last job before those of the
// others, so of up to four it starts each itself: threads that start others at one moment may share a processor for so long as
// a batch takes.
fn work_all<P: Piece + Sync, R: Threads + Sync>(
    rt: &R,
    alloc: Global,
    round: &Round,
    pieces: &[P],
    mut jobs: Vec<Job>,
) -> Result<Vec<Worked>, AllocError>
    requires jobs { All (IsNewJobOf round.now) jobs.items }
    requires count { piece_count round.now ≡ length pieces.now }
    ensures { IfOk result (λ v. (vec_len v ≡ vec_len jobs)
        × All (IsWorked (by_index P.commands) (by_index P.taken) pieces.now round.now) v.items) }
{
    if jobs.len() < 2 {
        return work_by_halves(rt, alloc, round, pieces, jobs);
    }
    let last = jobs.pop().unwrap();
    let (own, others) = work_last_and_others(rt, alloc, round, pieces, last, jobs);
    let mut worked = others?;
    worked.push(own)?;
    Ok(worked)
}

// What was found of the ends, after one more: the least refused piece with its refusal, and whether a worker had no memory.
fn found(least: Option<(u32, Refusal)>, full: bool, end: End) -> (Option<(u32, Refusal)>, bool)
    ensures { (ends : List End) → IsFound least full ends → IsFound result.0 result.1 (ends ++ end ∷ []) }
{
    match end {
        End::Done => (least, full),
        End::NoMemory => (least, true),
        End::Refused(number, refusal) => match least {
            None => (Some((number, refusal)), full),
            Some((before, _)) => {
                if number < before {
                    (Some((number, refusal)), full)
                } else {
                    (least, full)
                }
            }
        },
    }
}

// Why the batch stops, if it does: the refusal of the least piece that was refused, or else want of memory for a piece.
fn first_refusal(worked: &[Worked]) -> Option<Refusal>
    ensures none { IfNone result (All (λ w. w.end ≡ Done) worked.now) }
    ensures some { IfSome result (λ e. IsStop worked.now e) }
{
    let mut least: Option<(u32, Refusal)> = None;
    let mut full = false;
    for one in worked {
        (least, full) = found(least, full, one.end);
    }
    match least {
        Some((_, refusal)) => Some(refusal),
        None if full => Some(Refusal::OutOfMemory),
        None => None,
    }
}

// All seats of workers of whom some stopped.
fn all_seats<P: Piece>(
    round: &Round,
    pieces: &[P],
    mut worked: Vec<Worked>,
    mut seats: Vec<Seat>,
) -> Vec<Seat>
    requires worked { All (IsWorked (by_index P.commands) (by_index P.taken) pieces.now round.now)
        worked.items }
    requires seats { seats.items ≡ [] }
    requires room { vec_len worked ≤ seats.cap }
    ensures seats { (vec_len result ≡ vec_len worked) × All (IsSeatOf round.now) result.items }
    ensures shares { (shares : List Entry)
        × IsShared (by_index P.commands) (by_index P.taken) pieces.now result.items shares
        × ((n : ℕ) → Contains (ends_of worked.items) (Refused n NoMoreIds)
        → IsFoundShort (by_index P.commands) (by_index P.taken) pieces.now result.items shares) }
{
    while let Some(one) = worked.pop() {
        let Worked {
            seat,
            pieces: _,
            end: _,
        } = one;
        seats.push_reserved(seat);
    }
    seats
}

// The seats, and what was collected on them.
fn gather<P: Piece>(
    alloc: Global,
    round: &Round,
    pieces: &[P],
    mut worked: Vec<Worked>,
) -> Result<(Vec<Seat>, Vec<Collected>), AllocError>
    requires worked { All (IsWorked (by_index P.commands) (by_index P.taken) pieces.now round.now)
        worked.items }
    requires done { All (λ w. w.end ≡ Done) worked.items }
    ensures seats { IfOk result (λ r. (vec_len r.0 ≡ vec_len worked) × All (IsSeatOf round.now) r.0.items
        × All (λ s. is_done s ≡ true) r.0.items) }
    ensures log { IfOk result (λ r. (log : List Entry)
        × IsGathered (by_index P.commands) (by_index P.taken) pieces.now r.0.items r.1.items log) }
{
    let mut seats = Vec::with_capacity(alloc, worked.len())?;
    let mut all: Vec<Collected> = Vec::new(alloc);
    while let Some(one) = worked.pop() {
        let Worked {
            seat,
            pieces: mut collected,
            end: _,
        } = one;
        all.append(&mut collected)?;
        seats.push_reserved(seat);
    }
    Ok((seats, all))
}

// The stages of workers that did all that there was to do, in the order of the pieces, and how many handles were drawn.
fn collect<P: Piece>(
    alloc: Global,
    round: Round,
    pieces: &[P],
    worked: Vec<Worked>,
) -> Result<(Vec<Stage>, u32), AllocError>
    requires count { piece_count round ≡ length pieces.now }
    requires all { (vec_len worked ≡ seats_of round) × (0 < seats_of round) }
    requires worked { All (IsWorked (by_index P.commands) (by_index P.taken) pieces.now round) worked.items }
    requires done { All (λ w. w.end ≡ Done) worked.items }
    ensures batch { IfOk result (λ r. IsBatch (by_index P.commands) (by_index P.taken) (seats_of round)
        pieces.now (base_of round) r.1 r.0.items) }
    ensures most { IfOk result (λ r. base_of round + r.1 ≤ limit_of round) }
{
    let count = round.pieces();
    let (seats, collected) = gather(alloc, &round, pieces, worked)?;
    let (_, drawn) = round.close(seats);
    let stages = place(alloc, count, collected)?;
    Ok((stages, drawn))
}

// What a batch answers once all workers have ended. The room is for the seats of those of whom some stopped.
fn finish<P: Piece>(
    alloc: Global,
    round: Round,
    pieces: &[P],
    worked: Vec<Worked>,
    room: Vec<Seat>,
) -> Result<(Vec<Stage>, u32), Refusal>
    requires count { piece_count round ≡ length pieces.now }
    requires all { (vec_len worked ≡ seats_of round) × (0 < seats_of round) }
    requires worked { All (IsWorked (by_index P.commands) (by_index P.taken) pieces.now round) worked.items }
    requires room { (room.items ≡ []) × (vec_len worked ≤ room.cap) }
    ensures batch { IfOk result (λ r. IsBatch (by_index P.commands) (by_index P.taken) (seats_of round)
        pieces.now (base_of round) r.1 r.0.items) }
    ensures most { IfOk result (λ r. base_of round + r.1 ≤ limit_of round) }
    ensures why { IfErr result (λ e. IsStopped e) }
    ensures out { IfErr result (λ e. e ≡ NoMoreIds
        → IsOut (by_index P.commands) (by_index P.taken) pieces.now (base_of round) (limit_of round)) }
{
    match first_refusal(worked.as_slice()) {
        Some(refusal) => {
            let seats = all_seats(&round, pieces, worked, room);
            round.close(seats);
            Err(refusal)
        }
        None => Ok(collect(alloc, round, pieces, worked)?),
    }
}

// A round of so many seats, and a job for each.
fn prepare(
    alloc: Global,
    spare: Vec<Stage>,
    base: u32,
    limit: u32,
    count: u32,
    seats: u32,
) -> Result<(Round, Vec<Job>), Refusal>
    requires indices { (base ≤ limit) × (limit ≤ 1048576) }
    requires pieces { count ≤ 16777216 }
    requires seats { (1 ≤ seats) × (seats ≤ 64) }
    ensures work { IfOk result (λ r. (piece_count r.0 ≡ count) × (seats_of r.0 ≡ seats)) }
    ensures indices { IfOk result (λ r. (base_of r.0 ≡ base) × (limit_of r.0 ≡ limit)) }
    ensures jobs { IfOk result (λ r. (vec_len r.1 ≡ seats) × All (IsNewJobOf r.0) r.1.items) }
    ensures err { IfErr result (λ e. e ≡ OutOfMemory) }
{
    let (round, seats) = Round::open(alloc, base, limit, count, seats)?;
    let jobs = share_out(alloc, &round, spare, seats)?;
    Ok((round, jobs))
}

/// Records the pieces of a batch, by at most so many threads, 1 to 64, the caller's among them; a thread that can't be started is
/// done without, and a batch of few pieces starts few: none for one piece. Fresh handles are drawn from `base` on, to below
/// `limit`, which is at most 1,048,576. Answers the stages in the order of the pieces, and how many handles were drawn. The memory
/// of the spare stages serves again: what they hold goes.
///
/// Refused with `NoMoreIds` where pieces take more handles than there are, and with `OutOfMemory` where memory is refused or
/// there are more than 16,777,216 pieces: with the refusal of the least piece that was refused, where one was.
pub fn run_batch<P: Piece + Sync, R: Threads + Sync>(
    rt: &R,
    alloc: Global,
    spare: Vec<Stage>,
    pieces: &[P],
    workers: u32,
    base: u32,
    limit: u32,
) -> Result<(Vec<Stage>, u32), Refusal>
    requires indices { (base ≤ limit) × (limit ≤ 1048576) }
    requires workers { (1 ≤ workers) × (workers ≤ 64) }
    ensures batch { IfOk result (λ r. IsBatch (by_index P.commands) (by_index P.taken) workers pieces.now base
        r.1 r.0.items) }
    ensures most { IfOk result (λ r. base + r.1 ≤ limit) }
    ensures why { IfErr result (λ e. IsStopped e) }
    ensures out { IfErr result (λ e. e ≡ NoMoreIds
        → IsOut (by_index P.commands) (by_index P.taken) pieces.now base limit) }
    ensures few { OnOk result (length pieces.now ≤ 16777216) }
    ensures many { IfErr result (λ e. 16777216 < length pieces.now → e ≡ OutOfMemory) }
{
    let count = count_pieces(pieces)?;
    let seats = workers.min(count).max(1);
    let room = Vec::with_capacity(alloc, seats as usize)?;
    let (round, jobs) = prepare(alloc, spare, base, limit, count, seats)?;
    let worked = work_all(rt, alloc, &round, pieces, jobs)?;
    finish(alloc, round, pieces, worked, room)
}
