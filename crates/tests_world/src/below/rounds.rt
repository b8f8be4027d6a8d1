//! Rounds: seats claim pieces and draw handles, in turn and side by side.
ghost use Rattle.std.specs.Prelude.{◌≡◌};
ghost use Rattle.eco_workers.specs.Rounds.{IsNewSeatOf, IsSeatOf};

use eco_ids::{Entity, Refusal};
use eco_workers::{Round, Seat};
use std::alloc::{AllocError, Global};
use std::sync::atomic::{AtomicU64, Ordering};
use std::thread;
use std::thread::Threads;

// The fresh handle of an index.
fn fresh(index: u32) -> Entity {
    Entity {
        index,
        generation: 0,
    }
}

// Whether two seats claim three pieces in turn, and the second then finds none, twice.
fn claim_in_turn(round: &Round, a: &mut Seat, b: &mut Seat) -> bool
    requires { IsSeatOf round.now a.old × IsSeatOf round.now b.old }
    ensures { IsSeatOf round.now a.new × IsSeatOf round.now b.new }
{
    let claimed = [
        round.claim(a),
        round.claim(b),
        round.claim(a),
        round.claim(b),
        round.claim(b),
    ];
    claimed == [Some(0), Some(1), Some(2), None, None]
}

// Whether they draw two handles in turn, and then find no more.
fn draw_in_turn(round: &Round, a: &mut Seat, b: &mut Seat) -> bool
    requires { IsSeatOf round.now a.old × IsSeatOf round.now b.old }
    ensures { IsSeatOf round.now a.new × IsSeatOf round.now b.new }
{
    let drawn = [round.draw(a), round.draw(b), round.draw(a), round.draw(b)];
    let none = Err(Refusal::NoMoreIds);
    drawn == [Ok(fresh(10)), Ok(fresh(11)), none, none]
}

// Whether they do both.
fn take_in_turn(round: &Round, a: &mut Seat, b: &mut Seat) -> bool
    requires { IsSeatOf round.now a.old × IsSeatOf round.now b.old }
    ensures { IsSeatOf round.now a.new × IsSeatOf round.now b.new }
{
    claim_in_turn(round, a, b) && draw_in_turn(round, a, b)
}

#[test]
fn two_seats_in_turn(rt: HostRuntime) {
    let Ok((round, mut seats)) = Round::open(rt.alloc(), 10, 12, 3, 2) else {
        panic!(rt; "no memory")
    };
    let (Some(mut b), Some(mut a)) = (seats.pop(), seats.pop()) else {
        panic!(rt; "two seats")
    };
    assert!(rt; take_in_turn(&round, &mut a, &mut b));
    assert!(rt; seats.push(a).is_ok());
    assert!(rt; seats.push(b).is_ok());
    assert!(rt; round.close(seats) == (3, 2));
}

// Counts what a seat claims until it is refused, of at most a thousand pieces.
fn claim_all(round: &Round, counts: &[AtomicU64], seat: Seat)
    requires { IsNewSeatOf round.now seat }
{
    let mut seat = seat;
    for _ in 0..1000 {
        let Some(number) = round.claim(&mut seat) else {
            break;
        };
        if let Some(count) = counts.get(number as usize) {
            count.fetch_add(1, Ordering::SeqCst);
        }
    }
}

// Counts what eight threads claim of a thousand pieces, each until it is refused.
fn claim_by_eight<R: Threads + Sync>(
    rt: &R,
    alloc: Global,
    counts: &[AtomicU64],
) -> Result<(), Refusal> {
    let (round, seats) = Round::open(alloc, 0, 0, 1000, 8)?;
    thread::map_vec(
        rt,
        seats,
        &|seat: Seat|
            requires { IsNewSeatOf round seat }
        { claim_all(&round, counts, seat) },
    )?;
    Ok(())
}

// A thousand counts of nothing.
fn zeros(alloc: Global) -> Result<Vec<AtomicU64>, AllocError> {
    let mut zeros = Vec::with_capacity(alloc, 1000)?;
    for _ in 0..1000 {
        zeros.push(AtomicU64::new(0))?;
    }
    Ok(zeros)
}

// Whether each count is one.
fn are_ones(counts: &[AtomicU64]) -> bool {
    for count in counts {
        if count.load(Ordering::SeqCst) != 1 {
            return false;
        }
    }
    counts.len() == 1000
}

// Whether each of a thousand pieces is claimed once.
fn claim_each_once<R: Threads + Sync>(rt: &R, alloc: Global) -> bool {
    match zeros(alloc) {
        Ok(counts) => claim_by_eight(rt, alloc, &counts).is_ok() && are_ones(&counts),
        Err(_) => false,
    }
}

#[test]
fn eight_threads_claim_each_piece_once(rt: HostRuntime) {
    assert!(rt; claim_each_once(&rt, rt.alloc()));
}
