//! A round: pieces to claim and fresh indices to draw.
ghost use Rattle.std.specs.Prelude.{◌≡◌, ◌≢◌, ℕ, ◌≤◌, ◌<◌, ◌^◌, ◌+◌, ◌-◌, [], ◌∷◌, ◌++◌, true, false, length, vec_len};
ghost use Rattle.std.specs.Prelude.{min, IfOk, IfErr};
ghost use Rattle.std.specs.List.{All, flat_map};
ghost use Rattle.eco_ids.specs.declared.refusal.Refusal.TheVariants.{OutOfMemory};
ghost use Rattle.eco_tickets.specs.Counting.{times, once, ascends};

use crate::seat::Seat;
use eco_ids::{Entity, Refusal};
use eco_tickets::{Hand, Span, Word, join_hands, settle, split_hand};
use std::alloc::{AllocError, Global};

/// Pieces to claim, from 0, and fresh indices to draw, from a base to below a limit. Threads share it, and each has a seat of
/// its own: a claim is one atomic addition, and so is a draw, and no thread ever waits for another.
pub struct Round {
    claims: Word,
    draws: Word,
    pieces: u32,
    base: u32,
    limit: u32,
    seats: u32,
    ghost one_word: { (claims.shared.table_id.words ≡ 1) × (draws.shared.table_id.words ≡ 1) },
    ghost no_slot: { (claims.shared.table_id.slots ≡ 0) × (draws.shared.table_id.slots ≡ 0) },
    ghost claims_to: { (claims.shared.key.base ≡ 0) × (claims.shared.key.bound ≡ pieces)
        × (claims.shared.key.parts ≡ seats) },
    ghost draws_to: { (draws.shared.key.base ≡ base) × (draws.shared.key.bound ≡ limit)
        × (draws.shared.key.parts ≡ seats) },
    ghost ordered: { (base ≤ limit) × (0 < seats) },
}

// By hand, so that dropping it is one call: a derived drop is proved anew at each early return of whoever holds it.
impl Drop for Round {
    fn drop(self) {
        let Round {
            claims: _,
            draws: _,
            pieces: _,
            base: _,
            limit: _,
            seats: _,
        } = self;
    }
}

impl Round {
    ghost use Rattle.eco_workers.specs.Rounds.{claimed, drawn, IsSeatOf, IsNewSeatOf, piece_count, base_of, limit_of, seats_of};
    ghost use Rattle.eco_workers.specs.Rounds.{done_count, dry_count, ClaimsPiece, Draws, Alone};
    ghost use Rattle.eco_tickets.specs.Counting.{less_one, share};

    /// Opens a round of so many pieces, from 0, and of the indices from `base` to below `limit`, for so many seats, of which each
    /// claimed and drew nothing yet. There are at most 1,048,576 indices, at most 16,777,216 pieces, and 1 to 64 seats. An
    /// `Err` is `OutOfMemory`, where memory is refused.
    pub fn open(
        alloc: Global,
        base: u32,
        limit: u32,
        pieces: u32,
        seats: u32,
    ) -> Result<(Round, Vec<Seat>), Refusal>
        requires indices { (base ≤ limit) × (limit ≤ 1048576) }
        requires pieces { pieces ≤ 16777216 }
        requires seats { (1 ≤ seats) × (seats ≤ 64) }
        ensures work { IfOk result (λ r. (piece_count r.0 ≡ pieces) × (seats_of r.0 ≡ seats)) }
        ensures indices { IfOk result (λ r. (base_of r.0 ≡ base) × (limit_of r.0 ≡ limit)) }
        ensures seats { IfOk result (λ r. (vec_len r.1 ≡ seats) × All (IsNewSeatOf r.0) r.1.items) }
        ensures err { IfErr result (λ e. e ≡ OutOfMemory) }
    {
        let parts = u64::from(seats);
        let (claims, claim) = Word::of_words(
            alloc,
            &[0],
            &Span {
                base: 0,
                bound: u64::from(pieces),
                parts,
            },
        )?;
        let (draws, draw) = Word::of_words(
            alloc,
            &[u64::from(base)],
            &Span {
                base: u64::from(base),
                bound: u64::from(limit),
                parts,
            },
        )?;
        let round = Round {
            claims,
            draws,
            pieces,
            base,
            limit,
            seats,
        };
        let list = round.part_all(alloc, claim, draw)?;
        Ok((round, list))
    }

    /// How many pieces there are to claim.
    pub fn pieces(&self) -> u32
        ensures { result ≡ piece_count self.now }
    {
        self.pieces
    }

    /// Claims the next piece for a seat of this round; `None` where all are claimed. It is one atomic addition, unless the
    /// seat was refused a piece before: then it is none, and `None` again.
    pub fn claim(&self, seat: &mut Seat) -> Option<u32>
        requires { IsSeatOf self.now seat.old }
        ensures seat { IsSeatOf self.now seat.new }
        ensures event { ClaimsPiece self.now seat.old result seat.new }
        ensures other { seat.new.draw ≡ seat.old.draw }
        ensures ascending { ascends (claimed seat.new) ≡ true }
    {
        match seat.claim.take(&self.claims, u64::from(self.pieces)) {
            Some(number) => Some(number as u32),
            None => None,
        }
    }

    /// Draws the next fresh index for a seat of this round, as the handle of generation 0; refused with `NoMoreIds` where all
    /// indices below the limit are drawn. It is one atomic addition, unless the seat was refused an index before: then it is
    /// none, and refused again.
    pub fn draw(&self, seat: &mut Seat) -> Result<Entity, Refusal>
        requires { IsSeatOf self.now seat.old }
        ensures seat { IsSeatOf self.now seat.new }
        ensures event { Draws self.now seat.old result seat.new }
        ensures other { seat.new.claim ≡ seat.old.claim }
        ensures ascending { ascends (drawn seat.new) ≡ true }
    {
        match seat.draw.take(&self.draws, u64::from(self.limit)) {
            Some(number) => Ok(Entity {
                index: number as u32,
                generation: 0,
            }),
            None => Err(Refusal::NoMoreIds),
        }
    }

    /// Ends the round, given all its seats, and answers how many pieces were claimed and how many indices were drawn. The
    /// seats' lists together hold each of those once, and none is left out. Where a seat was refused a piece all are claimed,
    /// and where one was refused an index all are drawn. The lists of a seat alone ascend without a gap.
    pub fn close(self, seats: Vec<Seat>) -> (u32, u32)
        requires all { (vec_len seats ≡ seats_of self) × All (IsSeatOf self) seats.items }
        ensures claimed { (x : ℕ) → times x (flat_map claimed seats.items) ≡ once 0 result.0 x }
        ensures drawn { (x : ℕ) → times x (flat_map drawn seats.items)
            ≡ once (base_of self) (base_of self + result.1) x }
        ensures most { (result.0 ≤ piece_count self) × (base_of self + result.1 ≤ limit_of self) }
        ensures done { 0 < done_count seats.items → result.0 ≡ piece_count self }
        ensures dry { 0 < dry_count seats.items → base_of self + result.1 ≡ limit_of self }
        ensures alone { Alone (base_of self) seats.items result.0 result.1 }
    {
        let (claim, draw) = self.gather(seats);
        let Round {
            claims,
            draws,
            pieces,
            base,
            limit,
            seats: _,
        } = self;
        let piece = settle(claims, claim);
        let index = settle(draws, draw);
        let piece = piece.min(u64::from(pieces));
        let index = index.min(u64::from(limit));
        (piece as u32, (index - u64::from(base)) as u32)
    }

    // The seats of a new round.
    fn part_all(&self, alloc: Global, claim: Hand, draw: Hand) -> Result<Vec<Seat>, AllocError>
        requires claim_of { claim.table_id ≡ self.now.claims.shared.table_id }
        requires claim { claim.me ≡ (share self.now.pieces self.now.seats [] 0, []) }
        requires draw_of { draw.table_id ≡ self.now.draws.shared.table_id }
        requires draw { draw.me ≡ (share self.now.limit self.now.seats [] 0, []) }
        ensures { IfOk result (λ v. (vec_len v ≡ seats_of self.now) × All (IsNewSeatOf self.now) v.items) }
    {
        let mut claim = claim;
        let mut draw = draw;
        let seats = self.seats;
        let mut list = Vec::with_capacity(alloc, seats as usize)?;
        for _k in 1..seats {
            list.push_reserved(self.part(&mut claim, &mut draw));
        }
        list.push_reserved(Seat::new(claim, draw));
        Ok(list)
    }

    // Cuts a new seat off.
    fn part(&self, claim: &mut Hand, draw: &mut Hand) -> Seat
        requires claim { (claim.old.table_id ≡ self.now.claims.shared.table_id) × (1 < claim.old.me.0.parts)
            × (claim.old.me.0.refusals ≡ 0) × (claim.old.me.0.bound ≡ self.now.pieces) }
        requires draw { (draw.old.table_id ≡ self.now.draws.shared.table_id) × (1 < draw.old.me.0.parts)
            × (draw.old.me.0.refusals ≡ 0) × (draw.old.me.0.bound ≡ self.now.limit) }
        ensures seat { IsNewSeatOf self.now result }
        ensures claim { (claim.new.table_id ≡ claim.old.table_id)
            × (claim.new.me ≡ (less_one claim.old.me.0, claim.old.me.1)) }
        ensures draw { (draw.new.table_id ≡ draw.old.table_id)
            × (draw.new.me ≡ (less_one draw.old.me.0, draw.old.me.1)) }
    {
        let one = split_hand(&self.claims, claim);
        let other = split_hand(&self.draws, draw);
        Seat::new(one, other)
    }

    // Joins all seats: what they were given stands in their order.
    fn gather(&self, mut seats: Vec<Seat>) -> (Hand, Hand)
        requires all { (vec_len seats ≡ seats_of self.now) × All (IsSeatOf self.now) seats.items }
        ensures claim { (result.0.table_id ≡ self.now.claims.shared.table_id)
            × (result.0.me.0.parts ≡ self.now.seats) }
        ensures draw { (result.1.table_id ≡ self.now.draws.shared.table_id)
            × (result.1.me.0.parts ≡ self.now.seats) }
        ensures claimed { result.0.me.0.numbers ≡ flat_map claimed seats.items }
        ensures drawn { result.1.me.0.numbers ≡ flat_map drawn seats.items }
        ensures refusals { (result.0.me.0.refusals ≡ done_count seats.items)
            × (result.1.me.0.refusals ≡ dry_count seats.items) }
    {
        let Some(seat) = seats.pop() else {
            unreachable!()
        };
        let (mut claim, mut draw) = seat.into_hands();
        while let Some(seat) = seats.pop() {
            let (one, other) = seat.into_hands();
            claim = join_hands(&self.claims, one, claim);
            draw = join_hands(&self.draws, other, draw);
        }
        (claim, draw)
    }
}
