//! One thread's part in a round.
ghost use Rattle.std.specs.Prelude.{◌≡◌, false, [], cond};

use eco_tickets::{Hand, Ticket};

/// One thread's part in a round: it remembers whether it was refused a piece, and whether an index. Contracts see also what it
/// has claimed and drawn, each list in order; nothing of these lists is there at run time.
pub struct Seat {
    pub(crate) claim: Ticket,
    pub(crate) draw: Ticket,
}

// By hand, as a round's.
impl Drop for Seat {
    fn drop(self) {
        let Seat { claim: _, draw: _ } = self;
    }
}

impl Seat {
    // Of hands that were given nothing yet.
    pub(crate) fn new(claim: Hand, draw: Hand) -> Seat
        requires claim_part { (claim.me.0.parts ≡ 1) × (claim.me.1 ≡ []) }
        requires claim_new { (claim.me.0.refusals ≡ 0) × (claim.me.0.numbers ≡ []) }
        requires draw_part { (draw.me.0.parts ≡ 1) × (draw.me.1 ≡ []) }
        requires draw_new { (draw.me.0.refusals ≡ 0) × (draw.me.0.numbers ≡ []) }
        ensures hands { (result.claim.hand ≡ claim) × (result.draw.hand ≡ draw) }
        ensures new { (result.claim.over ≡ false) × (result.draw.over ≡ false) }
    {
        Seat {
            claim: Ticket::new(claim),
            draw: Ticket::new(draw),
        }
    }

    pub(crate) fn into_hands(self) -> (Hand, Hand)
        ensures claim { (result.0 ≡ self.claim.hand) × (result.0.me.0.parts ≡ 1) × (result.0.me.1 ≡ [])
            × (result.0.me.0.refusals ≡ cond self.claim.over 1 0) }
        ensures draw { (result.1 ≡ self.draw.hand) × (result.1.me.0.parts ≡ 1) × (result.1.me.1 ≡ [])
            × (result.1.me.0.refusals ≡ cond self.draw.over 1 0) }
    {
        let Seat { claim, draw } = self;
        (claim.into_hand(), draw.into_hand())
    }
}
