//! One seat on one word.
ghost use Rattle.std.specs.Prelude.{◌≡◌, ◌<◌, true, false, [], cond, MatchOption};
ghost use Rattle.eco_tickets.specs.Counting.{ascends, took, refused};

use crate::word::{Hand, Taking, Word};

/// A seat that has one part of a word. The numbers that it was given ascend, and it steps no more once it was refused.
#[derive(Drop)]
pub struct Ticket {
    /// The seat.
    pub hand: Hand,
    /// Whether it was refused.
    pub over: bool,
    ghost part: { hand.me.0.parts ≡ 1 },
    ghost refusals: { hand.me.0.refusals ≡ cond over 1 0 },
    ghost empty: { hand.me.1 ≡ [] },
    ghost ascending: { ascends hand.me.0.numbers ≡ true },
}

impl Ticket {
    /// A ticket of a seat that was given nothing yet.
    pub fn new(hand: Hand) -> Ticket
        requires part { (hand.me.0.parts ≡ 1) × (hand.me.1 ≡ []) }
        requires new { (hand.me.0.refusals ≡ 0) × (hand.me.0.numbers ≡ []) }
        ensures { (result.hand ≡ hand) × (result.over ≡ false) }
    {
        Ticket { hand, over: false }
    }

    /// The seat, handed back.
    pub fn into_hand(self) -> Hand
        ensures hand { result ≡ self.hand }
        ensures part { (result.me.0.parts ≡ 1) × (result.me.1 ≡ []) }
        ensures refusals { result.me.0.refusals ≡ cond self.over 1 0 }
    {
        let Ticket { hand, over: _ } = self;
        hand
    }

    /// The next number below the bound, by one addition. None where there is no more, and always once it was refused.
    pub fn take(&mut self, word: &Word, bound: u64) -> Option<u64>
        requires own { self.old.hand.table_id ≡ word.now.shared.table_id }
        requires word { word.now.shared.table_id.words ≡ 1 }
        requires bound { self.old.hand.me.0.bound ≡ bound }
        ensures own { self.new.hand.table_id ≡ self.old.hand.table_id }
        ensures over { self.old.over ≡ true → (result ≡ None) × (self.new ≡ self.old) }
        ensures one { self.old.over ≡ false → MatchOption result
            ((self.new.over ≡ true) × (self.new.hand.me.0 ≡ refused self.old.hand.me.0))
            (λ n. (n < bound) × (self.new.over ≡ false) × (self.new.hand.me.0 ≡ took self.old.hand.me.0 n)) }
    {
        if self.over {
            return None;
        }
        let found = word.shared.fetch_add::<Taking>(&mut self.hand, 0, 1);
        if found < bound {
            Some(found)
        } else {
            self.over = true;
            None
        }
    }
}
