//! The end of a word.
ghost use Rattle.std.specs.Prelude.{◌≡◌, ℕ, ◌≤◌, ◌-◌, min};
ghost use Rattle.eco_tickets.specs.Counting.{times, once};

use crate::word::{Hand, Word};

/// Closes a word whose seats are all joined, and answers where it stood.
pub fn settle(word: Word, hand: Hand) -> u64
    requires own { hand.table_id ≡ word.shared.table_id }
    requires word { (word.shared.table_id.words ≡ 1) × (word.shared.table_id.slots ≡ 0) }
    requires all { hand.me.0.parts ≡ word.shared.key.parts }
    ensures numbers { (x : ℕ) → times x hand.me.0.numbers
        ≡ once word.shared.key.base (min result word.shared.key.bound) x }
    ensures base { word.shared.key.base ≤ result }
    ensures refusals { hand.me.0.refusals ≡ result - word.shared.key.bound }
{
    let closed = word.close_with(hand);
    let last = closed.word(0);
    closed.free();
    last
}
