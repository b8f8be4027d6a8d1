//! The parts of the right to know the whole: seats are split, and joined again.
ghost use Rattle.std.specs.Prelude.{◌≡◌, ◌<◌, []};
ghost use Rattle.eco_tickets.specs.Counting.{both, less_one, one_part};

use crate::word::{Hand, OnePart, Word};

/// Cuts a new seat off one that has several parts and was refused nothing: it has one of them, and was given nothing yet.
pub fn split_hand(word: &Word, hand: &mut Hand) -> Hand
    requires own { hand.old.table_id ≡ word.now.shared.table_id }
    requires word { word.now.shared.table_id.words ≡ 1 }
    requires parts { 1 < hand.old.me.0.parts }
    requires refusals { hand.old.me.0.refusals ≡ 0 }
    ensures own { (hand.new.table_id ≡ hand.old.table_id) × (result.table_id ≡ hand.old.table_id) }
    ensures left { hand.new.me ≡ (less_one hand.old.me.0, hand.old.me.1) }
    ensures right { result.me ≡ (one_part hand.old.me.0, []) }
{
    word.shared.split_seat::<OnePart>(hand)
}

/// Joins two seats of one word: one with the parts of both and all that both were given, the first's numbers first.
pub fn join_hands(word: &Word, mut hand: Hand, other: Hand) -> Hand
    requires own { (hand.table_id ≡ word.now.shared.table_id)
        × (other.table_id ≡ word.now.shared.table_id) }
    requires word { word.now.shared.table_id.words ≡ 1 }
    requires some { 0 < hand.me.0.parts }
    requires empty { other.me.1 ≡ [] }
    ensures own { result.table_id ≡ hand.table_id }
    ensures joined { result.me ≡ (both hand.me.0 other.me.0, hand.me.1) }
{
    word.shared.join_seat::<OnePart>(&mut hand, other);
    hand
}
