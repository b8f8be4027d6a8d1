//! A word that counts: each number from a base to below a bound is given out once, by one atomic addition each.
use atomic_table::{Join, Play, Seat, Split, Table, TableRule};
use std::alloc::Global;
use std::collections::LinkedList;

/// What the holder of a seat knows. It serves contracts: no value of it is made.
pub struct Share {
    /// Above all numbers.
    pub bound: u64,
    /// Its parts of the right to know the whole.
    pub parts: u64,
    /// The numbers that it was given, in order.
    pub numbers: LinkedList<u64>,
    /// How often it was refused one.
    pub refusals: u64,
}

/// What a word is told when it is made.
#[derive(Clone, Copy)]
pub struct Span {
    /// Its first number.
    pub base: u64,
    /// Above its last number.
    pub bound: u64,
    /// How many seats there are.
    pub parts: u64,
}

/// What holds between any two steps.
pub struct Counted;

impl TableRule<(), Share, Span> for Counted {
    ghost use Rattle.eco_tickets.specs.Counting.{Counts, whole};

    ghost holds = { Counts };

    ghost first = { whole };
}

/// The one kind of step: an addition of 1.
pub struct Taking;

impl Play<(), Share> for Taking {
    ghost use Rattle.eco_tickets.specs.Counting.{Takes};

    ghost then = { Takes };
}

/// A seat is split by handing one of its parts to another.
pub struct OnePart;

impl Split<Share> for OnePart {
    ghost use Rattle.eco_tickets.specs.Counting.{less_one, one_part};

    ghost left = { less_one };

    ghost right = { one_part };
}

impl Join<Share> for OnePart {
    ghost use Rattle.eco_tickets.specs.Counting.{both, spent};

    ghost both = { both };

    ghost spent = { spent };
}

/// The word.
pub type Word = Table<(), Share, Span, Counted, Global>;

/// A seat on it, as the table of words has it.
pub type Hand = Seat<(), Share>;
