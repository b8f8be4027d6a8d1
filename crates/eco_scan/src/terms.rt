//! The atoms that a text puts down, as long as they are no more than a query may have.
ghost use Rattle.std.specs.Prelude.{◌≡◌, None, Some, [], MatchOption, option_and_then};
ghost use Rattle.eco_scan.specs.Marks.{put_down, with_mark};

use crate::point::Mark;
use std::marker::Model;

/// The most atoms of a query.
pub const MOST_TERMS: usize = 32;

/// The atoms so far, each as what its text put down. A contract sees the list of them, or none where they are too many.
#[derive(Drop)]
pub struct Terms<'a> {
    marks: [Mark<'a>; MOST_TERMS],
    len: usize,
    overflows: bool,
}

impl<'a> Model for Terms<'a> {
    ghost use Rattle.std.specs.Prelude.{◌≡◌, List, Option, Some, None, take, length, ◌≤◌, if◌then◌else◌};
    ghost use Rattle.eco_scan.specs.declared.point.Mark.{Mark};

    ghost Value = { Option (List Mark) };

    ghost view = { λ t. if t.overflows then None else Some (take t.len t.marks) };

    ghost invariant = { λ t. (t.len ≤ 32) × (length t.marks ≡ 32) };
}

impl<'a> Terms<'a> {
    /// No marks yet.
    pub fn new() -> Terms<'a>
        ensures { result ≡ Some [] }
    {
        Terms {
            marks: [Mark::Same; MOST_TERMS],
            len: 0,
            overflows: false,
        }
    }

    /// Puts down what a byte puts down.
    pub fn put(&mut self, mark: Mark<'a>)
        ensures { self.new ≡ put_down self.old mark.entry }
    {
        match mark {
            Mark::Same | Mark::Begin => {}
            Mark::Other(_, _) | Mark::Slot(_, _, _) => self.push(mark),
        }
    }

    #[tactic(auto, using(crate::proofs::Stored::stored_within, crate::proofs::Stored::stored_past))]
    fn push(&mut self, mark: Mark<'a>)
        ensures { self.new ≡ option_and_then (λ marks. with_mark marks mark.entry) self.old }
    {
        if self.len < MOST_TERMS {
            self.marks[self.len] = mark;
            self.len += 1;
        } else {
            self.overflows = true;
        }
    }

    /// The atoms, if they are not too many.
    pub fn as_slice(&self) -> Option<&[Mark<'a>]>
        ensures { MatchOption result (self.now ≡ None) (λ marks. self.now ≡ Some marks.now) }
    {
        if self.overflows {
            None
        } else {
            Some(&self.marks[..self.len])
        }
    }
}
