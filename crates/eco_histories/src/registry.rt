//! Which histories there are. Each has a number of its own.
ghost use Rattle.std.specs.Prelude.{◌≡◌, ◌++◌, ◌∷◌, [], length, Some, slice_get, IfSome, IfNone};
ghost use mathlib.Core.List.{IsPrefix};
ghost use Rattle.eco_histories.specs.Marks.{mark_of_book};
ghost use Rattle.eco_histories.specs.Rules.{book_head};

use crate::front::{Front, Head, begin};
use logbook::Plain;
use std::marker::{Brand, PhantomData};

/// What the registry has of a history: its place there, and the names of its book.
pub struct HistoryMark {
    pub number: u64,
    pub log_name: u64,
    pub cells_name: u64,
}

/// Which registry it is: its name in types, so that what is of one registry can't be taken for another's. A program gets one from
/// `std::marker::Brand`.
pub trait Naming {
    ghost use Rattle.logbook.specs.Pages.{Book};

    ghost book: { Book };
}

impl Naming for Brand {
    ghost book = { record { number = 0; log_name = 0; cells_name = 0 } };
}

/// An empty registry, which has no name yet.
#[derive(Drop)]
pub struct Blank {
    head: Head<HistoryMark>,
    front: Front<HistoryMark>,
    pub ghost empty: { front.seen.log ≡ [] },
    pub ghost head_is: { head ≡ book_head front.seen.book },
}

impl Blank {
    /// A registry of no history. It takes no memory.
    pub fn new() -> Blank {
        let (head, front) = begin::<HistoryMark>();
        Blank { head, front }
    }

    /// The registry under a name.
    pub fn named<J: Naming>(self) -> Registry<J>
        requires { self.front.seen.book ≡ J.book }
        ensures { result.front.seen.log ≡ [] }
    {
        let Blank { head, front } = self;
        Registry {
            head,
            front,
            of: PhantomData,
        }
    }
}

/// The histories that were begun, each under a number of its own.
pub struct Registry<J: Naming> {
    head: Head<HistoryMark>,
    pub front: Front<HistoryMark>,
    of: PhantomData<J>,
    ghost head_is: { head ≡ book_head J.book },
    ghost book_is: { front.seen.book ≡ J.book },
}

// By hand, so that dropping it is one call: a derived drop is proved anew at each early return of whoever holds it.
impl<J: Naming> Drop for Registry<J> {
    fn drop(self) {
        let Self {
            head: _head,
            front: _front,
            of: _of,
        } = self;
    }
}

/// The entry that a history gets in the registry: which one it is.
pub struct Enrols;

impl<E> Plain<Front<E>, HistoryMark, u64> for Enrols {
    ghost use Rattle.std.specs.Prelude.{None};
    ghost use Rattle.eco_histories.specs.Marks.{mark_of_book};

    ghost ask = { λ front. mark_of_book front.seen.book };

    ghost state = { λ front. None };
}

/// The number of one history. It is this one's alone.
#[derive(Drop)]
pub struct Title<J: Naming> {
    pub number: u64,
    pub marks: Front<HistoryMark>,
    of: PhantomData<J>,
    pub ghost book_is: { marks.seen.book ≡ J.book },
}

impl<J: Naming> Registry<J> {
    /// A number that no history of the registry had before: how many there were. There is none where numbers are used up, after
    /// 2^62 of them; that it is so only there is not proved, since who else adds to the list is not known here.
    pub fn enrol<E>(&mut self, front: &Front<E>) -> Option<Title<J>>
        ensures some { IfSome result (λ t. (t.number ≡ length self.old.front.seen.log)
            × (slice_get t.marks.seen.log t.number ≡ Some (mark_of_book front.now.seen.book))
            × (self.new.front.seen.log ≡ self.old.front.seen.log ++ mark_of_book front.now.seen.book ∷ [])) }
        ensures none { IfNone result (self.new.front ≡ self.old.front) }
        ensures grown { IsPrefix self.old.front.seen.log self.new.front.seen.log }
    {
        let number = self.front.count;
        let longer = self.front.extended::<Front<E>, Enrols>(&self.head, front)?;
        self.front = longer.again();
        Some(Title {
            number,
            marks: longer,
            of: PhantomData,
        })
    }
}

impl<J: Naming> Title<J> {
    /// The same title once more. It takes no memory.
    pub fn again(&self) -> Title<J>
        ensures { (result.number ≡ self.now.number) × (result.marks ≡ self.now.marks) }
    {
        Title {
            number: self.number,
            marks: self.marks.again(),
            of: PhantomData,
        }
    }
}
