//! What is known of one history of a registry.
ghost use Rattle.std.specs.Prelude.{◌≡◌, ◌≢◌, ◌<◌, ◌⊎◌, length, Some, slice_get, IfSome, IfNone, MatchBool};
ghost use mathlib.Core.List.{IsPrefix};
ghost use Rattle.eco_histories.specs.Marks.{mark_of_book};

use crate::front::Front;
use crate::registry::{Naming, Title};

/// A beginning of the history of this title. Who adds to the history tells it to others.
pub struct News<E, J: Naming> {
    pub title: Title<J>,
    pub front: Front<E>,
    pub ghost titled: { slice_get title.marks.seen.log title.number ≡ Some (mark_of_book front.seen.book) },
}

// By hand, so that dropping it is one call: a derived drop is proved anew at each early return of whoever holds it.
impl<E, J: Naming> Drop for News<E, J> {
    fn drop(self) {
        let Self {
            title: _title,
            front: _front,
        } = self;
    }
}

impl<E, J: Naming> News<E, J> {
    /// The same news once more. It takes no memory.
    pub fn again(&self) -> News<E, J>
        ensures { (result.front ≡ self.now.front) × (result.title.number ≡ self.now.title.number) }
    {
        self.with(&self.front)
    }

    /// Another beginning of the same history.
    pub fn with(&self, front: &Front<E>) -> News<E, J>
        requires { front.now.seen.book ≡ self.now.front.seen.book }
        ensures { (result.front ≡ front.now) × (result.title.number ≡ self.now.title.number) }
    {
        News {
            title: self.title.again(),
            front: front.again(),
        }
    }

    /// Whether both are of one history.
    pub fn is_of_same(&self, other: &News<E, J>) -> bool
        ensures { MatchBool result
            ((other.now.title.number ≡ self.now.title.number)
            × (other.now.front.seen.book ≡ self.now.front.seen.book))
            (other.now.title.number ≢ self.now.title.number) }
    {
        let mut both = self.title.marks.seen.again();
        both.learn(&other.title.marks.seen);
        other.title.number == self.title.number
    }

    /// What is known once these news are told too: the longer of both. There is none where they are of another history.
    pub fn learned(&self, told: &News<E, J>) -> Option<News<E, J>>
        ensures none { IfNone result (told.now.title.number ≢ self.now.title.number) }
        ensures same { IfSome result (λ n. (told.now.title.number ≡ self.now.title.number)
            × (n.title.number ≡ self.now.title.number)
            × (n.front.seen.book ≡ self.now.front.seen.book)) }
        ensures known { IfSome result (λ n. IsPrefix self.now.front.seen.log n.front.seen.log
            × IsPrefix told.now.front.seen.log n.front.seen.log) }
        ensures one { IfSome result (λ n. (n.front ≡ self.now.front) ⊎ (n.front ≡ told.now.front)) }
    {
        if !self.is_of_same(told) {
            return None;
        }
        Some(self.with(&self.front.longer(&told.front)))
    }

    /// What is known once this beginning of the same history is seen. There is none where it is older than what was known.
    pub fn seen(&self, front: &Front<E>) -> Option<News<E, J>>
        requires { front.now.seen.book ≡ self.now.front.seen.book }
        ensures none { IfNone result (length front.now.seen.log < length self.now.front.seen.log) }
        ensures some { IfSome result (λ n. (n.front ≡ front.now) × (n.title.number ≡ self.now.title.number)
            × IsPrefix self.now.front.seen.log front.now.seen.log) }
    {
        if self.front.is_begun_by(front) {
            Some(self.with(front))
        } else {
            None
        }
    }
}
