//! Choices of entries by their places.
ghost use Rattle.std.specs.Prelude.{◌≡◌, ◌<◌, length, replicate, slice_get, Some};

use crate::fixed::FixedChoice;
use eco_ids::Id;
use eco_index::Choices;
use std::marker::Model;

/// Choices of entries, which rows name by their places. A contract sees the list of them. One that stands at all places
/// is kept once.
#[derive(Debug)]
pub struct Entries {
    list: Kept,
}

#[derive(Debug, Drop)]
enum Kept {
    // One choice, which stands at so many places.
    Same(FixedChoice, usize),
    Each(Choices),
}

// By hand, so that dropping it is one call: a derived drop is proved anew at each early return of whoever holds it.
impl Drop for Entries {
    fn drop(self) {
        let Entries { list: _ } = self;
    }
}

impl Model for Entries {
    ghost use Rattle.std.specs.Prelude.{List, Option};
    ghost use Rattle.eco_ids.specs.declared.id.Id.{Id as Ids};

    ghost Value = { List (List (Option Ids)) };

    ghost use Rattle.eco_store.specs.Entries.{kept_ones};

    ghost view = { λ e. kept_ones e.list };
}

impl Entries {
    /// One choice at so many places.
    pub fn same(choice: FixedChoice, count: usize) -> Entries
        ensures { result ≡ replicate count choice.items }
    {
        Entries {
            list: Kept::Same(choice, count),
        }
    }

    /// These, each at its own place.
    pub fn each(choices: Choices) -> Entries
        ensures { result ≡ choices.all }
    {
        Entries {
            list: Kept::Each(choices),
        }
    }

    /// The choice at a place.
    #[inline]
    pub fn get(&self, place: usize) -> &[Option<Id>]
        requires { place < length self.now }
        ensures { slice_get self.now place ≡ Some result.now }
    {
        match &self.list {
            Kept::Same(choice, _) => choice.as_slice(),
            Kept::Each(choices) => choices.get(place),
        }
    }
}
