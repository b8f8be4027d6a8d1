//! The results of a query, one after another.
ghost use Rattle.std.specs.Prelude.{◌≡◌, ◌<◌, length, map};
ghost use Rattle.std.specs.Iterator.{at_most};
ghost use Rattle.std.specs.List.{All};
ghost use Rattle.std.specs.Map.Iter.{TakesFirst};
ghost use Rattle.eco_store.specs.Blocks.{lent_result, shown};

use crate::entries::Entries;
use crate::ranked::{Ranked, RankedIter};
use eco_ids::{Entity, Id};
use std::marker::Model;

/// The results that are left, each an entity and its entries. A contract sees the list of them.
#[derive(Drop)]
pub struct ResultIter<'a> {
    rows: RankedIter<'a>,
    entries: &'a Entries,
}

impl<'a> Model for ResultIter<'a> {
    ghost use Rattle.std.specs.Prelude.{◌<◌, List, length, map};
    ghost use Rattle.std.specs.List.{All};
    ghost use Rattle.eco_ids.specs.Answer as answers;
    ghost use Rattle.eco_store.specs.Blocks.{shown};

    ghost Value = { List answers.Row };

    ghost view = { λ i. map (shown i.entries.now) i.rows };

    ghost invariant = { λ i. All (λ s. s.place < length i.entries.now) i.rows };
}

impl<'a> ResultIter<'a> {
    /// Of these rows, each with the entries at its place.
    pub(crate) fn of(rows: &'a Ranked, entries: &'a Entries) -> ResultIter<'a>
        requires { All (λ s. s.place < length entries.now) rows.now }
        ensures { result ≡ map (shown entries.now) rows.now }
    {
        ResultIter {
            rows: rows.iter(),
            entries,
        }
    }
}

impl<'a> Iterator for ResultIter<'a> {
    type Item = (Entity, &'a [Option<Id>]);

    ghost next_gives = { TakesFirst lent_result };

    ghost remaining = { λ s. at_most (length s) };

    #[inline]
    fn next(&mut self) -> Option<(Entity, &'a [Option<Id>])> {
        let row = self.rows.next()?;
        Some((row.entity, self.entries.get(row.place)))
    }
}
