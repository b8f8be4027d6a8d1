//! Up to three fields of each value.
ghost use Rattle.std.specs.Prelude.{◌≡◌, ◌<◌, ◌≤◌, ◌+◌, ◌-◌, ◌++◌, [], ◌∷◌, length, slice_index_or};
ghost use Rattle.std.specs.List.{swap_remove};
ghost use Rattle.eco_ids.specs.World.{zeros};
ghost use Rattle.eco_tables.specs.Fields.{narrow_width, narrow_values, narrow_room};

use super::fields::{join, move_one, push};

/// Up to three fields of each value.
#[derive(Drop)]
pub enum Narrow {
    One(Vec<[i64; 1]>),
    Two(Vec<[i64; 2]>),
    Three(Vec<[i64; 3]>),
}

impl Narrow {
    // The value of a row of other fields, as many, behind the own, in reserved room.
    pub(super) fn push_from(&mut self, source: &Narrow, row: usize)
        requires room { 0 < narrow_room self.old }
        requires row { row < length (narrow_values source.now) }
        requires width { narrow_width self.old ≡ narrow_width source.now }
        ensures width { narrow_width self.new ≡ narrow_width self.old }
        ensures values { narrow_values self.new
            ≡ narrow_values self.old ++ slice_index_or (narrow_values source.now) row zeros ∷ [] }
        ensures room { narrow_room self.new ≡ narrow_room self.old - 1 }
    {
        match (self, source) {
            (Narrow::One(rows), Narrow::One(others)) => push(rows, others, row),
            (Narrow::Two(rows), Narrow::Two(others)) => push(rows, others, row),
            (Narrow::Three(rows), Narrow::Three(others)) => push(rows, others, row),
            _ => unreachable!(),
        }
    }

    // The value of a row of other fields, as many, goes behind the own, in reserved room, and their last one takes its place.
    #[inline(always)]
    pub(super) fn take_from(&mut self, source: &mut Narrow, row: usize)
        requires room { 0 < narrow_room self.old }
        requires row { row < length (narrow_values source.old) }
        requires width { narrow_width self.old ≡ narrow_width source.old }
        ensures width { narrow_width self.new ≡ narrow_width self.old }
        ensures values { narrow_values self.new
            ≡ narrow_values self.old ++ slice_index_or (narrow_values source.old) row zeros ∷ [] }
        ensures room { narrow_room self.new ≡ narrow_room self.old - 1 }
        ensures there { narrow_width source.new ≡ narrow_width source.old }
        ensures left { narrow_values source.new ≡ swap_remove (narrow_values source.old) row zeros }
        ensures won { narrow_room source.new ≡ narrow_room source.old + 1 }
    {
        match (self, source) {
            (Narrow::One(rows), Narrow::One(others)) => move_one(rows, others, row),
            (Narrow::Two(rows), Narrow::Two(others)) => move_one(rows, others, row),
            (Narrow::Three(rows), Narrow::Three(others)) => move_one(rows, others, row),
            _ => unreachable!(),
        }
    }

    // All values of other fields, as many, behind the own, in reserved room.
    pub(super) fn join(&mut self, source: &Narrow)
        requires room { length (narrow_values source.now) ≤ narrow_room self.old }
        requires width { narrow_width self.old ≡ narrow_width source.now }
        ensures width { narrow_width self.new ≡ narrow_width self.old }
        ensures values { narrow_values self.new ≡ narrow_values self.old ++ narrow_values source.now }
        ensures room { narrow_room self.old ≤ narrow_room self.new + length (narrow_values source.now) }
    {
        match (self, source) {
            (Narrow::One(rows), Narrow::One(others)) => join(rows, others),
            (Narrow::Two(rows), Narrow::Two(others)) => join(rows, others),
            (Narrow::Three(rows), Narrow::Three(others)) => join(rows, others),
            _ => unreachable!(),
        }
    }
}
