//! Four fields of each value and more.
ghost use Rattle.std.specs.Prelude.{◌≡◌, ◌<◌, ◌≤◌, ◌+◌, ◌-◌, ◌++◌, [], ◌∷◌, length, slice_index_or};
ghost use Rattle.std.specs.List.{swap_remove};
ghost use Rattle.eco_ids.specs.World.{zeros};
ghost use Rattle.eco_tables.specs.Fields.{wide_width, wide_values, wide_room};

use super::fields::{join, move_one, push};

/// Four fields of each value and more.
#[derive(Drop)]
pub enum Wide {
    Four(Vec<[i64; 4]>),
    Five(Vec<[i64; 5]>),
    Six(Vec<[i64; 6]>),
    Seven(Vec<[i64; 7]>),
    Eight(Vec<[i64; 8]>),
}

impl Wide {
    // The value of a row of other fields, as many, behind the own, in reserved room.
    pub(super) fn push_from(&mut self, source: &Wide, row: usize)
        requires room { 0 < wide_room self.old }
        requires row { row < length (wide_values source.now) }
        requires width { wide_width self.old ≡ wide_width source.now }
        ensures width { wide_width self.new ≡ wide_width self.old }
        ensures values { wide_values self.new
            ≡ wide_values self.old ++ slice_index_or (wide_values source.now) row zeros ∷ [] }
        ensures room { wide_room self.new ≡ wide_room self.old - 1 }
    {
        match (self, source) {
            (Wide::Four(rows), Wide::Four(others)) => push(rows, others, row),
            (Wide::Five(rows), Wide::Five(others)) => push(rows, others, row),
            (Wide::Six(rows), Wide::Six(others)) => push(rows, others, row),
            (Wide::Seven(rows), Wide::Seven(others)) => push(rows, others, row),
            (Wide::Eight(rows), Wide::Eight(others)) => push(rows, others, row),
            _ => unreachable!(),
        }
    }

    // The value of a row of other fields, as many, goes behind the own, in reserved room, and their last one takes its place.
    #[inline(always)]
    pub(super) fn take_from(&mut self, source: &mut Wide, row: usize)
        requires room { 0 < wide_room self.old }
        requires row { row < length (wide_values source.old) }
        requires width { wide_width self.old ≡ wide_width source.old }
        ensures width { wide_width self.new ≡ wide_width self.old }
        ensures values { wide_values self.new
            ≡ wide_values self.old ++ slice_index_or (wide_values source.old) row zeros ∷ [] }
        ensures room { wide_room self.new ≡ wide_room self.old - 1 }
        ensures there { wide_width source.new ≡ wide_width source.old }
        ensures left { wide_values source.new ≡ swap_remove (wide_values source.old) row zeros }
        ensures won { wide_room source.new ≡ wide_room source.old + 1 }
    {
        match (self, source) {
            (Wide::Four(rows), Wide::Four(others)) => move_one(rows, others, row),
            (Wide::Five(rows), Wide::Five(others)) => move_one(rows, others, row),
            (Wide::Six(rows), Wide::Six(others)) => move_one(rows, others, row),
            (Wide::Seven(rows), Wide::Seven(others)) => move_one(rows, others, row),
            (Wide::Eight(rows), Wide::Eight(others)) => move_one(rows, others, row),
            _ => unreachable!(),
        }
    }

    // All values of other fields, as many, behind the own, in reserved room.
    pub(super) fn join(&mut self, source: &Wide)
        requires room { length (wide_values source.now) ≤ wide_room self.old }
        requires width { wide_width self.old ≡ wide_width source.now }
        ensures width { wide_width self.new ≡ wide_width self.old }
        ensures values { wide_values self.new ≡ wide_values self.old ++ wide_values source.now }
        ensures room { wide_room self.old ≤ wide_room self.new + length (wide_values source.now) }
    {
        match (self, source) {
            (Wide::Four(rows), Wide::Four(others)) => join(rows, others),
            (Wide::Five(rows), Wide::Five(others)) => join(rows, others),
            (Wide::Six(rows), Wide::Six(others)) => join(rows, others),
            (Wide::Seven(rows), Wide::Seven(others)) => join(rows, others),
            (Wide::Eight(rows), Wide::Eight(others)) => join(rows, others),
            _ => unreachable!(),
        }
    }
}
