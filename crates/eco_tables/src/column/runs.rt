//! Values of many rows are written at once.
ghost use Rattle.std.specs.Prelude.{◌≡◌, ◌≤◌, ◌+◌, ◌-◌, length, map, vec_len, vec_capacity};
ghost use Rattle.std.specs.List.{All};
ghost use Rattle.eco_ids.specs.World.{padded};
ghost use Rattle.eco_ids.specs.declared.value.TheConstants.{FIELD_COUNT};
ghost use Rattle.eco_tables.specs.Column.{Fits};
ghost use Rattle.eco_tables.specs.Runs.{column_with_run, run_values, values_with_run};

use crate::column::{Cells, Column, Narrow, Wide};
use eco_ids::Entity;

// The first fields of a value in as many as are kept: those that lack are 0.
#[inline(always)]
fn refit<const M: usize, const N: usize>(fields: &[i64; N]) -> [i64; M]
    requires kept { M ≤ FIELD_COUNT }
    requires few { N ≤ FIELD_COUNT }
    requires fits { Fits M (padded fields.now) }
    ensures { padded result ≡ padded fields.now }
{
    let mut own = [0; M];
    let least = if N < M { N } else { M };
    own[..least].copy_from_slice(&fields[..least]);
    own
}

// The fields of sets stand in the rows from this one on.
fn put_all<const M: usize, const N: usize>(
    rows: &mut Vec<[i64; M]>,
    first: usize,
    sets: &[(Entity, [i64; N])],
)
    requires kept { M ≤ FIELD_COUNT }
    requires few { N ≤ FIELD_COUNT }
    requires rows { first + length sets.now ≤ length (map padded rows.old.items) }
    requires fits { All (Fits M) (run_values sets.now) }
    ensures values { map padded rows.new.items
        ≡ values_with_run (map padded rows.old.items) first (run_values sets.now) }
    ensures room { vec_capacity rows.new - vec_len rows.new ≡ vec_capacity rows.old - vec_len rows.old }
{
    for place in 0..sets.len() {
        rows[first + place] = refit(&sets[place].1);
    }
}

impl Column {
    /// Writes the values of sets, each of an entity and the first fields of its value, in the rows from this one on.
    #[tactic(auto, using(crate::proofs::Runs::column_run))]
    pub fn write_rows<const N: usize>(&mut self, row: usize, sets: &[(Entity, [i64; N])])
        requires few { N ≤ FIELD_COUNT }
        requires rows { row + length sets.now ≤ length self.old.values }
        requires fits { All (Fits self.old.width) (run_values sets.now) }
        ensures { self.new ≡ column_with_run self.old row (run_values sets.now) }
    {
        at_each_width!(&mut self.fields, |rows| put_all(rows, row, sets))
    }
}
