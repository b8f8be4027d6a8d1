//! Pieces of a batch.
ghost use Rattle.std.specs.Prelude.{◌≡◌, ◌+◌, ◌-◌, ◌≤◌, drop, false, length, take, IfErr, IfOk};
ghost use Rattle.eco_bodies.specs.Taking.{commands_in_turn, taken_of};
ghost use Rattle.eco_stages.specs.Taking.{Broke, Took, stopped_by};

use crate::row_columns::RowColumns;
use crate::system_rows::SystemRows;
use eco_bodies::{BodyRows, Draws, SystemBody, rows_are_recorded_one_by_one};
use eco_ids::Refusal;
use eco_stages::Stage;
use eco_workers::Piece;

// For fewer rows each is looked for by itself, since to look for columns takes as long as to look for some rows.
const FEW: usize = 8;

// Consecutive rows of a system, which one thread records: those from one place to below another.
pub(crate) struct RowsPiece<'a, B> {
    pub(crate) body: &'a B,
    pub(crate) rows: &'a SystemRows<'a>,
    pub(crate) first: usize,
    pub(crate) end: usize,
    ghost rises: { first ≤ end },
    ghost within: { end ≤ length rows.now },
}

// By hand, so that dropping it is one call: a derived drop is proved anew at each early return of whoever holds it.
impl<B> Drop for RowsPiece<'_, B> {
    fn drop(self) {
        let RowsPiece {
            body: _,
            rows: _,
            first: _,
            end: _,
        } = self;
    }
}

// Records the rows from one place to below another, in their order, each lent as its turn comes. It stops at the first that is
// refused. Not inlined, since the loop over rows keeps more in registers in a function of its own.
#[inline(never)]
fn record_between<B: SystemBody, D: Draws>(
    body: &B,
    rows: &SystemRows<'_>,
    first: usize,
    end: usize,
    draws: &mut D,
    stage: &mut Stage,
) -> Result<(), Refusal>
    requires wet { D.is_dry draws.old ≡ false }
    requires places { (first ≤ end) × (end ≤ length rows.now) }
    ensures rest { D.rest draws.new ≡ D.rest draws.old }
    ensures wet { IfOk result (λ _. D.is_dry draws.new ≡ false) }
    ensures ok { IfOk result (λ _. Took
        (commands_in_turn (B.commands body.now) (B.taken body.now) (take (end - first) (drop first rows.now)))
        (taken_of (B.taken body.now) (take (end - first) (drop first rows.now)))
        (D.so_far draws.old) (D.so_far draws.new) stage.old stage.new) }
    ensures why { IfErr result (λ why. why ≡ stopped_by (D.is_dry draws.new)) }
    ensures err { IfErr result (λ _. Broke
        (taken_of (B.taken body.now) (take (end - first) (drop first rows.now)))
        (D.so_far draws.old) (D.so_far draws.new) (D.is_dry draws.new)) }
{
    rows_are_recorded_one_by_one();
    for place in first..end {
        body.record(&rows.get(place), draws, stage)?;
    }
    Ok(())
}

// Records the same, where columns are looked for once for rows of one table that follow one another. It stops where there is no
// memory to list them, too.
#[inline(never)]
fn record_in_columns<'a, B: SystemBody, D: Draws>(
    body: &B,
    rows: &'a SystemRows<'a>,
    first: usize,
    end: usize,
    draws: &mut D,
    stage: &mut Stage,
) -> Result<(), Refusal>
    requires wet { D.is_dry draws.old ≡ false }
    requires places { (first ≤ end) × (end ≤ length rows.now) }
    ensures rest { D.rest draws.new ≡ D.rest draws.old }
    ensures wet { IfOk result (λ _. D.is_dry draws.new ≡ false) }
    ensures ok { IfOk result (λ _. Took
        (commands_in_turn (B.commands body.now) (B.taken body.now) (take (end - first) (drop first rows.now)))
        (taken_of (B.taken body.now) (take (end - first) (drop first rows.now)))
        (D.so_far draws.old) (D.so_far draws.new) stage.old stage.new) }
    ensures why { IfErr result (λ why. why ≡ stopped_by (D.is_dry draws.new)) }
    ensures err { IfErr result (λ _. Broke
        (taken_of (B.taken body.now) (take (end - first) (drop first rows.now)))
        (D.so_far draws.old) (D.so_far draws.new) (D.is_dry draws.new)) }
{
    let mut columns = RowColumns::new(rows);
    let mut place = first;
    while place < end {
        columns.seek(place)?;
        let run = columns.run(place, end);
        body.record_rows(&run, draws, stage)?;
        place += run.len();
    }
    Ok(())
}

impl<B> RowsPiece<'_, B> {
    // Whether some of its rows, side by side and far apart, share their entries, and may show values. Rows of several tables in
    // turn do not, and each would need other columns.
    #[inline(never)]
    fn is_run(&self) -> bool
        requires { self.now.first + FEW ≤ self.now.end }
    {
        let middle = self.first + (self.end - self.first) / 2;
        self.rows.show()
            && [self.first + 1, middle, self.end - 1]
                .iter()
                .all(|place| self.rows.share_entries(self.first, *place))
    }
}

impl<B: SystemBody> Piece for RowsPiece<'_, B> {
    ghost use Rattle.eco_frame.specs.Pieces.{piece_rows};

    ghost commands = { λ p. commands_in_turn (B.commands p.body.now) (B.taken p.body.now) (piece_rows p) };

    ghost taken = { λ p. taken_of (B.taken p.body.now) (piece_rows p) };

    fn record<D: Draws>(&self, draws: &mut D, stage: &mut Stage) -> Result<(), Refusal> {
        if FEW <= self.end - self.first && self.is_run() {
            return record_in_columns(self.body, self.rows, self.first, self.end, draws, stage);
        }
        record_between(self.body, self.rows, self.first, self.end, draws, stage)
    }
}
