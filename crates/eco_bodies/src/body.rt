//! What a system does with a row.
ghost use Rattle.std.specs.Prelude.{◌≡◌, ◌++◌, ℕ, Bool, List, false, length, IfErr, IfOk, IsTrue};
ghost use Rattle.std.specs.List.{AllByRecursion};
ghost use Rattle.eco_ids.specs.declared.entity.Entity.{Entity as EntityData};
ghost use Rattle.eco_ids.specs.declared.pattern.Pattern.{Pattern as PatternData};
ghost use Rattle.eco_ids.specs.Run.{Command};
ghost use Rattle.eco_systems.specs.Rows.{ValuedRow};
ghost use Rattle.eco_systems.specs.Systems.{IsDeclared};
ghost use Rattle.eco_bodies.specs.Taking.{AllTook, OneTook, taken_of, takes_just};
ghost use Rattle.eco_stages.specs.Taking.{Broke, stopped_by};

use crate::row::BodyRow;
use crate::rows::BodyRows;
use eco_ids::{Pattern, Refusal};
use eco_stages::{Draws, Stage};

/// What a system does with each row of its query (Flecs manual, Systems). It changes nothing itself: it records commands,
/// which are merged behind the system's batch. The commands, and how many fresh handles it draws, are a function of the row
/// and of the handles that are there to draw, of which it looks at those that it takes alone. What it records keeps to what
/// it declares: the ids that it adds, sets and removes match a pattern of `writes`, and only one that `kills` deletes and
/// clears entities.
pub trait SystemBody {
    // The patterns that it reads.
    ghost reads_of: { Self → List PatternData };

    // The patterns that it writes.
    ghost writes_of: { Self → List PatternData };

    // It deletes or clears entities.
    ghost kills_of: { Self → Bool };

    // The commands for a row, with these handles to draw, of which it takes some from the front.
    ghost commands: { Self → ValuedRow → List EntityData → List Command };

    // How many it takes.
    ghost taken: { Self → ValuedRow → List EntityData → ℕ };

    /// The patterns that it reads besides those of its system's query.
    fn reads(&self) -> &[Pattern]
        ensures { result.now ≡ reads_of self.now };

    /// The patterns that match whatever it adds, sets and removes.
    fn writes(&self) -> &[Pattern]
        ensures { result.now ≡ writes_of self.now };

    /// Whether it deletes or clears entities.
    fn kills(&self) -> bool
        ensures { result ≡ kills_of self.now };

    /// Whether it records a row in so short a time that another thread is worth its start for thousands of rows alone. A body
    /// that waits for others, or works long, is not light, and none is unless it says so.
    fn is_light(&self) -> bool {
        false
    }

    /// Records the commands for a row, behind those of the stage. No draw was refused before. Refused with `NoMoreIds` where
    /// a draw was refused, else with `OutOfMemory`; the stage then may hold some of the commands, and is not merged.
    fn record<R: BodyRow, D: Draws>(
        &self,
        row: &R,
        draws: &mut D,
        stage: &mut Stage,
    ) -> Result<(), Refusal>
        requires { D.is_dry draws.old ≡ false }
        ensures rest { D.rest draws.new ≡ D.rest draws.old }
        ensures wet { IfOk result (λ _. D.is_dry draws.new ≡ false) }
        ensures ok { IfOk result (λ _. OneTook (commands self.now) (taken self.now) (R.row_of row.now)
            (D.so_far draws.old) (D.so_far draws.new) stage.old stage.new) }
        ensures why { IfErr result (λ why. why ≡ stopped_by (D.is_dry draws.new)) }
        ensures err { IfErr result (λ _. Broke (taken self.now (R.row_of row.now))
            (D.so_far draws.old) (D.so_far draws.new) (D.is_dry draws.new)) };

    /// Records the commands for rows that share their entries, one after another, as `record` does. A body that asks for
    /// entries alone in all of them may ask once.
    fn record_rows<R: BodyRows, D: Draws>(
        &self,
        rows: &R,
        draws: &mut D,
        stage: &mut Stage,
    ) -> Result<(), Refusal>
        requires { D.is_dry draws.old ≡ false }
        ensures rest { D.rest draws.new ≡ D.rest draws.old }
        ensures wet { IfOk result (λ _. D.is_dry draws.new ≡ false) }
        ensures ok { IfOk result (λ _. AllTook (commands self.now) (taken self.now) (R.rows_of rows.now)
            (D.so_far draws.old) (D.so_far draws.new) stage.old stage.new) }
        ensures why { IfErr result (λ why. why ≡ stopped_by (D.is_dry draws.new)) }
        ensures err { IfErr result (λ _. Broke (taken_of (taken self.now) (R.rows_of rows.now))
            (D.so_far draws.old) (D.so_far draws.new) (D.is_dry draws.new)) }
    {
        for place in 0..rows.len() {
            self.record(&rows.row(place), draws, stage)?;
        }
        Ok(())
    }

    // It records what it declares.
    ghost declared: { (body : Self) (row : ValuedRow) (draws : List EntityData)
        → IsTrue (takes_just (taken body) row draws)
        → AllByRecursion (IsDeclared (writes_of body) (kills_of body)) (commands body row draws) };

    // It looks at no more of the handles than it takes.
    ghost settled: { (body : Self) (row : ValuedRow) (mine later : List EntityData)
        → taken body row (mine ++ later) ≡ length mine
        → (taken body row mine ≡ length mine)
        × (commands body row (mine ++ later) ≡ commands body row mine) };
}
