//! Bodies that are lists of actions.
ghost use Rattle.std.specs.Prelude.{◌≡◌, Err, IfErr, IfOk, IsTrue, MatchOption, [], false};
ghost use Rattle.std.specs.List.{list_all, list_any};
ghost use Rattle.eco_ids.specs.declared.refusal.Refusal.TheVariants.{OutOfMemory};
ghost use Rattle.eco_bodies.specs.Actions as spec;
ghost use Rattle.eco_bodies.specs.Actions.{script_writes};
ghost use Rattle.eco_bodies.specs.Scripts.{fits_action, is_allowed, script_commands, script_taken};
ghost use Rattle.eco_bodies.specs.Taking.{AllTook, OneTook, taken_of};
ghost use Rattle.eco_stages.specs.Taking.{Broke, stopped_by};
ghost use Rattle.eco_bodies.specs.Allowing.{script_declared};
ghost use Rattle.eco_bodies.specs.Settling.{script_settled};

use crate::action::{Action, first_refusal, some_kills};
use crate::body::SystemBody;
use crate::change::{add_up_all, fit_all, record_action};
use crate::row::BodyRow;
use crate::rows::BodyRows;
use crate::writes::script_writes;
use eco_ids::{Pattern, Refusal};
use eco_query::Query;
use eco_stages::{Draws, Stage};
use std::alloc::Global;

/// A system's body that does the same actions with each row, in their order. An action that sets a slot's entry records
/// nothing where the slot has none, or one that is none of the script's query's.
#[derive(Debug)]
pub struct Script {
    actions: Vec<Action>,
    writes: Vec<Pattern>,
    kills: bool,
    ghost allowed: { IsTrue (list_all (is_allowed writes.items kills) actions.items) },
}

// By hand, so that dropping it is one call: a derived drop is proved anew at each early return of whoever holds it.
impl Drop for Script {
    fn drop(self) {
        let Script {
            actions: _,
            writes: _,
            kills: _,
        } = self;
    }
}

// Records the actions for a row, one after another. Less is asked where the row is known to have what they ask.
#[inline(always)]
fn record_in_turn<R: BodyRow, D: Draws>(
    writes: &[Pattern],
    actions: &[Action],
    known: bool,
    row: &R,
    draws: &mut D,
    stage: &mut Stage,
) -> Result<(), Refusal>
    requires wet { D.is_dry draws.old ≡ false }
    requires known { IsTrue known
        → IsTrue (list_all (fits_action writes.now (R.row_of row.now).entries) actions.now) }
    ensures rest { D.rest draws.new ≡ D.rest draws.old }
    ensures wet { IfOk result (λ _. D.is_dry draws.new ≡ false) }
    ensures ok { IfOk result (λ _. OneTook (script_commands writes.now actions.now) (script_taken actions.now)
        (R.row_of row.now) (D.so_far draws.old) (D.so_far draws.new) stage.old stage.new) }
    ensures why { IfErr result (λ why. why ≡ stopped_by (D.is_dry draws.new)) }
    ensures err { IfErr result (λ _. Broke (script_taken actions.now (R.row_of row.now))
        (D.so_far draws.old) (D.so_far draws.new) (D.is_dry draws.new)) }
{
    for action in actions {
        record_action(writes, action, known, row, draws, stage)?;
    }
    Ok(())
}

// Records the actions for each of some rows, one row after another.
#[inline(always)]
fn record_each<R: BodyRows, D: Draws>(
    writes: &[Pattern],
    actions: &[Action],
    rows: &R,
    draws: &mut D,
    stage: &mut Stage,
) -> Result<(), Refusal>
    requires { D.is_dry draws.old ≡ false }
    ensures rest { D.rest draws.new ≡ D.rest draws.old }
    ensures wet { IfOk result (λ _. D.is_dry draws.new ≡ false) }
    ensures ok { IfOk result (λ _. AllTook (script_commands writes.now actions.now) (script_taken actions.now)
        (R.rows_of rows.now) (D.so_far draws.old) (D.so_far draws.new) stage.old stage.new) }
    ensures why { IfErr result (λ why. why ≡ stopped_by (D.is_dry draws.new)) }
    ensures err { IfErr result (λ _. Broke (taken_of (script_taken actions.now) (R.rows_of rows.now))
        (D.so_far draws.old) (D.so_far draws.new) (D.is_dry draws.new)) }
{
    let known = fit_all(writes, rows.entries(), actions);
    for place in 0..rows.len() {
        record_in_turn(writes, actions, known, &rows.row(place), draws, stage)?;
    }
    Ok(())
}

// Records the actions for some rows. Where they are one sum, it asks once for all rows what is asked of their entries.
#[inline(always)]
fn record_all<R: BodyRows, D: Draws>(
    writes: &[Pattern],
    actions: &[Action],
    rows: &R,
    draws: &mut D,
    stage: &mut Stage,
) -> Result<(), Refusal>
    requires { D.is_dry draws.old ≡ false }
    ensures rest { D.rest draws.new ≡ D.rest draws.old }
    ensures wet { IfOk result (λ _. D.is_dry draws.new ≡ false) }
    ensures ok { IfOk result (λ _. AllTook (script_commands writes.now actions.now) (script_taken actions.now)
        (R.rows_of rows.now) (D.so_far draws.old) (D.so_far draws.new) stage.old stage.new) }
    ensures why { IfErr result (λ why. why ≡ stopped_by (D.is_dry draws.new)) }
    ensures err { IfErr result (λ _. Broke (taken_of (script_taken actions.now) (R.rows_of rows.now))
        (D.so_far draws.old) (D.so_far draws.new) (D.is_dry draws.new)) }
{
    match actions {
        [Action::Sum { into, from }] => {
            add_up_all(writes, rows, *into, *from, stage)?;
            Ok(())
        }
        _ => record_each(writes, actions, rows, draws, stage),
    }
}

impl Script {
    /// A script for the rows of a query. Refused by the first action for which there is a reason: with `BadTerm` where a
    /// slot of it is not there or is a `!` slot, else with `Undeclared` where the access of a slot does not allow it. Then
    /// with `OutOfMemory`, where memory for what it writes is refused.
    pub fn new(alloc: Global, query: &Query, actions: Vec<Action>) -> Result<Script, Refusal>
        ensures refused { MatchOption (spec.first_action_refusal query.now actions.items)
            (IfErr result (λ why. why ≡ OutOfMemory)) (λ why. result ≡ Err why) }
        ensures actions { IfOk result (λ s. s.actions.items ≡ actions.items) }
        ensures writes { IfOk result (λ s. s.writes.items ≡ script_writes query.now actions.items) }
        ensures kills { IfOk result (λ s. s.kills ≡ list_any spec.is_kill actions.items) }
    {
        if let Some(refusal) = first_refusal(query.slots(), &actions) {
            return Err(refusal);
        }
        let writes = script_writes(alloc, query.slots(), &actions)?;
        let kills = some_kills(&actions);
        Ok(Script {
            actions,
            writes,
            kills,
        })
    }
}

impl SystemBody for Script {
    ghost reads_of = { λ s. [] };

    ghost writes_of = { λ s. s.writes.items };

    ghost kills_of = { λ s. s.kills };

    ghost commands = { λ s. script_commands s.writes.items s.actions.items };

    ghost taken = { λ s. script_taken s.actions.items };

    fn reads(&self) -> &[Pattern] {
        &[]
    }

    fn writes(&self) -> &[Pattern] {
        &self.writes
    }

    fn kills(&self) -> bool {
        self.kills
    }

    fn is_light(&self) -> bool {
        true
    }

    #[inline]
    fn record<R: BodyRow, D: Draws>(
        &self,
        row: &R,
        draws: &mut D,
        stage: &mut Stage,
    ) -> Result<(), Refusal> {
        record_in_turn(&self.writes, &self.actions, false, row, draws, stage)
    }

    #[inline]
    fn record_rows<R: BodyRows, D: Draws>(
        &self,
        rows: &R,
        draws: &mut D,
        stage: &mut Stage,
    ) -> Result<(), Refusal> {
        record_all(&self.writes, &self.actions, rows, draws, stage)
    }

    ghost declared = { λ s row draws h.
        script_declared s.writes.items s.kills s.actions.items row draws s.allowed };

    ghost settled = { λ s row mine later h.
        script_settled s.writes.items s.actions.items row mine later h };
}
