//! An action recorded for a row.
ghost use Rattle.std.specs.Prelude.{◌≡◌, ◌++◌, ◌∷◌, [], false, flat_map, option_to_list, IfErr, IfOk, IsTrue, List};
ghost use Rattle.std.specs.Prelude.{OnOk, Some};
ghost use Rattle.eco_ids.specs.declared.entity.Entity.{Entity as EntityData};
ghost use Rattle.eco_systems.specs.Systems.{matches_one};
ghost use Rattle.std.specs.List.{list_all};
ghost use Rattle.eco_bodies.specs.Lent.{item_at};
ghost use Rattle.eco_bodies.specs.RowSums.{set_sum_of};
ghost use Rattle.eco_bodies.specs.Scripts.{action_commands, change_by_action, fits_action, set_of, spawned, sum_at};
ghost use Rattle.eco_bodies.specs.Scripts.{takes_draws};
ghost use Rattle.eco_bodies.specs.Taking.{OneTook};
ghost use Rattle.eco_stages.specs.Taking.{Broke, stopped_by};

use crate::action::Action;
use crate::recording::put_command;
use crate::row::BodyRow;
use crate::rows::BodyRows;
use eco_ids::{Entity, Id, Pattern, Refusal, Value};
use eco_stages::{Command, Draws, Stage};
use std::alloc::AllocError;

// Whether one of some patterns matches.
#[inline(always)]
fn matches_one(patterns: &[Pattern], id: Id) -> bool
    ensures { result ≡ matches_one patterns.now id }
{
    patterns.iter().any(|pattern| pattern.matches(id))
}

// The entry of a slot.
#[inline(always)]
fn entry_in(entries: &[Option<Id>], slot: usize) -> Option<Id>
    ensures { result ≡ item_at entries.now slot }
{
    match entries.get(slot) {
        Some(entry) => *entry,
        None => None,
    }
}

// That of a row.
#[inline(always)]
fn entry_at<R: BodyRow>(row: &R, slot: usize) -> Option<Id>
    ensures { result ≡ item_at (R.row_of row.now).entries slot }
{
    entry_in(row.entries(), slot)
}

// Records that an id is set to a value, where it matches one of the patterns.
#[inline(always)]
fn set_id(
    writes: &[Pattern],
    entity: Entity,
    id: Id,
    value: Value,
    stage: &mut Stage,
) -> Result<(), AllocError>
    ensures ok { OnOk result (stage.new
        ≡ stage.old ++ option_to_list (set_of writes.now entity (Some id) (Some value))) }
{
    if !matches_one(writes, id) {
        return Ok(());
    }
    put_command(stage, Command::Set(entity, id, value))
}

// Records that an entry is set to a value, where it is there and matches one of the patterns. Apart, as `add_up` is.
#[inline(never)]
fn set_entry<R: BodyRow>(
    writes: &[Pattern],
    row: &R,
    slot: usize,
    value: &Value,
    stage: &mut Stage,
) -> Result<(), AllocError>
    ensures ok { OnOk result (stage.new ≡ stage.old ++ option_to_list (set_of writes.now
        (R.row_of row.now).entity (item_at (R.row_of row.now).entries slot) (Some value.now))) }
{
    match entry_at(row, slot) {
        Some(id) => set_id(writes, row.entity(), id, *value, stage),
        None => Ok(()),
    }
}

// Says that the branch that calls it is rare.
#[cold]
fn cold_path() {}

// Records that the entry of a slot is set to the sum of its value and another's, where there are both. Most rows have both. Apart:
// what a stage does with a command that has a value is long, and written out in loops over rows once more for each width of a sum
// it took the greater part of what a program takes to be translated.
#[inline(never)]
fn add_up<R: BodyRow>(
    writes: &[Pattern],
    row: &R,
    into: usize,
    from: usize,
    stage: &mut Stage,
) -> Result<(), AllocError>
    ensures ok { OnOk result (stage.new ≡ stage.old ++ option_to_list (set_of writes.now
        (R.row_of row.now).entity (item_at (R.row_of row.now).entries into)
        (sum_at (R.row_of row.now) into from))) }
{
    let Some(id) = entry_at(row, into) else {
        cold_path();
        return Ok(());
    };
    if entry_at(row, from).is_none() || !matches_one(writes, id) {
        cold_path();
        return Ok(());
    }
    row.set_sum(into, from, id, stage)
}

// Records that an id is set to the sum of the values in two slots, where there are both. Apart, as the function before.
#[inline(never)]
fn set_sum_apart<R: BodyRow>(
    row: &R,
    into: usize,
    from: usize,
    id: Id,
    stage: &mut Stage,
) -> Result<(), AllocError>
    ensures ok { OnOk result (stage.new ≡ stage.old ++ set_sum_of into from id (R.row_of row.now)) }
{
    row.set_sum(into, from, id, stage)
}

// Whether rows of these entries have what an action asks of them: a sum two entries, of which the first matches a pattern.
#[inline(always)]
fn fits_action(writes: &[Pattern], entries: &[Option<Id>], action: &Action) -> bool
    ensures { result ≡ fits_action writes.now entries.now action.now }
{
    let Action::Sum { into, from } = action else {
        return true;
    };
    match (entry_in(entries, *into), entry_in(entries, *from)) {
        (Some(id), Some(_)) => matches_one(writes, id),
        _ => false,
    }
}

/// Whether rows of these entries have what each of some actions asks of them.
pub(crate) fn fit_all(writes: &[Pattern], entries: &[Option<Id>], actions: &[Action]) -> bool
    ensures { result ≡ list_all (fits_action writes.now entries.now) actions.now }
{
    actions
        .iter()
        .all(|action| fits_action(writes, entries, action))
}

// Records the sum for rows that share their entries, of which it asks once.
#[inline(always)]
pub(crate) fn add_up_all<R: BodyRows>(
    writes: &[Pattern],
    rows: &R,
    into: usize,
    from: usize,
    stage: &mut Stage,
) -> Result<(), AllocError>
    ensures { OnOk result (stage.new ≡ stage.old ++ flat_map (λ row. option_to_list (set_of writes.now row.entity
        (item_at row.entries into) (sum_at row into from))) (R.rows_of rows.now)) }
{
    let entries = rows.entries();
    let Some(id) = entry_in(entries, into) else {
        return Ok(());
    };
    let Some(_other) = entry_in(entries, from) else {
        return Ok(());
    };
    if !matches_one(writes, id) {
        return Ok(());
    }
    rows.set_sums(into, from, id, stage)
}

// Records the change of the row's entity that an action makes. Less is asked where the row is known to have what it asks.
#[inline(always)]
fn record_change<R: BodyRow>(
    writes: &[Pattern],
    action: &Action,
    known: bool,
    row: &R,
    stage: &mut Stage,
) -> Result<(), AllocError>
    requires { IsTrue known → IsTrue (fits_action writes.now (R.row_of row.now).entries action.now) }
    ensures ok { OnOk result (stage.new
        ≡ stage.old ++ option_to_list (change_by_action writes.now (R.row_of row.now) action.now)) }
{
    match action {
        Action::AddId(id) => put_command(stage, Command::Add(row.entity(), *id)),
        Action::RemoveId(id) => put_command(stage, Command::Remove(row.entity(), *id)),
        Action::Put { slot, value } => set_entry(writes, row, *slot, value, stage),
        Action::Sum { into, from } => match entry_at(row, *into) {
            Some(id) if known => set_sum_apart(row, *into, *from, id, stage),
            _ => add_up(writes, row, *into, *from, stage),
        },
        Action::Kill => put_command(stage, Command::Delete(row.entity())),
        Action::Spawn(_) => Ok(()),
    }
}

// Draws a handle and records its making, and that it gets the id.
#[inline(always)]
fn spawn<D: Draws>(id: Option<Id>, draws: &mut D, stage: &mut Stage) -> Result<(), Refusal>
    requires { D.is_dry draws.old ≡ false }
    ensures rest { D.rest draws.new ≡ D.rest draws.old }
    ensures wet { IfOk result (λ _. D.is_dry draws.new ≡ false) }
    ensures ok { IfOk result (λ _. (e : EntityData) × (D.so_far draws.new ≡ D.so_far draws.old ++ e ∷ [])
        × ((later : List EntityData) → stage.new ≡ stage.old ++ spawned id (e ∷ later))) }
    ensures why { IfErr result (λ why. why ≡ stopped_by (D.is_dry draws.new)) }
    ensures err { IfErr result (λ _. Broke (λ _. 1) (D.so_far draws.old) (D.so_far draws.new)
        (D.is_dry draws.new)) }
{
    let entity = draws.draw()?;
    put_command(stage, Command::Create(entity))?;
    if let Some(id) = id {
        put_command(stage, Command::Add(entity, id))?;
    }
    Ok(())
}

/// Records an action for a row. Less is asked where the row is known to have what the action asks.
#[inline(always)]
pub(crate) fn record_action<R: BodyRow, D: Draws>(
    writes: &[Pattern],
    action: &Action,
    known: bool,
    row: &R,
    draws: &mut D,
    stage: &mut Stage,
) -> Result<(), Refusal>
    requires wet { D.is_dry draws.old ≡ false }
    requires known { IsTrue known → IsTrue (fits_action writes.now (R.row_of row.now).entries action.now) }
    ensures rest { D.rest draws.new ≡ D.rest draws.old }
    ensures wet { IfOk result (λ _. D.is_dry draws.new ≡ false) }
    ensures ok { IfOk result (λ _. OneTook
        (action_commands writes.now (R.row_of row.now)) takes_draws action.now
        (D.so_far draws.old) (D.so_far draws.new) stage.old stage.new) }
    ensures why { IfErr result (λ why. why ≡ stopped_by (D.is_dry draws.new)) }
    ensures err { IfErr result (λ _. Broke (takes_draws action.now) (D.so_far draws.old) (D.so_far draws.new)
        (D.is_dry draws.new)) }
{
    match *action {
        Action::Spawn(id) => spawn(id, draws, stage),
        _ => {
            record_change(writes, action, known, row, stage)?;
            Ok(())
        }
    }
}
