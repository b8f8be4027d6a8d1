//! Stages and actions from the texts of a script, all of which are read on one world.

ghost use Rattle.std.specs.Prelude.{◌≡◌, ◌<◌, Some, IfOk, IsFalse, IsTrue, flat_map, length, option_map, string_bytes};
ghost use Rattle.eco_ids.specs.Outcome.{is_out_of_memory};
ghost use Rattle.eco_grammar.specs.Readings.{ok_map};
ghost use Rattle.eco_script.specs.Changes.{named_command};
ghost use Rattle.eco_script.specs.Recording.{ReadsAction, ReadsActions, ReadsChange, ReadsCommand, ReadsCommands, has_stages};
ghost use Rattle.eco_stages.specs.Commands.{command_of};
ghost use Rattle.eco_steps.specs.Actions as actions;
ghost use Rattle.eco_steps.specs.Commands as texts;
ghost use Rattle.eco_steps.specs.Views.{action_view, actions_view, change_view, command_view, commands_view, stages_view};
ghost use Rattle.eco_stages.specs.Merging.{all_commands};

use crate::changes::{Change, read_change};
use crate::references::{read_entity, read_id};
use eco_bodies::Action;
use eco_ids::Refusal;
use eco_steps::{Actions, Commands, Stages, WrittenAction, WrittenChange, WrittenCommand};
use eco_world::{Command, Stage, World};
use std::alloc::{AllocError, Global};

fn create(world: &World, handle: &str) -> Result<Command, Refusal>
    ensures { ReadsCommand world.now (texts.create handle.now) (ok_map command_of result) }
{
    Ok(Command::Create(read_entity(handle, world)?))
}

// A name of the command's own.
fn own_name(alloc: Global, name: Option<&str>) -> Result<Option<String>, AllocError>
    ensures { IfOk result (λ own. option_map string_bytes own ≡ option_map (λ s. s.now) name.entry) }
{
    match name {
        Some(name) => Ok(Some(String::from_str(alloc, name)?)),
        None => Ok(None),
    }
}

// The command that is a change. An `Err` comes where memory is refused for the name.
fn as_command(alloc: Global, change: Change<'_>) -> Result<Command, AllocError>
    ensures { IfOk result (λ command. command_of command ≡ named_command change.entry) }
{
    Ok(match change {
        Change::Add(entity, id) => Command::Add(entity, id),
        Change::Remove(entity, id) => Command::Remove(entity, id),
        Change::Set(entity, id, value) => Command::Set(entity, id, value),
        Change::Clear(entity) => Command::Clear(entity),
        Change::Rename(entity, name) => Command::Rename(entity, own_name(alloc, name)?),
        Change::Delete(entity) => Command::Delete(entity),
        Change::DeleteWith(id) => Command::DeleteWith(id),
        Change::RemoveAll(id) => Command::RemoveAll(id),
    })
}

// The command that the texts of a change name on a world.
fn record_change(
    alloc: Global,
    world: &World,
    change: WrittenChange<'_>,
) -> Result<Command, Refusal>
    ensures { IsFalse (is_out_of_memory result)
        → ReadsChange world.now (change_view change.entry) (ok_map command_of result) }
{
    let named = read_change(world, change)?;
    Ok(as_command(alloc, named)?)
}

// The command that texts name on a world.
fn read_command(
    alloc: Global,
    world: &World,
    command: WrittenCommand<'_>,
) -> Result<Command, Refusal>
    ensures { IsFalse (is_out_of_memory result)
        → ReadsCommand world.now (command_view command.entry) (ok_map command_of result) }
{
    match command {
        WrittenCommand::Create { handle } => create(world, handle),
        WrittenCommand::Change(change) => record_change(alloc, world, change),
    }
}

// The commands of a stage.
fn record_stage(alloc: Global, world: &World, commands: Commands<'_>) -> Result<Stage, Refusal>
    ensures { IsFalse (is_out_of_memory result)
        → ReadsCommands world.now (commands_view commands.entry) result }
{
    let mut stage = Stage::new(alloc);
    for place in 0..commands.len() {
        let command = read_command(alloc, world, commands.get(place).unwrap())?;
        if stage.record(command).is_err() {
            return Err(Refusal::OutOfMemory);
        }
    }
    Ok(stage)
}

/// The stages of a script, whose texts are read in their order on a world.
///
/// The error is that of the first text that is refused, or `OutOfMemory` where there is none for what is recorded.
pub fn record_stages(
    alloc: Global,
    world: &World,
    stages: Stages<'_>,
) -> Result<Vec<Stage>, Refusal>
    ensures read { IsFalse (is_out_of_memory result) → ReadsCommands world.now
        (flat_map (λ s. s) (stages_view stages.entry)) (ok_map (λ v. all_commands v.items) result) }
    ensures wanting { IsTrue (is_out_of_memory result) → IsTrue (has_stages (stages_view stages.entry)) }
{
    let mut recorded = Vec::with_capacity(alloc, stages.len())?;
    for place in 0..stages.len() {
        let stage = record_stage(alloc, world, stages.get(place).unwrap())?;
        recorded.push_reserved(stage);
    }
    Ok(recorded)
}

fn add_id(world: &World, id: &str) -> Result<Action, Refusal>
    ensures { ReadsAction world.now (actions.add id.now) result }
{
    Ok(Action::AddId(read_id(id, world)?))
}

fn remove_id(world: &World, id: &str) -> Result<Action, Refusal>
    ensures { ReadsAction world.now (actions.remove id.now) result }
{
    Ok(Action::RemoveId(read_id(id, world)?))
}

fn spawn(world: &World, id: &str) -> Result<Action, Refusal>
    ensures { ReadsAction world.now (actions.spawn (Some id.now)) result }
{
    Ok(Action::Spawn(Some(read_id(id, world)?)))
}

// The action that texts name on a world.
fn read_action(world: &World, action: WrittenAction<'_>) -> Result<Action, Refusal>
    ensures { ReadsAction world.now (action_view action.entry) result }
{
    match action {
        WrittenAction::Add { id } => add_id(world, id),
        WrittenAction::Remove { id } => remove_id(world, id),
        WrittenAction::Put { slot, value } => Ok(Action::Put { slot, value }),
        WrittenAction::Sum { into, from } => Ok(Action::Sum { into, from }),
        WrittenAction::Kill => Ok(Action::Kill),
        WrittenAction::Spawn { id: None } => Ok(Action::Spawn(None)),
        WrittenAction::Spawn { id: Some(id) } => spawn(world, id),
    }
}

/// The actions of a system, whose texts are read in their order on a world.
///
/// The error is that of the first text that is refused, or `OutOfMemory` where there is none for the list.
pub fn read_actions(
    alloc: Global,
    world: &World,
    actions: Actions<'_>,
) -> Result<Vec<Action>, Refusal>
    ensures read { IsFalse (is_out_of_memory result)
        → ReadsActions world.now (actions_view actions.entry) (ok_map (λ v. v.items) result) }
    ensures wanting { IsTrue (is_out_of_memory result) → 0 < length (actions_view actions.entry) }
{
    let mut read = Vec::with_capacity(alloc, actions.len())?;
    for place in 0..actions.len() {
        let action = read_action(world, actions.get(place).unwrap())?;
        read.push_reserved(action);
    }
    Ok(read)
}
