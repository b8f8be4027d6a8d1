//! Which of some values are none of what they have to be.

ghost use Rattle.std.specs.Prelude.{◌≡◌, ◌++◌, map, IfOk, OnOk};
ghost use Rattle.serde_json.specs.View.{view};
ghost use Rattle.eco_steps.specs.Decode.{action_in, command_in, step_in};
ghost use Rattle.eco_checker.specs.Faults.{numbers_without, unless_read};

use eco_ids::Edition;
use eco_steps::{WrittenAction, WrittenCommand, WrittenStep};
use serde_json::Value;
use std::alloc::{AllocError, Global};

// Adds the number of a value, unless the value was read.
fn push_unless_read(
    numbers: &mut Vec<usize>,
    number: usize,
    is_read: bool,
) -> Result<(), AllocError>
    ensures { OnOk result (numbers.new.items ≡ numbers.old.items ++ unless_read is_read number) }
{
    if !is_read {
        numbers.push(number)?;
    }
    Ok(())
}

/// The numbers, from 0 and ascending, of the values that are no step of a script of an edition.
pub fn steps_not_read(
    alloc: Global,
    edition: Edition,
    values: &[Value],
) -> Result<Vec<usize>, AllocError>
    ensures { IfOk result (λ v. v.items ≡ numbers_without (step_in edition) 0 (map view values.now)) }
{
    let mut numbers = Vec::new(alloc);
    for (number, value) in values.iter().enumerate() {
        let is_read = WrittenStep::read(edition, value).is_some();
        push_unless_read(&mut numbers, number, is_read)?;
    }
    Ok(numbers)
}

/// The numbers, likewise, of the values that are no command of a stage.
pub fn commands_not_read(
    alloc: Global,
    edition: Edition,
    values: &[Value],
) -> Result<Vec<usize>, AllocError>
    ensures { IfOk result (λ v. v.items ≡ numbers_without (command_in edition) 0 (map view values.now)) }
{
    let mut numbers = Vec::new(alloc);
    for (number, value) in values.iter().enumerate() {
        let is_read = WrittenCommand::read(edition, value).is_some();
        push_unless_read(&mut numbers, number, is_read)?;
    }
    Ok(numbers)
}

/// The numbers, likewise, of the values that are no action of a system.
pub fn actions_not_read(
    alloc: Global,
    edition: Edition,
    values: &[Value],
) -> Result<Vec<usize>, AllocError>
    ensures { IfOk result (λ v. v.items ≡ numbers_without (action_in edition) 0 (map view values.now)) }
{
    let mut numbers = Vec::new(alloc);
    for (number, value) in values.iter().enumerate() {
        let is_read = WrittenAction::read(edition, value).is_some();
        push_unless_read(&mut numbers, number, is_read)?;
    }
    Ok(numbers)
}
