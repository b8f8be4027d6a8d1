//! The commands of a stage, as a script gives them.

ghost use Rattle.std.specs.Prelude.{◌≡◌, length, map, is_some, IsSome, option_map};
ghost use Rattle.std.specs.List.{list_all, slice_get};
ghost use Rattle.serde_json.specs.View.{view};
ghost use Rattle.eco_steps.specs.Decode.{command_in, each_in, stage_in};

use crate::arguments::{item_at, read_list};
use crate::command::WrittenCommand;
use eco_ids::Edition;
use serde_json::Value;

/// A list of commands, which borrows them from the value that it was read from. Each is read again when it is asked for, so a list
/// of any length takes no memory.
#[derive(Clone, Copy)]
pub struct Commands<'a> {
    edition: Edition,
    values: &'a [Value],
    ghost are_commands: { IsSome (each_in (command_in edition) (map view values.now)) },
}

// Whether a value is a command.
fn is_command(edition: Edition, value: &Value) -> bool
    ensures { result ≡ is_some (command_in edition (view value.now)) }
{
    WrittenCommand::read(edition, value).is_some()
}

// Whether each of some values is one.
fn are_commands(edition: Edition, values: &[Value]) -> bool
    ensures { result ≡ list_all (λ v. is_some (command_in edition (view v))) values.now }
{
    values.iter().all(|value| is_command(edition, value))
}

impl<'a> Commands<'a> {
    ghost use Rattle.eco_steps.specs.Views.{command_view, commands_view};

    /// The commands that a value lists in a script of an edition, if it is a list of commands.
    pub(crate) fn read(edition: Edition, value: &'a Value) -> Option<Commands<'a>>
        ensures { option_map commands_view result ≡ stage_in edition (view value.now) }
    {
        let values = read_list(value)?;
        if are_commands(edition, values) {
            Some(Commands { edition, values })
        } else {
            None
        }
    }

    /// The same of a value that was read before, so that they aren't looked through again.
    pub(crate) fn read_again(edition: Edition, value: &'a Value) -> Option<Commands<'a>>
        requires { IsSome (stage_in edition (view value.now)) }
        ensures { option_map commands_view result ≡ stage_in edition (view value.now) }
    {
        let values = read_list(value)?;
        Some(Commands { edition, values })
    }

    /// How many commands there are.
    pub fn len(&self) -> usize
        ensures { result ≡ length (commands_view self.now) }
    {
        self.values.len()
    }

    /// The command at a place, counted from 0, if there is one.
    pub fn get(&self, place: usize) -> Option<WrittenCommand<'a>>
        ensures { option_map command_view result ≡ slice_get (commands_view self.now) place }
    {
        let value = item_at(self.values, place)?;
        WrittenCommand::read(self.edition, value)
    }
}
