//! Commands of stages: which command a JSON value is.

ghost use Rattle.std.specs.Prelude.{◌≡◌, map, option_map};
ghost use Rattle.serde_json.specs.View.{view};
ghost use Rattle.eco_steps.specs.Decode.{command_in, command_with, created_of};
ghost use Rattle.eco_steps.specs.Views.{command_view};

use crate::arguments::read_words;
use crate::change::WrittenChange;
use eco_ids::Edition;
use serde_json::Value;

/// What a stage of a script may hold, with the texts of the value that it was read from.
#[derive(Clone, Copy)]
pub enum WrittenCommand<'a> {
    Create { handle: &'a str },
    Change(WrittenChange<'a>),
}

impl<'a> WrittenCommand<'a> {
    // The command that makes a handle alive, with these arguments.
    fn create(arguments: &'a [Value]) -> Option<WrittenCommand<'a>>
        ensures { option_map command_view result ≡ created_of (map view arguments.now) }
    {
        let [handle] = arguments else {
            return None;
        };
        Some(WrittenCommand::Create {
            handle: handle.as_str()?,
        })
    }

    // The command with these arguments.
    fn of(edition: Edition, word: &str, arguments: &'a [Value]) -> Option<WrittenCommand<'a>>
        ensures { option_map command_view result
            ≡ command_with edition word.now (map view arguments.now) }
    {
        match word {
            "create" => WrittenCommand::create(arguments),
            _ => Some(WrittenCommand::Change(WrittenChange::of(edition, word, arguments)?)),
        }
    }

    /// The command that a value is in a script of an edition, if it is one.
    pub fn read(edition: Edition, value: &'a Value) -> Option<WrittenCommand<'a>>
        ensures { option_map command_view result ≡ command_in edition (view value.now) }
    {
        let (word, arguments) = read_words(value)?;
        WrittenCommand::of(edition, word, arguments)
    }
}
