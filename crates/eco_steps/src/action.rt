//! Actions of systems: which action a JSON value is.

ghost use Rattle.std.specs.Prelude.{◌≡◌, map, option_and_then, option_map};
ghost use Rattle.serde_json.specs.Find.{as_str};
ghost use Rattle.serde_json.specs.View.{view};
ghost use Rattle.eco_steps.specs.Decode.{action_in, action_of, action_of_none, action_of_slot, action_of_text, slot_in};
ghost use Rattle.eco_steps.specs.Views.{action_view};

use crate::arguments::{read_number, read_value, read_words};
use eco_ids::Edition;
use serde_json::Value;

/// What a system of a script may do with a row of its query, with the texts of the value that it was read from. Slots are counted
/// from 0, and are 31 at most.
#[derive(Clone, Copy)]
pub enum WrittenAction<'a> {
    Add { id: &'a str },
    Remove { id: &'a str },
    Put { slot: usize, value: eco_ids::Value },
    Sum { into: usize, from: usize },
    Kill,
    Spawn { id: Option<&'a str> },
}

// The number of a slot.
fn read_slot(value: &Value) -> Option<usize>
    ensures { result ≡ slot_in (view value.now) }
{
    Some(read_number(value, 0, 31)? as usize)
}

impl<'a> WrittenAction<'a> {
    // An action without arguments.
    fn of_none(word: &str) -> Option<WrittenAction<'a>>
        ensures { option_map action_view result ≡ action_of_none word.now }
    {
        match word {
            "kill" => Some(WrittenAction::Kill),
            "spawn" => Some(WrittenAction::Spawn { id: None }),
            _ => None,
        }
    }

    // An action with one text.
    fn of_text(word: &str, argument: &'a Value) -> Option<WrittenAction<'a>>
        ensures { option_map action_view result
            ≡ option_and_then (action_of_text word.now) (as_str (view argument.now)) }
    {
        let id = argument.as_str()?;
        match word {
            "add" => Some(WrittenAction::Add { id }),
            "remove" => Some(WrittenAction::Remove { id }),
            "spawn" => Some(WrittenAction::Spawn { id: Some(id) }),
            _ => None,
        }
    }

    // An action with a slot and another argument.
    fn of_slot(
        edition: Edition,
        word: &str,
        first: &Value,
        argument: &Value,
    ) -> Option<WrittenAction<'a>>
        ensures { option_map action_view result
            ≡ option_and_then (λ slot. action_of_slot edition word.now slot (view argument.now))
            (slot_in (view first.now)) }
    {
        let slot = read_slot(first)?;
        match word {
            "put" => Some(WrittenAction::Put {
                slot,
                value: read_value(edition, argument)?,
            }),
            "sum" => Some(WrittenAction::Sum {
                into: slot,
                from: read_slot(argument)?,
            }),
            _ => None,
        }
    }

    // An action with these arguments.
    fn of(edition: Edition, word: &str, arguments: &'a [Value]) -> Option<WrittenAction<'a>>
        ensures { option_map action_view result ≡ action_of edition word.now (map view arguments.now) }
    {
        match arguments {
            [] => WrittenAction::of_none(word),
            [id] => WrittenAction::of_text(word, id),
            [slot, argument] => WrittenAction::of_slot(edition, word, slot, argument),
            _ => None,
        }
    }

    /// The action that a value is in a script of an edition, if it is one.
    pub fn read(edition: Edition, value: &'a Value) -> Option<WrittenAction<'a>>
        ensures { option_map action_view result ≡ action_in edition (view value.now) }
    {
        let (word, arguments) = read_words(value)?;
        WrittenAction::of(edition, word, arguments)
    }
}
