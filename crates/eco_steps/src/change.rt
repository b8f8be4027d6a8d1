//! Changes of a world: which change a JSON value asks for.

ghost use Rattle.std.specs.Prelude.{◌≡◌, map, option_and_then, option_map};
ghost use Rattle.serde_json.specs.Find.{as_str};
ghost use Rattle.serde_json.specs.View.{view};
ghost use Rattle.eco_steps.specs.Decode.{change_with, change_of_text, change_of_texts, change_of_three, change_of_two};
ghost use Rattle.eco_steps.specs.Views.{change_view};

use crate::arguments::{read_name, read_value};
use eco_ids::Edition;
use serde_json::Value;

/// What a step of a script and a command of a stage may both ask for, with the texts of the value that it was read from.
#[derive(Clone, Copy)]
pub enum WrittenChange<'a> {
    Add {
        entity: &'a str,
        id: &'a str,
    },
    Remove {
        entity: &'a str,
        id: &'a str,
    },
    Set {
        entity: &'a str,
        id: &'a str,
        value: eco_ids::Value,
    },
    Clear {
        entity: &'a str,
    },
    Rename {
        entity: &'a str,
        name: Option<&'a str>,
    },
    Delete {
        entity: &'a str,
    },
    DeleteWith {
        id: &'a str,
    },
    RemoveAll {
        id: &'a str,
    },
}

impl<'a> WrittenChange<'a> {
    // A change with one text.
    fn of_text(word: &str, argument: &'a Value) -> Option<WrittenChange<'a>>
        ensures { option_map change_view result
            ≡ option_and_then (change_of_text word.now) (as_str (view argument.now)) }
    {
        let text = argument.as_str()?;
        let change = match word {
            "clear" => WrittenChange::Clear { entity: text },
            "delete" => WrittenChange::Delete { entity: text },
            "delete_with" => WrittenChange::DeleteWith { id: text },
            "remove_all" => WrittenChange::RemoveAll { id: text },
            _ => return None,
        };
        Some(change)
    }

    // A change with two texts.
    fn of_texts(word: &str, entity: &'a str, id: &'a str) -> Option<WrittenChange<'a>>
        ensures { option_map change_view result
            ≡ change_of_texts word.now entity.entry.now id.entry.now }
    {
        match word {
            "add" => Some(WrittenChange::Add { entity, id }),
            "remove" => Some(WrittenChange::Remove { entity, id }),
            _ => None,
        }
    }

    // A change with a text and another argument.
    fn of_two(word: &str, first: &'a Value, argument: &'a Value) -> Option<WrittenChange<'a>>
        ensures { option_map change_view result
            ≡ option_and_then (λ text. change_of_two word.now text (view argument.now))
            (as_str (view first.now)) }
    {
        let entity = first.as_str()?;
        match word {
            "rename" => Some(WrittenChange::Rename {
                entity,
                name: read_name(argument)?,
            }),
            _ => WrittenChange::of_texts(word, entity, argument.as_str()?),
        }
    }

    // A change with two texts and another argument.
    fn of_three(
        edition: Edition,
        word: &str,
        first: &'a Value,
        second: &'a Value,
        argument: &'a Value,
    ) -> Option<WrittenChange<'a>>
        ensures { option_map change_view result
            ≡ option_and_then (λ text. option_and_then (λ other.
            change_of_three edition word.now text other (view argument.now)) (as_str (view second.now)))
            (as_str (view first.now)) }
    {
        let (entity, id) = (first.as_str()?, second.as_str()?);
        match word {
            "set" => Some(WrittenChange::Set {
                entity,
                id,
                value: read_value(edition, argument)?,
            }),
            _ => None,
        }
    }

    /// The change with these arguments, if there is one of this word in a script of an edition.
    pub(crate) fn of(
        edition: Edition,
        word: &str,
        arguments: &'a [Value],
    ) -> Option<WrittenChange<'a>>
        ensures { option_map change_view result
            ≡ change_with edition word.now (map view arguments.now) }
    {
        match arguments {
            [text] => WrittenChange::of_text(word, text),
            [text, argument] => WrittenChange::of_two(word, text, argument),
            [text, other, argument] => {
                WrittenChange::of_three(edition, word, text, other, argument)
            }
            _ => None,
        }
    }
}
