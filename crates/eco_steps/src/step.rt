//! Steps: which step a JSON value is.

ghost use Rattle.std.specs.Prelude.{◌≡◌, map, option_map};
ghost use Rattle.serde_json.specs.View.{view};
ghost use Rattle.eco_steps.specs.Decode.{merge_of_data, named_system_of_data, step_in, step_of, step_of_none, step_of_one, step_of_text};
ghost use Rattle.eco_steps.specs.Decode.{step_of_texts, step_of_two, system_of_data};

use crate::actions::Actions;
use crate::arguments::{read_arity, read_number, read_words};
use crate::change::WrittenChange;
use crate::phase::read_phase;
use crate::stages::Stages;
use eco_ids::Edition;
use eco_systems::Phase;
use serde_json::Value;

/// What a script may ask for, with the texts of the value that it was read from.
#[derive(Clone, Copy)]
pub enum WrittenStep<'a> {
    Create(Option<&'a str>),
    Component {
        name: &'a str,
        arity: u8,
    },
    Change(WrittenChange<'a>),
    Has {
        entity: &'a str,
        id: &'a str,
    },
    Get {
        entity: &'a str,
        id: &'a str,
    },
    Show {
        entity: &'a str,
    },
    List,
    Query {
        text: &'a str,
    },
    Cache {
        text: &'a str,
    },
    Cached {
        query: u32,
    },
    Merge {
        admitted: u32,
        stages: Stages<'a>,
    },
    System {
        name: &'a str,
        phase: Phase,
        query: &'a str,
        actions: Actions<'a>,
    },
    Frame,
}

impl<'a> WrittenStep<'a> {
    ghost use Rattle.eco_steps.specs.Views.{step_view};

    // A step without arguments.
    fn of_none(word: &str) -> Option<WrittenStep<'a>>
        ensures { option_map step_view result ≡ step_of_none word.now }
    {
        let step = match word {
            "create" => WrittenStep::Create(None),
            "list" => WrittenStep::List,
            "frame" => WrittenStep::Frame,
            _ => return None,
        };
        Some(step)
    }

    // A step with one text.
    fn of_text(word: &str, text: &'a str) -> Option<WrittenStep<'a>>
        ensures { option_map step_view result ≡ step_of_text word.now text.entry.now }
    {
        let step = match word {
            "create" => WrittenStep::Create(Some(text)),
            "show" => WrittenStep::Show { entity: text },
            "query" => WrittenStep::Query { text },
            "cache" => WrittenStep::Cache { text },
            _ => return None,
        };
        Some(step)
    }

    // A step with one argument.
    fn of_one(word: &str, argument: &'a Value) -> Option<WrittenStep<'a>>
        ensures { option_map step_view result ≡ step_of_one word.now (view argument.now) }
    {
        match word {
            "cached" => Some(WrittenStep::Cached {
                query: read_number(argument, 0, u32::MAX)?,
            }),
            _ => WrittenStep::of_text(word, argument.as_str()?),
        }
    }

    // A step with two texts.
    fn of_texts(word: &str, entity: &'a str, id: &'a str) -> Option<WrittenStep<'a>>
        ensures { option_map step_view result ≡ step_of_texts word.now entity.entry.now id.entry.now }
    {
        let step = match word {
            "has" => WrittenStep::Has { entity, id },
            "get" => WrittenStep::Get { entity, id },
            _ => return None,
        };
        Some(step)
    }

    // A step with a text and another argument.
    fn of_two(
        edition: Edition,
        word: &str,
        text: &'a str,
        argument: &'a Value,
    ) -> Option<WrittenStep<'a>>
        ensures { option_map step_view result
            ≡ step_of_two edition word.now text.entry.now (view argument.now) }
    {
        match word {
            "component" => Some(WrittenStep::Component {
                name: text,
                arity: read_arity(edition, argument)?,
            }),
            _ => WrittenStep::of_texts(word, text, argument.as_str()?),
        }
    }

    // A step with these arguments.
    fn of(edition: Edition, word: &str, arguments: &'a [Value]) -> Option<WrittenStep<'a>>
        ensures { option_map step_view result ≡ step_of edition word.now (map view arguments.now) }
    {
        match arguments {
            [] => WrittenStep::of_none(word),
            [argument] => WrittenStep::of_one(word, argument),
            [text, argument] => WrittenStep::of_two(edition, word, text.as_str()?, argument),
            _ => None,
        }
    }

    // A merge with these arguments.
    fn merge(edition: Edition, arguments: &'a [Value]) -> Option<WrittenStep<'a>>
        ensures { option_map step_view result ≡ merge_of_data edition (map view arguments.now) }
    {
        let [admitted, stages] = arguments else {
            return None;
        };
        Some(WrittenStep::Merge {
            admitted: read_number(admitted, 0, 1_048_576)?,
            stages: Stages::read(edition, stages)?,
        })
    }

    // A system with this name and these further arguments.
    fn system_with(
        edition: Edition,
        name: &'a str,
        phase: &Value,
        query: &'a Value,
        actions: &'a Value,
    ) -> Option<WrittenStep<'a>>
        ensures { option_map step_view result
            ≡ named_system_of_data edition name.entry.now (view phase.now) (view query.now)
            (view actions.now) }
    {
        Some(WrittenStep::System {
            name,
            phase: read_phase(phase)?,
            query: query.as_str()?,
            actions: Actions::read(edition, actions)?,
        })
    }

    // A system with these arguments.
    fn system(edition: Edition, arguments: &'a [Value]) -> Option<WrittenStep<'a>>
        ensures { option_map step_view result ≡ system_of_data edition (map view arguments.now) }
    {
        let [name, phase, query, actions] = arguments else {
            return None;
        };
        WrittenStep::system_with(edition, name.as_str()?, phase, query, actions)
    }

    /// The step that a value is in a script of an edition, if it is one.
    pub fn read(edition: Edition, value: &'a Value) -> Option<WrittenStep<'a>>
        ensures { option_map step_view result ≡ step_in edition (view value.now) }
    {
        let (word, arguments) = read_words(value)?;
        match word {
            "merge" => WrittenStep::merge(edition, arguments),
            "system" => WrittenStep::system(edition, arguments),
            _ => match WrittenChange::of(edition, word, arguments) {
                Some(change) => Some(WrittenStep::Change(change)),
                None => WrittenStep::of(edition, word, arguments),
            },
        }
    }
}
