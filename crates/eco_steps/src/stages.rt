//! The stages of a merge, as a script gives them.

ghost use Rattle.std.specs.Prelude.{◌≡◌, length, map, is_some, IsSome, option_map};
ghost use Rattle.std.specs.List.{list_all, slice_get};
ghost use Rattle.serde_json.specs.View.{view};
ghost use Rattle.eco_steps.specs.Decode.{each_in, stage_in, stages_in};

use crate::arguments::{item_at, read_list};
use crate::commands::Commands;
use eco_ids::Edition;
use serde_json::Value;

/// A list of stages, each a list of commands. It borrows them likewise.
#[derive(Clone, Copy)]
pub struct Stages<'a> {
    edition: Edition,
    values: &'a [Value],
    ghost are_stages: { IsSome (each_in (stage_in edition) (map view values.now)) },
}

// Whether a value is a stage.
fn is_stage(edition: Edition, value: &Value) -> bool
    ensures { result ≡ is_some (stage_in edition (view value.now)) }
{
    Commands::read(edition, value).is_some()
}

// Whether each of some values is one.
fn are_stages(edition: Edition, values: &[Value]) -> bool
    ensures { result ≡ list_all (λ v. is_some (stage_in edition (view v))) values.now }
{
    values.iter().all(|value| is_stage(edition, value))
}

impl<'a> Stages<'a> {
    ghost use Rattle.eco_steps.specs.Views.{commands_view, stages_view};

    /// The stages that a value lists in a script of an edition, if it is a list of lists of commands.
    pub(crate) fn read(edition: Edition, value: &'a Value) -> Option<Stages<'a>>
        ensures { option_map stages_view result ≡ stages_in edition (view value.now) }
    {
        let values = read_list(value)?;
        if are_stages(edition, values) {
            Some(Stages { edition, values })
        } else {
            None
        }
    }

    /// How many stages there are.
    pub fn len(&self) -> usize
        ensures { result ≡ length (stages_view self.now) }
    {
        self.values.len()
    }

    /// The stage at a place, counted from 0, if there is one.
    pub fn get(&self, place: usize) -> Option<Commands<'a>>
        ensures { option_map commands_view result ≡ slice_get (stages_view self.now) place }
    {
        let value = item_at(self.values, place)?;
        Commands::read_again(self.edition, value)
    }
}
