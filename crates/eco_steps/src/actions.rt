//! The actions of a system, as a script gives them.

ghost use Rattle.std.specs.Prelude.{◌≡◌, length, map, is_some, IsSome, option_map};
ghost use Rattle.std.specs.List.{list_all, slice_get};
ghost use Rattle.serde_json.specs.View.{view};
ghost use Rattle.eco_steps.specs.Decode.{action_in, each_in, actions_in};

use crate::action::WrittenAction;
use crate::arguments::{item_at, read_list};
use eco_ids::Edition;
use serde_json::Value;

/// A list of actions, which borrows them from the value that it was read from. Each is read again when it is asked for, so a list
/// of any length takes no memory.
#[derive(Clone, Copy)]
pub struct Actions<'a> {
    edition: Edition,
    values: &'a [Value],
    ghost are_actions: { IsSome (each_in (action_in edition) (map view values.now)) },
}

// Whether a value is an action.
fn is_action(edition: Edition, value: &Value) -> bool
    ensures { result ≡ is_some (action_in edition (view value.now)) }
{
    WrittenAction::read(edition, value).is_some()
}

// Whether each of some values is one.
fn are_actions(edition: Edition, values: &[Value]) -> bool
    ensures { result ≡ list_all (λ v. is_some (action_in edition (view v))) values.now }
{
    values.iter().all(|value| is_action(edition, value))
}

impl<'a> Actions<'a> {
    ghost use Rattle.eco_steps.specs.Views.{action_view, actions_view};

    /// The actions that a value lists in a script of an edition, if it is a list of actions.
    pub(crate) fn read(edition: Edition, value: &'a Value) -> Option<Actions<'a>>
        ensures { option_map actions_view result ≡ actions_in edition (view value.now) }
    {
        let values = read_list(value)?;
        if are_actions(edition, values) {
            Some(Actions { edition, values })
        } else {
            None
        }
    }

    /// How many actions there are.
    pub fn len(&self) -> usize
        ensures { result ≡ length (actions_view self.now) }
    {
        self.values.len()
    }

    /// The action at a place, counted from 0, if there is one.
    pub fn get(&self, place: usize) -> Option<WrittenAction<'a>>
        ensures { option_map action_view result ≡ slice_get (actions_view self.now) place }
    {
        let value = item_at(self.values, place)?;
        WrittenAction::read(self.edition, value)
    }
}
