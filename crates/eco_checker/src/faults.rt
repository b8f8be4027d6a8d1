//! What keeps a value from being a script.

ghost use Rattle.std.specs.Prelude.{◌≡◌, ◌↔◌, [], ◌∷◌, is_some, map, unwrap_or, IfOk, IsTrue};
ghost use Rattle.serde_json.specs.View.{view};
ghost use Rattle.eco_steps.specs.Decode.{list_in, parts_in, parts_of, step_in};
ghost use Rattle.eco_steps.specs.Script.{WrittenScript, IsScriptData};
ghost use Rattle.eco_checker.specs.Faults.{edition_in, items_in, numbers_without};

use crate::search::steps_not_read;
use eco_ids::Edition;
use eco_steps::{read_limit, read_list, read_version};
use serde_json::Value;
use std::alloc::{AllocError, Global};

/// What keeps a value from being a script: all of it.
#[derive(Drop)]
pub struct Faults<'a> {
    /// Whether the value is a list of three: a version, a limit that its edition allows, and a list.
    pub has_head: bool,
    /// The edition that the steps are judged by: that of the version, or the second, which allows more, where there is none.
    pub edition: Edition,
    /// What the list of steps holds, where the value is a list of three whose third is a list, whatever stands in front.
    pub items: &'a [Value],
    /// The numbers, from 0 and ascending, of the items that are no step.
    pub steps: Vec<usize>,
}

// The items of a list, and none of anything else.
fn items_of(value: &Value) -> &[Value]
    ensures { map view result.now ≡ unwrap_or (list_in (view value.now)) [] }
{
    read_list(value).unwrap_or(&[])
}

// Whether three values are the parts of a script.
fn are_parts(version: &Value, limit: &Value, steps: &Value) -> bool
    ensures { result ≡ is_some (parts_of (view version.now ∷ view limit.now ∷ view steps.now ∷ [])) }
{
    match read_version(version) {
        Some(edition) => read_limit(edition, limit).is_some() && read_list(steps).is_some(),
        None => false,
    }
}

// Whether a value has the three parts of a script.
fn has_parts(value: &Value) -> bool
    ensures { result ≡ is_some (parts_in (view value.now)) }
{
    match read_list(value) {
        Some([version, limit, steps]) => are_parts(version, limit, steps),
        _ => false,
    }
}

// The items of the list of steps.
fn step_items(value: &Value) -> &[Value]
    ensures { map view result.now ≡ items_in (view value.now) }
{
    match items_of(value) {
        [_, _, steps] => items_of(steps),
        _ => &[],
    }
}

// The edition that the steps are judged by.
fn steps_edition(value: &Value) -> Edition
    ensures { result ≡ edition_in (view value.now) }
{
    match items_of(value) {
        [version, _, _] => read_version(version).unwrap_or(Edition::Second),
        _ => Edition::Second,
    }
}

impl<'a> Faults<'a> {
    ghost use Rattle.eco_checker.specs.Clean.{IsClean};

    /// All faults of a value. There are none exactly where the value is a script.
    pub fn find(alloc: Global, value: &'a Value) -> Result<Faults<'a>, AllocError>
        ensures head { IfOk result (λ f. f.has_head ≡ is_some (parts_in (view value.now))) }
        ensures edition { IfOk result (λ f. f.edition ≡ edition_in (view value.now)) }
        ensures items { IfOk result (λ f. map view f.items.now ≡ items_in (view value.now)) }
        ensures steps { IfOk result (λ f. f.steps.items
            ≡ numbers_without (step_in (edition_in (view value.now))) 0 (items_in (view value.now))) }
        ensures script { IfOk result (λ f. IsClean f
            → (s : WrittenScript) × IsScriptData (view value.now) s) }
        ensures none { IfOk result (λ f. (s : WrittenScript) → IsScriptData (view value.now) s → IsClean f) }
    {
        eco_steps::laws::values_are_found();
        let has_head = has_parts(value);
        let edition = steps_edition(value);
        let items = step_items(value);
        let steps = steps_not_read(alloc, edition, items)?;
        Ok(Faults {
            has_head,
            edition,
            items,
            steps,
        })
    }

    /// Whether there is no fault.
    pub fn is_empty(&self) -> bool
        ensures { IsTrue result ↔ IsClean self.now }
    {
        self.has_head && self.steps.is_empty()
    }
}
