//! Scripts: which script a JSON value is.

ghost use Rattle.std.specs.Prelude.{◌≡◌, Some, None, All, IfOk, IsErrOf, map, option_map};
ghost use Rattle.serde_json.specs.View.{view};
ghost use Rattle.eco_steps.specs.Decode.{each_in, parts_in, step_in};
ghost use Rattle.eco_steps.specs.Steps.{KeepsTo};
ghost use Rattle.eco_steps.specs.Views.{step_view};

use crate::arguments::{read_limit, read_list, read_version};
use crate::read_error::ReadError;
use crate::step::WrittenStep;
use eco_ids::Edition;
use serde_json::Value;
use std::alloc::Global;

/// The edition and the limit of a world, and the steps that are run on it.
#[derive(Drop)]
pub struct WrittenScript<'a> {
    pub edition: Edition,
    pub limit: u32,
    pub steps: Vec<WrittenStep<'a>>,
}

// The edition, the limit, and the list of the steps, of what has the three parts of a script.
fn read_parts(value: &Value) -> Option<(Edition, u32, &[Value])>
    ensures { option_map (λ p. (p.0, p.1, map view p.2.now)) result ≡ parts_in (view value.now) }
{
    let [version, limit, steps] = read_list(value)? else {
        return None;
    };
    let edition = read_version(version)?;
    Some((edition, read_limit(edition, limit)?, read_list(steps)?))
}

// The steps of a list, if each item is one.
fn read_steps(
    alloc: Global,
    edition: Edition,
    values: &[Value],
) -> Result<Vec<WrittenStep<'_>>, ReadError>
    ensures ok { IfOk result (λ v.
        each_in (step_in edition) (map view values.now) ≡ Some (map step_view v.items)) }
    ensures not_a_script { IsErrOf result ReadError.NotAScript
        → each_in (step_in edition) (map view values.now) ≡ None }
{
    let mut steps = Vec::with_capacity(alloc, values.len())?;
    for value in values {
        let Some(step) = WrittenStep::read(edition, value) else {
            return Err(ReadError::NotAScript);
        };
        steps.push(step)?;
    }
    Ok(steps)
}

impl<'a> WrittenScript<'a> {
    ghost use Rattle.eco_steps.specs.Script as spec;
    ghost use Rattle.eco_steps.specs.Script.{IsScriptData};
    ghost use Rattle.eco_steps.specs.Views.{script_view};

    /// The script that a value is. It is read whole before any step is run.
    pub fn read(alloc: Global, value: &'a Value) -> Result<WrittenScript<'a>, ReadError>
        ensures ok { IfOk result (λ s. IsScriptData (view value.now) (script_view s)) }
        ensures keeps { IfOk result (λ s.
            All (λ step. KeepsTo s.edition (step_view step)) s.steps.items) }
        ensures not_a_script { IsErrOf result ReadError.NotAScript
            → (s : spec.WrittenScript) → ¬ IsScriptData (view value.now) s }
    {
        let Some((edition, limit, items)) = read_parts(value) else {
            return Err(ReadError::NotAScript);
        };
        let steps = read_steps(alloc, edition, items)?;
        Ok(WrittenScript {
            edition,
            limit,
            steps,
        })
    }
}
