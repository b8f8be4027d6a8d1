//! Values and counts as a report shows them.

ghost use Rattle.std.specs.Prelude.{◌≡◌};
ghost use Rattle.eco_checker.specs.Lines.{plural_end};

use serde_json::Value;
use std::alloc::{AllocError, Global};

/// How many characters of a step are shown at most.
pub(crate) const STEP_WIDTH: usize = 100;

/// How many characters of an argument are shown at most.
pub(crate) const ARGUMENT_WIDTH: usize = 40;

// Adds a text. Where it has more than `width` characters, the first of them stand for it, with three dots.
fn push_start(text: &mut String, whole: &str, width: usize) -> Result<(), AllocError> {
    for (count, character) in whole.chars().enumerate() {
        if count >= width {
            return text.push_str("...");
        }
        text.push(character)?;
    }
    Ok(())
}

/// Adds a value as compact JSON, of `width` characters at most, and three dots where it has more.
pub(crate) fn push_value(
    alloc: Global,
    text: &mut String,
    value: &Value,
    width: usize,
) -> Result<(), AllocError> {
    let whole = value.to_string(alloc)?;
    push_start(text, whole.as_str(), width)
}

/// What stands behind a word where there are so many of what it names.
pub(crate) fn plural(count: usize) -> &'static str
    ensures { result.now ≡ plural_end count }
{
    if count == 1 { "" } else { "s" }
}
