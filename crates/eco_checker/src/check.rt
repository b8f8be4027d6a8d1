//! Bytes that are checked.

ghost use Rattle.std.specs.Prelude.{◌≡◌, ℕ, List, ◌++◌, true, false, IfOk, string_bytes};
ghost use Rattle.serde_json.specs.View.{view};
ghost use Rattle.eco_steps.specs.Script.{WrittenScript, IsScript, IsScriptData};
ghost use Rattle.eco_checker.specs.Told.{AreFaultsOf, IsReport, script_line};

use crate::faults::Faults;
use crate::report::{push_json_fault, push_report};
use serde_json::Value;
use std::alloc::{AllocError, Global};

// Whether a value is a script. Adds the line that says so, or a line for each of its faults.
fn check_value(alloc: Global, value: &Value, text: &mut String) -> Result<bool, AllocError>
    ensures script { IfOk result (λ is. is ≡ true → (s : WrittenScript) × IsScriptData (view value.now) s) }
    ensures none { IfOk result (λ is. is ≡ false → (s : WrittenScript) → ¬ IsScriptData (view value.now) s) }
    ensures line { IfOk result (λ is. is ≡ true
        → string_bytes text.new ≡ string_bytes text.old ++ script_line) }
    ensures faults { IfOk result (λ is. is ≡ false
        → (told : List ℕ) × AreFaultsOf (view value.now) told
        × (string_bytes text.new ≡ string_bytes text.old ++ told)) }
{
    let faults = Faults::find(alloc, value)?;
    if faults.is_empty() {
        text.push_str("is a script\n")?;
        return Ok(true);
    }
    push_report(alloc, text, value, &faults)?;
    Ok(false)
}

/// Whether some bytes are a script. Adds the line `is a script`, or a line for each of their faults and their number.
pub fn check_bytes(alloc: Global, bytes: &[u8], text: &mut String) -> Result<bool, AllocError>
    ensures script { IfOk result (λ is. is ≡ true → (s : WrittenScript) × IsScript bytes.now s) }
    ensures none { IfOk result (λ is. is ≡ false → (s : WrittenScript) → ¬ IsScript bytes.now s) }
    ensures line { IfOk result (λ is. is ≡ true
        → string_bytes text.new ≡ string_bytes text.old ++ script_line) }
    ensures faults { IfOk result (λ is. is ≡ false
        → (told : List ℕ) × IsReport bytes.now told
        × (string_bytes text.new ≡ string_bytes text.old ++ told)) }
{
    match Value::from_slice(alloc, bytes) {
        Ok(value) => check_value(alloc, &value, text),
        Err(error) if error.is_memory() => Err(AllocError),
        Err(error) => {
            push_json_fault(alloc, text, &error)?;
            Ok(false)
        }
    }
}
