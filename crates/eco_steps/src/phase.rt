//! Phases of systems: which phase a JSON value is.

ghost use Rattle.std.specs.Prelude.{◌≡◌, option_and_then};
ghost use Rattle.serde_json.specs.Find.{as_str};
ghost use Rattle.serde_json.specs.View.{view};
ghost use Rattle.eco_steps.specs.Decode.{phase_of};

use eco_systems::Phase;
use serde_json::Value;

// The phase of a word.
fn phase_of(word: &str) -> Option<Phase>
    ensures { result ≡ phase_of word.now }
{
    let phase = match word {
        "OnLoad" => Phase::OnLoad,
        "PostLoad" => Phase::PostLoad,
        "PreUpdate" => Phase::PreUpdate,
        "OnUpdate" => Phase::OnUpdate,
        "OnValidate" => Phase::OnValidate,
        "PostUpdate" => Phase::PostUpdate,
        "PreStore" => Phase::PreStore,
        "OnStore" => Phase::OnStore,
        _ => return None,
    };
    Some(phase)
}

/// The phase whose name a value is.
pub fn read_phase(value: &Value) -> Option<Phase>
    ensures { result ≡ option_and_then phase_of (as_str (view value.now)) }
{
    phase_of(value.as_str()?)
}
