//! Laws of scripts: each function does nothing, and its contract is the law.
ghost use Rattle.eco_steps.specs.Laws.{AreOneScript, ScriptsAreFound, StepsAreFound};

/// Bytes are one script at most.
pub fn bytes_are_one_script()
    ensures { AreOneScript }
{}

/// What is found in a value is exactly the step, or the script, that it is.
pub fn values_are_found()
    ensures steps { StepsAreFound }
    ensures scripts { ScriptsAreFound }
{}
