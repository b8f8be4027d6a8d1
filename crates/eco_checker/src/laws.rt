//! The law of the faults of scripts: a function that does nothing, and its contract is the law.
ghost use Rattle.eco_checker.specs.Laws.{AreThoseOfNoStep};

/// The numbers that are listed are exactly those of the values that are no step.
pub fn faults_are_those_of_no_step()
    ensures { AreThoseOfNoStep }
{
    eco_steps::laws::values_are_found();
}
