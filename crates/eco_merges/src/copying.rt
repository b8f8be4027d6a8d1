//! Stages that are copied.
ghost use Rattle.std.specs.Prelude.{◌≡◌, ◌++◌, IfOk};
ghost use Rattle.eco_stages.specs.Merging.{all_commands};

use eco_stages::Stage;
use std::alloc::{AllocError, Global};

/// The commands of all stages in one, in order, each copied. An `Err` comes where memory is refused.
pub fn copies_of(alloc: Global, stages: &[Stage]) -> Result<Stage, AllocError>
    ensures { IfOk result (λ copy. copy ≡ all_commands stages.now) }
{
    let mut copy = Stage::new(alloc);
    record_each(&mut copy, stages)?;
    Ok(copy)
}

// The commands of all stages come last, in order, each copied. An `Err` may leave some of them.
fn record_each(copy: &mut Stage, stages: &[Stage]) -> Result<(), AllocError>
    ensures { IfOk result (λ _. copy.new ≡ copy.old ++ all_commands stages.now) }
{
    for stage in stages {
        copy.record_copies(stage)?;
    }
    Ok(())
}
