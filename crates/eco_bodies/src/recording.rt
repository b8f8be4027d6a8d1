//! A command recorded in a body's own words.
ghost use Rattle.std.specs.Prelude.{◌≡◌, ◌++◌, ◌∷◌, [], IfErr, OnErr, OnOk};
ghost use Rattle.eco_ids.specs.declared.refusal.Refusal.TheVariants.{OutOfMemory};
ghost use Rattle.eco_stages.specs.Commands.{command_of};

use eco_ids::Refusal;
use eco_stages::{Command, Stage};
use std::alloc::AllocError;

// Records a command behind those of the stage, which an `Err` leaves as it was. Its `Err` takes no room, so that bodies which
// pass it on keep more in registers.
#[inline(always)]
pub(crate) fn put_command(stage: &mut Stage, command: Command) -> Result<(), AllocError>
    ensures ok { OnOk result (stage.new ≡ stage.old ++ command_of command ∷ []) }
    ensures err { OnErr result (stage.new ≡ stage.old) }
{
    match stage.record(command) {
        Ok(()) => Ok(()),
        Err(_) => Err(AllocError),
    }
}

/// Records a command behind those of the stage (Flecs manual, Systems, staging). Refused with `OutOfMemory` alone, as a body
/// may answer it; the stage is as it was then, and the command is gone.
#[inline(always)]
pub fn record_command(stage: &mut Stage, command: Command) -> Result<(), Refusal>
    ensures ok { OnOk result (stage.new ≡ stage.old ++ command_of command ∷ []) }
    ensures why { IfErr result (λ why. why ≡ OutOfMemory) }
    ensures err { OnErr result (stage.new ≡ stage.old) }
{
    put_command(stage, command)?;
    Ok(())
}
