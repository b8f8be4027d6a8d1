//! What a piece of a batch records.
ghost use Rattle.std.specs.Prelude.{◌≡◌, ℕ, List, false, IfErr, IfOk};
ghost use Rattle.eco_ids.specs.declared.entity.Entity.{Entity as EntityData};
ghost use Rattle.eco_ids.specs.Run.{Command};
ghost use Rattle.eco_stages.specs.Taking.{Broke, Took, stopped_by};

use eco_ids::Refusal;
use eco_stages::{Draws, Stage};

/// A piece of a batch: some rows of a system, recorded by one thread (Flecs manual, Systems, multithreading). The commands, and
/// how many fresh handles it draws, are a function of the piece and of the handles that are there to draw.
pub trait Piece {
    // The commands of the piece, with these handles to draw, of which it takes some from the front.
    ghost commands: { Self → List EntityData → List Command };

    // How many it takes.
    ghost taken: { Self → List EntityData → ℕ };

    /// Records the commands of the piece, behind those of the stage. No draw was refused before. Refused with `NoMoreIds` where
    /// a draw was refused, else with `OutOfMemory`; the stage then may hold some of the commands, and is not merged.
    fn record<D: Draws>(&self, draws: &mut D, stage: &mut Stage) -> Result<(), Refusal>
        requires { D.is_dry draws.old ≡ false }
        ensures rest { D.rest draws.new ≡ D.rest draws.old }
        ensures wet { IfOk result (λ _. D.is_dry draws.new ≡ false) }
        ensures ok { IfOk result (λ _. Took (commands self.now) (taken self.now)
            (D.so_far draws.old) (D.so_far draws.new) stage.old stage.new) }
        ensures why { IfErr result (λ why. why ≡ stopped_by (D.is_dry draws.new)) }
        ensures err { IfErr result (λ _. Broke (taken self.now)
            (D.so_far draws.old) (D.so_far draws.new) (D.is_dry draws.new)) };
}
