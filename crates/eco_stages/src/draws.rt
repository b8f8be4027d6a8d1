//! Where fresh handles come from.
ghost use Rattle.std.specs.Prelude.{◌≡◌, ◌++◌, ◌∷◌, Bool, List, [], false, true, IfErr, IfOk};
ghost use Rattle.eco_ids.specs.declared.entity.Entity.{Entity as EntityData};
ghost use Rattle.eco_ids.specs.declared.refusal.Refusal.TheVariants.{NoMoreIds};

use eco_ids::{Entity, Refusal};

/// Where a system's body draws fresh handles from: those of indices that no entity had before, at generation 0. They live
/// once a `Create` of them was merged (Flecs manual, Systems, staging).
pub trait Draws {
    /// What a draw leaves as it was, for contracts alone. No value of it is made.
    type Rest;

    // The handles drawn so far, in order.
    ghost so_far: { Self → List EntityData };

    // A draw was refused.
    ghost is_dry: { Self → Bool };

    ghost rest: { Self → Self.Rest };

    /// The next fresh handle. `NoMoreIds` says that none is left.
    fn draw(&mut self) -> Result<Entity, Refusal>
        ensures ok { IfOk result (λ e. (so_far self.new ≡ so_far self.old ++ e ∷ [])
            × (is_dry self.new ≡ is_dry self.old)) }
        ensures err { IfErr result (λ why. (why ≡ NoMoreIds) × (so_far self.new ≡ so_far self.old)
            × (is_dry self.new ≡ true)) }
        ensures rest { rest self.new ≡ rest self.old };
}
