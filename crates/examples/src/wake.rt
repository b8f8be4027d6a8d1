//! A body in Rust: it notes where a ship is.
ghost use Rattle.std.specs.Prelude.{◌≡◌, ◌∷◌, [], false, refl};
ghost use Rattle.eco_ids.specs.declared.pattern.Pattern.TheVariants as pattern;
ghost use Rattle.eco_bodies.specs.Lent.{item_at};
ghost use Rattle.examples.specs.Wakes.{noted, noted_is_declared};

use eco_frame::{BodyRow, Draws, SystemBody, record_command};
use eco_ids::{Entity, Id, Pattern, Refusal};
use eco_world::{Command, Stage};

/// Sets a component of each row's entity to the value of the query's first slot.
#[derive(Drop)]
pub struct Wake {
    wake: Entity,
    writes: [Pattern; 1],
    ghost own: { writes ≡ pattern.One wake ∷ [] },
}

impl Wake {
    /// The body that sets this component.
    pub fn new(wake: Entity) -> Wake {
        Wake {
            wake,
            writes: [Pattern::One(wake)],
        }
    }
}

impl SystemBody for Wake {
    // It reads what its system's query asks for, and no more.
    ghost reads_of = { λ s. [] };

    ghost writes_of = { λ s. s.writes };

    ghost kills_of = { λ s. false };

    // What it records for a row, and how many fresh handles it draws.
    ghost commands = { λ s row draws. noted s.wake row.entity (item_at row.values 0) };

    ghost taken = { λ s row draws. 0 };

    fn reads(&self) -> &[Pattern] {
        &[]
    }

    fn writes(&self) -> &[Pattern] {
        &self.writes
    }

    fn kills(&self) -> bool {
        false
    }

    fn record<R: BodyRow, D: Draws>(
        &self,
        row: &R,
        _draws: &mut D,
        stage: &mut Stage,
    ) -> Result<(), Refusal> {
        let Some(place) = row.value(0) else {
            return Ok(());
        };
        record_command(stage, Command::Set(row.entity(), Id::One(self.wake), place))
    }

    // All that it records matches what it writes.
    ghost declared = { λ s row draws h.
        noted_is_declared s.wake s.writes s.own row.entity (item_at row.values 0) };

    // It draws nothing, so it looks at none of the handles that are there.
    ghost settled = { λ s row mine later h. (h, refl) };
}
