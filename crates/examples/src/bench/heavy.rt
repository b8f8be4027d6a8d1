//! A body whose recording takes long.
ghost use Rattle.std.specs.Prelude.{◌≡◌, ◌∷◌, [], false, refl};
ghost use Rattle.eco_ids.specs.Run as run;
ghost use Rattle.eco_ids.specs.declared.id.Id.TheVariants as id;
ghost use Rattle.eco_ids.specs.declared.pattern.Pattern.TheVariants as pattern;
ghost use Rattle.eco_bodies.specs.Own.{is_only_written};
ghost use Rattle.examples.specs.Mixing as spec;

use eco_bodies::{BodyRow, Draws, SystemBody, record_command};
use eco_ids::{Entity, Id, Pattern, Refusal, Value};
use eco_world::{Command, Stage};

// How often a number is multiplied by itself: one waits for the other, so it takes some 200 ns and more.
const ROUNDS: u32 = 192;

// Something odd.
const STEP: u64 = 1_442_695_040_888_963_407;

/// Sets a component of the row's entity to a number that takes long to find, as a game's own work on a row does.
#[derive(Drop)]
pub struct Heavy {
    component: Entity,
    rounds: u32,
    writes: [Pattern; 1],
    ghost own: { writes ≡ pattern.One component ∷ [] },
}

impl Heavy {
    /// The body that sets the component.
    pub fn new(component: Entity) -> Heavy {
        Heavy {
            component,
            rounds: ROUNDS,
            writes: [Pattern::One(component)],
        }
    }
}

// A number that follows from the seed by so many steps.
fn mixed(rounds: u32, seed: u32) -> u64
    ensures { result ≡ spec.mixed rounds seed }
{
    let mut number = u64::from(seed);
    for _ in 0..rounds {
        number = number.wrapping_mul(number).wrapping_add(STEP);
    }
    number
}

// The value of an entity at this index.
fn value_of(rounds: u32, index: u32) -> Value
    ensures { result ≡ spec.half_value rounds index }
{
    Value::of([(mixed(rounds, index) / 2) as i64])
}

impl SystemBody for Heavy {
    ghost reads_of = { λ s. [] };

    ghost writes_of = { λ s. s.writes };

    ghost kills_of = { λ s. false };

    ghost commands = { λ s row draws.
        run.Set row.entity (id.One s.component) (spec.half_value s.rounds row.entity.index) ∷ [] };

    ghost taken = { λ s row draws. 0 };

    fn reads(&self) -> &[Pattern] {
        &[]
    }

    fn writes(&self) -> &[Pattern] {
        &self.writes
    }

    fn kills(&self) -> bool {
        false
    }

    fn record<R: BodyRow, D: Draws>(
        &self,
        row: &R,
        _draws: &mut D,
        stage: &mut Stage,
    ) -> Result<(), Refusal> {
        let entity = row.entity();
        let value = value_of(self.rounds, entity.index);
        record_command(stage, Command::Set(entity, Id::One(self.component), value))
    }

    ghost declared = { λ s row draws h. (is_only_written (id.One s.component) s.writes s.own, tt) };

    ghost settled = { λ s row mine later h. (h, refl) };
}
