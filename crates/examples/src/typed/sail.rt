//! A body in Rust that reads its rows as Rust types.
ghost use Rattle.std.specs.Prelude.{◌≡◌, ◌∷◌, [], false, refl};
ghost use Rattle.eco_query.specs.Queries.{exactly};
ghost use Rattle.eco_frame.specs.Typing.{value_found_at};
ghost use Rattle.examples.specs.Ships.{recorded, recorded_is_declared};

use super::position::Position;
use super::ship_components::ShipComponents;
use super::velocity::Velocity;
use eco_frame::{BodyRow, Draws, Phase, SystemBody, Systems, TypedId, record_command};
use eco_ids::{Pattern, Refusal};
use eco_query::exactly;
use eco_world::{Stage, World};
use std::alloc::Global;

/// Each row's ship sails for an hour: its position, in slot 0, is set to where its velocity, in slot 1, takes it.
#[derive(Drop)]
pub struct Sail {
    position: TypedId<Position>,
    velocity: TypedId<Velocity>,
    writes: [Pattern; 1],
    ghost own: { writes ≡ exactly position.id ∷ [] },
}

impl Sail {
    // The body for these components.
    fn new(position: TypedId<Position>, velocity: TypedId<Velocity>) -> Sail {
        Sail {
            position,
            velocity,
            writes: [exactly(position.id())],
        }
    }

    /// A list of systems with this one alone. Its query names the components in the slots that the body reads.
    pub fn listed(
        alloc: Global,
        world: &World,
        components: ShipComponents,
    ) -> Result<Systems<Sail>, Refusal> {
        let query = world.read_query("[inout] Position, [in] Velocity")?;
        let body = Sail::new(components.position, components.velocity);
        let mut systems = Systems::new(alloc);
        systems
            .add("sail", Phase::OnUpdate, query, body)
            .map_err(|refused| refused.refusal)?;
        Ok(systems)
    }
}

impl SystemBody for Sail {
    // It reads what its system's query asks for, and no more.
    ghost reads_of = { λ s. [] };

    ghost writes_of = { λ s. s.writes };

    ghost kills_of = { λ s. false };

    // What it records for a row, and how many fresh handles it draws.
    ghost commands = { λ s row draws. recorded s.position.id row.entity
        (value_found_at row 0 s.position.id) (value_found_at row 1 s.velocity.id) };

    ghost taken = { λ s row draws. 0 };

    fn reads(&self) -> &[Pattern] {
        &[]
    }

    fn writes(&self) -> &[Pattern] {
        &self.writes
    }

    fn kills(&self) -> bool {
        false
    }

    fn record<R: BodyRow, D: Draws>(
        &self,
        row: &R,
        _draws: &mut D,
        stage: &mut Stage,
    ) -> Result<(), Refusal> {
        let (Some(at), Some(by)) = (self.position.at(row, 0), self.velocity.at(row, 1)) else {
            return Ok(());
        };
        let command = self.position.command(row.entity(), &at.sailed(by));
        record_command(stage, command)
    }

    // All that it records matches what it writes.
    ghost declared = { λ s row draws h. recorded_is_declared s.position.id s.writes s.own row.entity
        (value_found_at row 0 s.position.id) (value_found_at row 1 s.velocity.id) };

    // It draws nothing, so it looks at none of the handles that are there.
    ghost settled = { λ s row mine later h. (h, refl) };
}
