//! What ships have, by Rust types.
use super::position::Position;
use super::velocity::Velocity;
use crate::calls::name_of;
use anyhow::Result;
use eco_frame::{TypedColumn, TypedId};
use eco_ids::{Entity, Refusal};
use eco_world::{TableRows, World};
use std::io;

// Where a ship will be.
fn print_course<R: Print>(rt: &R, name: &str, later: Position) -> io::Result<()> {
    let Position { east, north } = later;
    println!(rt; "{name} will be at {east} {north}")
}

// Rows of an entity, a position and a velocity.
fn print_rows<R: Print>(
    rt: &R,
    world: &World,
    ships: &[Entity],
    positions: TypedColumn<'_, Position>,
    velocities: TypedColumn<'_, Velocity>,
) -> io::Result<()> {
    for ((ship, at), by) in ships.iter().zip(positions).zip(velocities) {
        print_course(rt, name_of(world, *ship), at.sailed(by))?;
    }
    Ok(())
}

/// The components of ships. No call says how many fields they have.
#[derive(Clone, Copy)]
pub struct ShipComponents {
    pub position: TypedId<Position>,
    pub velocity: TypedId<Velocity>,
}

impl ShipComponents {
    /// Makes the components.
    pub fn declare(world: &mut World) -> Result<ShipComponents, Refusal> {
        Ok(ShipComponents {
            position: TypedId::create(world, Some("Position"))?,
            velocity: TypedId::create(world, Some("Velocity"))?,
        })
    }

    // Makes a ship that is at sea.
    fn make(
        self,
        world: &mut World,
        name: &str,
        at: Position,
        by: Velocity,
    ) -> Result<Entity, Refusal> {
        let ship = world.create(Some(name))?;
        self.position.set(world, ship, &at)?;
        self.velocity.set(world, ship, &by)?;
        Ok(ship)
    }

    /// Makes two ships, Heron and Teal.
    pub fn launch(self, world: &mut World) -> Result<(Entity, Entity), Refusal> {
        let (at, by) = (
            Position { east: 3, north: -4 },
            Velocity { east: 1, north: 2 },
        );
        let heron = self.make(world, "Heron", at, by)?;
        let (at, by) = (
            Position { east: 5, north: 6 },
            Velocity { east: -2, north: 0 },
        );
        let teal = self.make(world, "Teal", at, by)?;
        Ok((heron, teal))
    }

    // The ships of a table: its columns stand side by side.
    fn print_table<R: Print>(self, rt: &R, world: &World, table: &TableRows<'_>) -> io::Result<()> {
        let Some(positions) = self.position.column(table) else {
            return Ok(());
        };
        let Some(velocities) = self.velocity.column(table) else {
            return Ok(());
        };
        print_rows(rt, world, table.entities, positions, velocities)
    }

    /// Says of all ships where they will be, table by table.
    pub fn print_courses<R: Print>(self, rt: &R, world: &World) -> Result<()> {
        let query = world.read_query("Position, Velocity")?;
        for table in &world.tables_of(&query)? {
            self.print_table(rt, world, table)?;
        }
        Ok(())
    }

    /// Says where one entity is.
    pub fn print_place<R: Print>(self, rt: &R, world: &World, ship: Entity) -> io::Result<()> {
        let Some(Position { east, north }) = self.position.get(world, ship) else {
            return Ok(());
        };
        let name = name_of(world, ship);
        println!(rt; "{name} is at {east} {north}")
    }
}
