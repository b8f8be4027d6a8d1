//! A ship's bounds are set and read by their type, at once and by a merge.
use crate::bounds::Bounds;
use eco_frame::TypedId;
use eco_ids::{Edition, Entity, Refusal};
use eco_world::{Command, Stage, World};
use std::alloc::Global;

const BOUNDS: Bounds = Bounds {
    west: 1,
    east: -2,
    south: 3,
    north: -4,
    low: 5,
    high: -6,
};

// Bounds without a field past the first four.
const FLAT: Bounds = Bounds {
    west: 1,
    east: -2,
    south: 3,
    north: -4,
    low: 0,
    high: 0,
};

// The bounds of a ship that they were set for.
fn bounded(world: &mut World, bounds: TypedId<Bounds>) -> Result<Option<Bounds>, Refusal> {
    let ship = world.create(None)?;
    bounds.set(world, ship, &BOUNDS)?;
    Ok(bounds.get(world, ship))
}

// Records these bounds for a ship, and then others.
fn record_both(
    stage: &mut Stage,
    bounds: TypedId<Bounds>,
    ship: Entity,
    first: &Bounds,
    second: &Bounds,
) -> Result<(), Command> {
    stage.record(bounds.command(ship, first))?;
    stage.record(bounds.command(ship, second))
}

// The bounds of a ship that got the first by a merge and then, by the same, the second.
fn merged(
    alloc: Global,
    world: &mut World,
    bounds: TypedId<Bounds>,
    first: &Bounds,
    second: &Bounds,
) -> Result<Option<Bounds>, Refusal> {
    let ship = world.create(None)?;
    let mut stage = Stage::new(alloc);
    let _last_that_found_no_memory = record_both(&mut stage, bounds, ship, first, second);
    world.merge(0, &[stage])?;
    Ok(bounds.get(world, ship))
}

// Whether a ship has those that were set last, each way.
fn are_last(alloc: Global, world: &mut World, bounds: TypedId<Bounds>) -> bool {
    bounded(world, bounds) == Ok(Some(BOUNDS))
        && merged(alloc, world, bounds, &BOUNDS, &FLAT) == Ok(Some(FLAT))
        && merged(alloc, world, bounds, &FLAT, &BOUNDS) == Ok(Some(BOUNDS))
}

// Whether a ship has those that were set, in a world whose components have so many fields.
fn is_bounded(alloc: Global) -> bool {
    match World::of_edition(alloc, Edition::Second, 64) {
        Ok(mut world) => match TypedId::create(&mut world, Some("Bounds")) {
            Ok(bounds) => are_last(alloc, &mut world, bounds),
            Err(_) => false,
        },
        Err(_) => false,
    }
}

#[test]
fn a_ship_has_six_bounds(rt: HostRuntime) {
    assert!(rt; is_bounded(rt.alloc()));
}
