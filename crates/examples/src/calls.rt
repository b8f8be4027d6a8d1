//! The world's calls by example: ships, which are afloat because they are ships, where they are and where they sail, and where
//! they lie; and at last the ships sail.
use crate::frames;
use anyhow::Result;
use eco_ids::entity::WITH;
use eco_ids::{Entity, Id, Refusal, Value};
use eco_world::{Results, TableRows, Values, World};
use std::io;
use std::thread::Threads;

// What ships can be and have.
#[derive(Clone, Copy)]
struct Terms {
    position: Entity,
    velocity: Entity,
    ship: Entity,
}

// Where ships can lie.
#[derive(Clone, Copy)]
struct Harbor {
    moored_at: Entity,
    quay: Entity,
    buoy: Entity,
}

// The ships.
#[derive(Clone, Copy)]
struct Fleet {
    heron: Entity,
    teal: Entity,
}

// A component has values, here of two fields, and a tag has none.
fn declare(world: &mut World) -> Result<Terms, Refusal> {
    let position = world.component(Some("Position"), 2)?;
    let velocity = world.component(Some("Velocity"), 2)?;
    let ship = world.create(Some("Ship"))?;
    let afloat = world.create(Some("Afloat"))?;
    // Whatever becomes a ship is afloat.
    world.add(ship, Id::Two(WITH, afloat))?;
    Ok(Terms {
        position,
        velocity,
        ship,
    })
}

// Every entity can be used as a tag, or in a pair.
fn build(world: &mut World) -> Result<Harbor, Refusal> {
    let moored_at = world.create(Some("MooredAt"))?;
    let quay = world.create(Some("Quay"))?;
    let buoy = world.create(Some("Buoy"))?;
    Ok(Harbor {
        moored_at,
        quay,
        buoy,
    })
}

// A ship that is at a place.
fn launch_at(world: &mut World, terms: Terms, name: &str, place: Value) -> Result<Entity, Refusal> {
    let ship = world.create(Some(name))?;
    world.add(ship, Id::One(terms.ship))?;
    world.set(ship, Id::One(terms.position), place)?;
    Ok(ship)
}

// Two ships: one is at sea, and the other lies at the quay and at a buoy.
fn launch(world: &mut World, terms: Terms, harbor: Harbor) -> Result<Fleet, Refusal> {
    let heron = launch_at(world, terms, "Heron", Value::of([3, -4]))?;
    let teal = launch_at(world, terms, "Teal", Value::of([5, 6]))?;
    world.set(heron, Id::One(terms.velocity), Value::of([1, 2]))?;
    world.add(teal, Id::Two(harbor.moored_at, harbor.quay))?;
    world.add(teal, Id::Two(harbor.moored_at, harbor.buoy))?;
    Ok(Fleet { heron, teal })
}

/// A query is read from a text, with the names of the world, and asked of it.
pub fn find(world: &World, text: &str) -> Result<Results, Refusal> {
    let query = world.read_query(text)?;
    world.results(&query)
}

/// What an entity is called.
pub fn name_of(world: &World, entity: Entity) -> &str {
    world.name_of(entity).unwrap_or("-")
}

// A query finds who has an id; its results ascend by entity.
fn print_afloat<R: Print>(rt: &R, world: &World, found: &Results) -> io::Result<()> {
    for (ship, _) in found.iter() {
        let name = name_of(world, ship);
        println!(rt; "{name} {ship} is afloat")?;
    }
    Ok(())
}

// Of several terms each has an entry in each result, in their order. `*` has a result for each target.
fn print_moorings<R: Print>(rt: &R, world: &World, found: &Results) -> io::Result<()> {
    for (ship, entries) in found.iter() {
        if let [_, Some(Id::Two(_, place))] = entries {
            let (ship, place) = (name_of(world, ship), name_of(world, *place));
            println!(rt; "{ship} is moored at {place}")?;
        }
    }
    Ok(())
}

// What queries find.
fn print_found<R: Print>(rt: &R, world: &World) -> Result<()> {
    let afloat = find(world, "Afloat")?;
    print_afloat(rt, world, &afloat)?;
    let moorings = find(world, "Ship, (MooredAt, *)")?;
    print_moorings(rt, world, &moorings)?;
    Ok(())
}

// Where a ship is an hour later.
fn print_course<R: Print>(rt: &R, name: &str, at: &[i64; 2], by: &[i64; 2]) -> io::Result<()> {
    let (east, north) = (at[0].wrapping_add(by[0]), at[1].wrapping_add(by[1]));
    println!(rt; "{name} will be at {east} {north}")
}

// The ships of one table: columns are slices, with the same place for an entity in each of them.
fn print_courses<R: Print>(
    rt: &R,
    world: &World,
    terms: Terms,
    table: &TableRows<'_>,
) -> io::Result<()> {
    let (Some(Values::Two(positions)), Some(Values::Two(velocities))) = (
        table.values(Id::One(terms.position)),
        table.values(Id::One(terms.velocity)),
    ) else {
        return Ok(());
    };
    for ((ship, at), by) in table.entities.iter().zip(positions).zip(velocities) {
        print_course(rt, name_of(world, *ship), at, by)?;
    }
    Ok(())
}

// The ships of some tables.
fn print_each_course<R: Print>(
    rt: &R,
    world: &World,
    terms: Terms,
    tables: &[TableRows<'_>],
) -> io::Result<()> {
    for table in tables {
        print_courses(rt, world, terms, table)?;
    }
    Ok(())
}

// A query finds tables too: those of all entities that have the same ids, with their values in columns.
fn print_all_courses<R: Print>(rt: &R, world: &World, terms: Terms) -> Result<()> {
    let query = world.read_query("Position, Velocity")?;
    let tables = world.tables_of(&query)?;
    print_each_course(rt, world, terms, tables.as_slice())?;
    Ok(())
}

// The places added to a sum of places.
fn added(mut sum: [i64; 2], places: &[[i64; 2]]) -> [i64; 2] {
    for [east, north] in places {
        sum = [sum[0].wrapping_add(*east), sum[1].wrapping_add(*north)];
    }
    sum
}

// All values of one component: they are lent column by column, without a query and without memory.
fn print_sum<R: Print>(rt: &R, world: &World, terms: Terms) -> io::Result<()> {
    let mut sum = [0, 0];
    for column in world.columns(Id::One(terms.position)) {
        if let Values::Two(places) = column.values {
            sum = added(sum, places);
        }
    }
    println!(rt; "the ships' places add up to {} {}", sum[0], sum[1])
}

// Where a ship is: a value is written with as many fields as its component has.
fn print_place<R: Print>(rt: &R, world: &World, ship: Entity, position: Entity) -> io::Result<()> {
    let Some(value) = world.get(ship, Id::One(position)) else {
        return Ok(());
    };
    let (name, fields) = (name_of(world, ship), value.fields(2));
    println!(rt; "{name} is at {fields}")
}

// What single entities have.
fn print_ships<R: Print>(
    rt: &R,
    world: &World,
    terms: Terms,
    harbor: Harbor,
    fleet: Fleet,
) -> io::Result<()> {
    print_place(rt, world, fleet.heron, terms.position)?;
    let moored = world.has(fleet.teal, Id::Two(harbor.moored_at, harbor.quay));
    println!(rt; "Teal is moored at the quay: {moored}")
}

// A refusal says why, and changes nothing.
fn print_refusal<R: Print>(rt: &R, world: &mut World) -> io::Result<()> {
    match world.create(Some("Teal")) {
        Ok(_) => Ok(()),
        Err(refusal) => println!(rt; "a second Teal is refused: {refusal}"),
    }
}

// A delete takes what the policies say (here nothing else), and no id names the dead: whoever had one loses it.
fn close_quay<R: Print>(rt: &R, world: &mut World, harbor: Harbor, fleet: Fleet) -> Result<()> {
    world.delete(harbor.quay)?;
    let moored = world.has(fleet.teal, Id::Two(harbor.moored_at, harbor.quay));
    println!(rt; "the quay is gone, and Teal moored there: {moored}")?;
    Ok(())
}

// What calls tell that only read the world.
fn print_read<R: Print>(
    rt: &R,
    world: &World,
    terms: Terms,
    harbor: Harbor,
    fleet: Fleet,
) -> Result<()> {
    print_found(rt, world)?;
    print_ships(rt, world, terms, harbor, fleet)?;
    print_all_courses(rt, world, terms)?;
    print_sum(rt, world, terms)?;
    Ok(())
}

// The world is passed on by reference: a function that owns it would have its end to prove at each way out.
fn show_all<R: Print + Threads + Sync + AllocGlobal>(rt: &R, world: &mut World) -> Result<()> {
    let terms = declare(world)?;
    let harbor = build(world)?;
    let fleet = launch(world, terms, harbor)?;
    print_read(rt, world, terms, harbor, fleet)?;
    print_refusal(rt, world)?;
    close_quay(rt, world, harbor, fleet)?;
    frames::show(rt, world, fleet.heron, terms.position)
}

/// Shows the calls on a world of their own.
pub fn show<R: Print + Threads + Sync + AllocGlobal>(rt: &R) -> Result<()> {
    // At most 64 entities live at a time, the nine built-in ones included.
    let mut world = World::new(rt.alloc(), 64)?;
    show_all(rt, &mut world)
}
