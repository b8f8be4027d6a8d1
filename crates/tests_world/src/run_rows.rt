//! A run of sets goes row by row through a table, and breaks at whatever may stand against one of them.
use crate::handles::at;
use eco_ids::{Entity, Id, Refusal, Value};
use eco_stages::{Command, Stage};
use eco_world::{Report, World};
use std::alloc::Global;

// Nine built-ins live, then a component of two fields, and then those who have it.
const POSITION: Id = Id::One(Entity {
    index: 9,
    generation: 0,
});

// Six entities with the component, in rows one behind the other, and one without it, who comes last.
const HOLDERS: u32 = 6;

const FIRST: u32 = 10;

fn opening(alloc: Global) -> Result<World, Refusal> {
    let mut world = World::new(alloc, 64)?;
    world.component(None, 2)?;
    for index in FIRST..FIRST + HOLDERS {
        world.create(None)?;
        world.add(at(index), POSITION)?;
    }
    world.create(None)?;
    Ok(world)
}

// A set of the run: of which index, at which generation, to which fields, and what it answers.
struct Row(u32, u16, [i64; 3], Result<(), Refusal>);

const ROWS: &[Row] = &[
    Row(10, 0, [1, 2, 0], Ok(())),
    Row(11, 0, [3, 4, 0], Ok(())),
    // The component has two fields.
    Row(12, 0, [5, 6, 7], Err(Refusal::TooWide)),
    Row(13, 0, [8, 9, 0], Ok(())),
    // Nobody lives there at this generation.
    Row(14, 1, [1, 1, 0], Err(Refusal::NotAlive)),
    Row(15, 0, [10, 11, 0], Ok(())),
    // A built-in.
    Row(3, 0, [1, 1, 0], Err(Refusal::Reserved)),
    // Who lacks the component gets it.
    Row(16, 0, [12, 13, 0], Ok(())),
    // Back to the first two, and to the second once more.
    Row(10, 0, [-1, 0, 0], Ok(())),
    Row(11, 0, [14, 15, 0], Ok(())),
    Row(11, 0, [16, 17, 0], Ok(())),
];

// What the entities have afterwards, from the first on.
const VALUES: &[[i64; 2]] = &[
    [-1, 0],
    [16, 17],
    [0, 0],
    [8, 9],
    [0, 0],
    [10, 11],
    [12, 13],
];

// Records the run. A row that finds no memory is lacking.
fn record_rows(stage: &mut Stage) {
    for row in ROWS {
        let entity = Entity {
            index: row.0,
            generation: row.1,
        };
        let _handed_back = stage.record(Command::Set(entity, POSITION, Value::of(row.2)));
    }
}

// Whether each set answered what stands beside it.
fn are_answered(report: &Report) -> bool {
    let mut outcomes = report.iter();
    for row in ROWS {
        if outcomes.next() != Some(row.3) {
            return false;
        }
    }
    outcomes.next().is_none()
}

// Whether each entity has its value.
fn have_values(world: &World) -> bool {
    for place in 0..VALUES.len() {
        let holder = at(FIRST + place as u32);
        if world.get(holder, POSITION) != Some(Value::of(VALUES[place])) {
            return false;
        }
    }
    true
}

// Whether the run is done so.
fn is_done(alloc: Global) -> Result<bool, Refusal> {
    let mut world = opening(alloc)?;
    let mut stages = [Stage::new(alloc)];
    record_rows(&mut stages[0]);
    let is_one_run = stages[0].recorded().0.len() == 1;
    let report = world.merge(0, &stages)?;
    Ok(is_one_run && are_answered(&report) && have_values(&world))
}

#[test]
fn runs_go_row_by_row(rt: HostRuntime) {
    assert!(rt; is_done(rt.alloc()) == Ok(true));
}
