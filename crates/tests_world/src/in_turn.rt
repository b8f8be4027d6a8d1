//! A run of sets of two ids in turn goes row by row, and breaks at whatever may stand against one of them.
use crate::handles::at;
use eco_ids::{Entity, Id, Refusal, Value};
use eco_stages::{Command, Stage};
use eco_world::{Report, World};
use std::alloc::Global;

// Nine built-ins live, then a component of two fields, one of one, and then those who have both.
const POSITION: Id = Id::One(Entity {
    index: 9,
    generation: 0,
});

const HEALTH: Id = Id::One(Entity {
    index: 10,
    generation: 0,
});

// Five entities with both components, one without them, and last one that lacks the second.
const HOLDERS: u32 = 5;

const FIRST: u32 = 11;

fn opening(alloc: Global) -> Result<World, Refusal> {
    let mut world = World::new(alloc, 64)?;
    world.component(None, 2)?;
    world.component(None, 1)?;
    for index in FIRST..FIRST + HOLDERS {
        world.create(None)?;
        world.add(at(index), POSITION)?;
        world.add(at(index), HEALTH)?;
    }
    world.create(None)?;
    world.create(None)?;
    world.add(at(17), POSITION)?;
    Ok(world)
}

// Two sets of the run, one after the other: of which index, at which generation, to which fields, and what each answers.
struct Row(
    u32,
    u16,
    [i64; 3],
    Result<(), Refusal>,
    [i64; 2],
    Result<(), Refusal>,
);

const ROWS: &[Row] = &[
    Row(11, 0, [1, 2, 0], Ok(()), [3, 0], Ok(())),
    Row(12, 0, [4, 5, 0], Ok(()), [6, 0], Ok(())),
    // The first component has two fields, and the second one.
    Row(13, 0, [7, 8, 9], Err(Refusal::TooWide), [10, 0], Ok(())),
    Row(14, 0, [11, 12, 0], Ok(()), [13, 14], Err(Refusal::TooWide)),
    // Nobody lives there at this generation.
    Row(
        15,
        1,
        [1, 1, 0],
        Err(Refusal::NotAlive),
        [1, 0],
        Err(Refusal::NotAlive),
    ),
    // A built-in.
    Row(
        3,
        0,
        [1, 1, 0],
        Err(Refusal::Reserved),
        [1, 0],
        Err(Refusal::Reserved),
    ),
    // Who lacks the components gets them, both or one.
    Row(16, 0, [15, 16, 0], Ok(()), [17, 0], Ok(())),
    Row(17, 0, [18, 19, 0], Ok(()), [20, 0], Ok(())),
    // Back to the first two, and to the second once more.
    Row(11, 0, [-1, 0, 0], Ok(()), [21, 0], Ok(())),
    Row(12, 0, [22, 23, 0], Ok(()), [24, 0], Ok(())),
    Row(12, 0, [25, 26, 0], Ok(()), [27, 0], Ok(())),
];

// What the entities have afterwards, from the first on.
const VALUES: &[([i64; 2], i64)] = &[
    ([-1, 0], 21),
    ([25, 26], 27),
    ([0, 0], 10),
    ([11, 12], 0),
    ([0, 0], 0),
    ([15, 16], 17),
    ([18, 19], 20),
];

// Records the run. A row that finds no memory is lacking.
fn record_rows(stage: &mut Stage) {
    for row in ROWS {
        let entity = Entity {
            index: row.0,
            generation: row.1,
        };
        let _handed_back = stage.record(Command::Set(entity, POSITION, Value::of(row.2)));
        let _handed_back = stage.record(Command::Set(entity, HEALTH, Value::of(row.4)));
    }
}

// Whether each set answered what stands beside it.
fn are_answered(report: &Report) -> bool {
    let mut outcomes = report.iter();
    for row in ROWS {
        if outcomes.next() != Some(row.3) || outcomes.next() != Some(row.5) {
            return false;
        }
    }
    outcomes.next().is_none()
}

// Whether each entity has its values.
fn have_values(world: &World) -> bool {
    for place in 0..VALUES.len() {
        let holder = at(FIRST + place as u32);
        let (position, health) = VALUES[place];
        if world.get(holder, POSITION) != Some(Value::of(position))
            || world.get(holder, HEALTH) != Some(Value::of([health]))
        {
            return false;
        }
    }
    true
}

// Whether the run is done so. It is one, behind a set of each id.
fn is_done(alloc: Global) -> Result<bool, Refusal> {
    let mut world = opening(alloc)?;
    let mut stages = [Stage::new(alloc)];
    record_rows(&mut stages[0]);
    let is_run = stages[0].recorded().0.len() == 3;
    let report = world.merge(0, &stages)?;
    Ok(is_run && are_answered(&report) && have_values(&world))
}

#[test]
fn runs_in_turn_go_row_by_row(rt: HostRuntime) {
    assert!(rt; is_done(rt.alloc()) == Ok(true));
}
