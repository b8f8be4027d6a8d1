//! A body records a row that stands in slices, and stops at a draw that is refused.
ghost use Rattle.std.specs.Prelude.{[]};

use crate::handles::at;
use eco_bodies::{Action, Draws, LentRow, Script, SystemBody};
use eco_ids::{Entity, Id, Refusal, Value};
use eco_world::{Recorded, Stage, World};
use std::alloc::Global;

// Has no handle to draw, and notes that one was asked for.
#[derive(Drop)]
struct Dry(bool);

impl Draws for Dry {
    type Rest = ();

    ghost so_far = { λ d. [] };

    ghost is_dry = { λ d. d.0 };

    ghost rest = { λ d. tt };

    fn draw(&mut self) -> Result<Entity, Refusal> {
        self.0 = true;
        Err(Refusal::NoMoreIds)
    }
}

// A script that adds one value to another, and then makes an entity.
fn script(alloc: Global, world: &World) -> Result<Script, Refusal> {
    let query = world.read_query("[inout] #9.0, [in] #10.0")?;
    let actions = [Action::Sum { into: 0, from: 1 }, Action::Spawn(None)];
    Script::new(alloc, &query, Vec::from_slice(alloc, &actions)?)
}

// Records it for a row of `#13.0`.
fn record(script: &Script, stage: &mut Stage) -> Result<(), Refusal> {
    let values = [Some(Value::of([3, -4])), Some(Value::of([4, 4]))];
    let row = LentRow {
        entity: at(13),
        entries: &[Some(Id::One(at(9))), Some(Id::One(at(10)))],
        values: &values,
    };
    script.record(&row, &mut Dry(false), stage)
}

// Whether it is the set of that row.
fn is_set(set: Option<(Entity, Value)>) -> bool {
    match set {
        Some((entity, value)) => entity.is(at(13)) && value == Value::of([7]),
        None => false,
    }
}

// Whether the stage has the set of that row alone.
fn has_set(stage: &Stage) -> bool {
    let (commands, kept) = stage.recorded();
    match commands {
        [
            Recorded::Set {
                width,
                count: 1,
                first,
                ..
            },
        ] => is_set(kept.set_at(*width, *first)),
        _ => false,
    }
}

// Whether the set is recorded before the draw is refused.
fn stops(alloc: Global, script: &Script) -> bool {
    let mut stage = Stage::new(alloc);
    record(script, &mut stage) == Err(Refusal::NoMoreIds) && has_set(&stage)
}

// Whether it is so of the script.
fn script_stops(alloc: Global, world: &World) -> bool {
    match script(alloc, world) {
        Ok(script) => stops(alloc, &script),
        Err(_) => false,
    }
}

// Whether it is so of one whose query is read in a new world.
fn is_stopped(alloc: Global) -> bool {
    match World::new(alloc, 9) {
        Ok(world) => script_stops(alloc, &world),
        Err(_) => false,
    }
}

#[test]
fn a_refused_draw_stops_a_body(rt: HostRuntime) {
    assert!(rt; is_stopped(rt.alloc()));
}
