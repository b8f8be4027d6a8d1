//! Stages keep the values of sets whole, those of many fields and of runs too, and so do copies.
use eco_ids::{Entity, Id, Value};
use eco_stages::{Command, Recorded, Stage, Width};
use std::alloc::Global;

const HOLDER: Entity = Entity {
    index: 20,
    generation: 3,
};

const OTHER: Entity = Entity {
    index: 21,
    generation: 0,
};

const BOUNDS: Id = Id::One(Entity {
    index: 10,
    generation: 0,
});

const FEW: Value = Value([1, -2, 3, -4, 0, 0, 0, 0]);

const FIVE: Value = Value([0, 0, 0, 0, -5, 0, 0, 0]);

const EIGHT: Value = Value([1, -2, 3, -4, 5, -6, 7, -8]);

// Records sets to all of them.
fn record_all(stage: &mut Stage) -> Result<(), Command> {
    stage.record(Command::Set(HOLDER, BOUNDS, FEW))?;
    stage.record(Command::Set(HOLDER, BOUNDS, FIVE))?;
    stage.record(Command::Set(HOLDER, BOUNDS, EIGHT))
}

// Whether this set is there.
fn is_set(there: Option<(Entity, Value)>, set: (Entity, Value)) -> bool {
    match there {
        Some((entity, value)) => entity.is(set.0) && value == set.1,
        None => false,
    }
}

// Whether the commands set these, in this order, by one run of values of a width.
fn are_run(stage: &Stage, run: usize, id: Id, width: Width, sets: &[(Entity, Value)]) -> bool {
    let (commands, kept) = stage.recorded();
    let Some(
        Recorded::Set {
            width: own,
            count,
            id: other,
            first,
        },
    ) = commands.get(run).copied()
    else {
        return false;
    };
    let mut are_run = own == width && other.is(id) && usize::from(count) == sets.len();
    for (place, set) in sets.iter().enumerate() {
        are_run &= is_set(kept.set_at(own, first.wrapping_add(place)), *set);
    }
    are_run
}

// Whether the stage has sets to all of them, in this order: one run, as none has less than four fields.
fn sets_all(stage: &Stage) -> bool {
    let sets = [(HOLDER, FEW), (HOLDER, FIVE), (HOLDER, EIGHT)];
    stage.len() == 3 && are_run(stage, 0, BOUNDS, Width::Eight, &sets)
}

// Whether they are kept whole where they were recorded, and in a copy that lives longer.
fn are_whole(alloc: Global) -> bool {
    let mut stage = Stage::new(alloc);
    let mut copy = Stage::new(alloc);
    let are_copied = record_all(&mut stage).is_ok()
        && copy.record_copies(&stage).is_ok()
        && sets_all(&stage);
    stage.clear();
    are_copied && sets_all(&copy)
}

#[test]
fn values_are_recorded_whole(rt: HostRuntime) {
    assert!(rt; are_whole(rt.alloc()));
}

// Records a set of one field and one of none of the same id, two of three fields at most and one of four, and last one of
// another id.
fn record_runs(stage: &mut Stage) -> Result<(), Command> {
    stage.record(Command::Set(HOLDER, BOUNDS, Value::of([7])))?;
    stage.record(Command::Set(OTHER, BOUNDS, Value::of([])))?;
    stage.record(Command::Set(OTHER, BOUNDS, Value::of([1, 2, 3])))?;
    stage.record(Command::Set(HOLDER, BOUNDS, Value::of([0, -1])))?;
    stage.record(Command::Set(HOLDER, BOUNDS, FEW))?;
    stage.record(Command::Set(OTHER, BOUNDS, Value::of([9])))?;
    stage.record(Command::Set(OTHER, Id::One(OTHER), Value::of([4])))
}

// Whether the stage has a run of each width: one goes on with values of fewer fields, and ends before one of more.
fn has_runs(stage: &Stage) -> bool {
    let ones = [(HOLDER, Value::of([7])), (OTHER, Value::of([]))];
    let threes = [(OTHER, Value::of([1, 2, 3])), (HOLDER, Value::of([0, -1]))];
    let eights = [(HOLDER, FEW), (OTHER, Value::of([9]))];
    are_run(stage, 0, BOUNDS, Width::One, &ones)
        && are_run(stage, 1, BOUNDS, Width::Three, &threes)
        && are_run(stage, 2, BOUNDS, Width::Eight, &eights)
}

// Whether the fourth run sets the other entity first, and so many sets are of it.
fn has_fourth(stage: &Stage, sets: &[(Entity, Value)]) -> bool {
    are_run(stage, 3, Id::One(OTHER), Width::One, sets)
}

// Whether the copy's last run goes on, and what is copied once more comes behind.
fn goes_on(copy: &mut Stage, other: &Stage) -> bool {
    let five = Command::Set(HOLDER, Id::One(OTHER), Value::of([5]));
    let more = [(OTHER, Value::of([1, 2, 3])), (HOLDER, Value::of([0, -1]))];
    copy.record(five).is_ok()
        && copy.len() == 8
        && copy.record_copies(other).is_ok()
        && has_fourth(copy, &[(OTHER, Value::of([4])), (HOLDER, Value::of([5]))])
        && are_run(copy, 5, BOUNDS, Width::Three, &more)
        && copy.len() == 15
}

// Whether runs are kept so where they were recorded and in a copy, which lives longer.
fn are_runs(alloc: Global) -> bool {
    let mut stage = Stage::new(alloc);
    let mut copy = Stage::new(alloc);
    let are_copied = record_runs(&mut stage).is_ok() && copy.record_copies(&stage).is_ok();
    let four = [(OTHER, Value::of([4]))];
    let are_kept = has_runs(&stage) && has_fourth(&stage, &four) && stage.len() == 7;
    let are_there = has_runs(&copy) && has_fourth(&copy, &four) && copy.len() == 7;
    let is_longer = goes_on(&mut copy, &stage);
    stage.clear();
    are_copied && are_kept && are_there && is_longer && stage.is_empty() && has_runs(&copy)
}

#[test]
fn runs_are_recorded_whole(rt: HostRuntime) {
    assert!(rt; are_runs(rt.alloc()));
}
