//! Sets of ids in turn are kept as one run, of two ids to eight, and copies keep them so.
use eco_ids::{Entity, Id, Value};
use eco_stages::{Command, Kept, Recorded, Stage, Width};
use std::alloc::{AllocError, Global};

// So many rows are set, of each all ids in turn.
const ROWS: u32 = 3;

// Whose row it is.
fn holder(row: u32) -> Entity {
    Entity {
        index: row.wrapping_add(40),
        generation: 2,
    }
}

// The id of this turn.
fn turn(turn: u32) -> Id {
    Id::One(Entity {
        index: turn.wrapping_add(10),
        generation: 0,
    })
}

// What is set: a value of one field, and one of two where it is the first turn.
fn value(row: u32, turn: u32) -> Value {
    let field = i64::from(row) * 16 + i64::from(turn) + 1;
    if turn == 0 {
        Value::of([field, -field])
    } else {
        Value::of([field])
    }
}

// Records sets of so many ids in turn.
fn record_rows(stage: &mut Stage, turns: u32) -> Result<(), Command> {
    for row in 0..ROWS {
        for k in 0..turns {
            stage.record(Command::Set(holder(row), turn(k), value(row, k)))?;
        }
    }
    Ok(())
}

// A set as it is kept.
type Found = (Entity, Id, Value);

// Puts the set that stands at a place behind others.
fn add_set(
    found: &mut Vec<Found>,
    kept: &Kept,
    id: Option<Id>,
    width: Width,
    place: usize,
) -> Result<(), AllocError> {
    if let (Some(id), Some((entity, value))) = (id, kept.set_at(width, place)) {
        found.push((entity, id, value))?;
    }
    Ok(())
}

// Puts the sets of a command behind others.
fn add_sets(found: &mut Vec<Found>, kept: &Kept, command: Recorded) -> Result<(), AllocError> {
    if let Recorded::Set {
        width,
        count,
        id,
        first,
    } = command
    {
        for k in 0..usize::from(count) {
            add_set(found, kept, Some(id), width, first.wrapping_add(k))?;
        }
    }
    if let Recorded::Turns {
        width,
        count,
        turns,
        ids,
        first,
        ..
    } = command
    {
        for k in 0..usize::from(count) {
            let turn = k.checked_rem(usize::from(turns)).unwrap_or(0);
            let id = kept.id_at(ids.wrapping_add(turn));
            add_set(found, kept, id, width, first.wrapping_add(k))?;
        }
    }
    Ok(())
}

// All sets of a stage, in their order.
fn sets_of(alloc: Global, stage: &Stage) -> Result<Vec<Found>, AllocError> {
    let (commands, kept) = stage.recorded();
    let mut found = Vec::new(alloc);
    for command in commands {
        add_sets(&mut found, kept, *command)?;
    }
    Ok(found)
}

// Whether these are the sets of so many ids in turn, so often.
fn are_rows(found: &[Found], turns: u32, times: u32) -> bool {
    let mut left = found.iter();
    for _ in 0..times {
        for row in 0..ROWS {
            for k in 0..turns {
                match left.next() {
                    Some((entity, id, set)) => {
                        if !entity.is(holder(row)) || !id.is(turn(k)) || *set != value(row, k) {
                            return false;
                        }
                    }
                    None => return false,
                }
            }
        }
    }
    left.next().is_none()
}

// Whether sets of so many ids in turn are kept in so many commands, and whole, and so are two copies of them in one stage.
fn are_kept(alloc: Global, turns: u32, commands: usize) -> Result<bool, AllocError> {
    let mut stage = Stage::new(alloc);
    if record_rows(&mut stage, turns).is_err() {
        return Err(AllocError);
    }
    let few = stage.recorded().0.len() == commands;
    let whole = are_rows(&sets_of(alloc, &stage)?, turns, 1);
    let mut copy = Stage::new(alloc);
    copy.record_copies(&stage)?;
    copy.record_copies(&stage)?;
    stage.clear();
    Ok(few && whole && are_rows(&sets_of(alloc, &copy)?, turns, 2))
}

// One id is a run by itself. Of two ids to eight, each is set once before they are known to come in turn; nine are not looked for.
#[test]
fn ids_in_turn_are_a_run(rt: HostRuntime) {
    assert!(rt; are_kept(rt.alloc(), 1, 1) == Ok(true));
    assert!(rt; are_kept(rt.alloc(), 2, 3) == Ok(true));
    assert!(rt; are_kept(rt.alloc(), 3, 4) == Ok(true));
    assert!(rt; are_kept(rt.alloc(), 8, 9) == Ok(true));
    assert!(rt; are_kept(rt.alloc(), 9, 27) == Ok(true));
}

// Records two ids in turn, and then a value that the run is too narrow for, an id out of turn and a removal.
fn record_broken(stage: &mut Stage) -> Result<(), Command> {
    record_rows(stage, 2)?;
    stage.record(Command::Set(holder(3), turn(0), Value::of([1, 2, 3, 4])))?;
    stage.record(Command::Set(holder(3), turn(0), Value::of([5])))?;
    stage.record(Command::Set(holder(3), turn(1), Value::of([6])))?;
    stage.record(Command::Remove(holder(3), turn(1)))?;
    stage.record(Command::Set(holder(4), turn(0), Value::of([7])))
}

// Whether the sets are whole: the wide value ends the run of ids in turn, and what comes behind goes on with other runs.
fn is_broken(alloc: Global) -> Result<bool, AllocError> {
    let mut stage = Stage::new(alloc);
    if record_broken(&mut stage).is_err() {
        return Err(AllocError);
    }
    let found = sets_of(alloc, &stage)?;
    let values = [
        Value::of([1, 2, 3, 4]),
        Value::of([5]),
        Value::of([6]),
        Value::of([7]),
    ];
    let mut is_whole = stage.len() == 11 && found.len() == 10 && stage.recorded().0.len() == 7;
    for (place, value) in values.iter().enumerate() {
        is_whole &= found.get(place.wrapping_add(6)).map(|set| set.2) == Some(*value);
    }
    Ok(is_whole && are_rows(&found[..6.min(found.len())], 2, 1))
}

#[test]
fn ids_out_of_turn_end_the_run(rt: HostRuntime) {
    assert!(rt; is_broken(rt.alloc()) == Ok(true));
}
