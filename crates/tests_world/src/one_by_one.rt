//! Systems run one by one, plainly: each asks the world as the one before it left it, records row by row, and is merged.
use crate::plain::{Deed, Had};
use crate::plans::{Deeds, FramePlan};
use eco_bodies::Action;
use eco_ids::{Entity, FIELD_COUNT, Id, Refusal, Value};
use eco_systems::{PHASES, Phase};
use eco_world::{Command, Kept, Recorded, Report, Row, Stage, Width, World};
use std::alloc::{AllocError, Global};

/// A command that was merged: what it does, if that is a deed, and whether it was done.
#[derive(Clone, Copy)]
pub struct Done {
    pub deed: Option<Deed>,
    pub outcome: Result<(), Refusal>,
}

/// Systems that run one by one on a copy of a world: the copy, what became of each command, and what a system records, with how many
/// fresh indices it draws.
pub struct OneByOne {
    pub world: World,
    pub done: Vec<Done>,
    stages: [Stage; 1],
    drawn: u32,
}

// By hand, so that dropping it is one call: a derived drop is proved anew at each early return of whoever holds it.
impl Drop for OneByOne {
    fn drop(self) {
        let OneByOne {
            world: _,
            done: _,
            stages: _,
            drawn: _,
        } = self;
    }
}

// The entry of a slot.
fn entry_at(row: &Row, slot: usize) -> Option<Id> {
    *row.entries.get(slot)?
}

// The set of a slot to a value.
fn put_at(row: &Row, slot: usize, value: Value) -> Option<Command> {
    let id = entry_at(row, slot)?;
    Some(Command::Set(row.entity, id, value))
}

// Field by field, within the bounds of a field.
fn sum_of(one: Value, other: Value) -> Value {
    let mut sum = one;
    for place in 0..FIELD_COUNT {
        sum.0[place] = one.0[place].saturating_add(other.0[place]);
    }
    sum
}

// The set of a slot to its value and another's together.
fn sum_at(world: &World, row: &Row, into: usize, from: usize) -> Option<Command> {
    let id = entry_at(row, into)?;
    let value = world.get(row.entity, id)?;
    let other = world.get(row.entity, entry_at(row, from)?)?;
    Some(Command::Set(row.entity, id, sum_of(value, other)))
}

// Who answers the query of a text, whose names are those of the first world.
fn rows_of(first: &World, world: &World, text: &str) -> Result<Vec<Row>, Refusal> {
    let query = first.read_query(text)?;
    world.query(&query)
}

/// The number of a refusal, and 0 for what was done.
pub fn number_of(outcome: Result<(), Refusal>) -> u8 {
    match outcome {
        Ok(()) => 0,
        Err(refusal) => refusal.number(),
    }
}

// What the set at a place does, if there is one and its id is known.
fn add_set(
    deeds: &mut Vec<Option<Deed>>,
    kept: &Kept,
    width: Width,
    id: Option<Id>,
    place: usize,
) -> Result<(), AllocError> {
    if let (Some((holder, _)), Some(id)) = (kept.set_at(width, place), id) {
        deeds.push(Some(Deed::Set(Had { holder, id })))?;
    }
    Ok(())
}

// What the sets of a run do, if the command is one.
fn add_run(
    deeds: &mut Vec<Option<Deed>>,
    kept: &Kept,
    command: &Recorded,
) -> Result<(), AllocError> {
    if let Recorded::Set {
        width,
        count,
        id,
        first,
    } = *command
    {
        for k in 0..usize::from(count) {
            add_set(deeds, kept, width, Some(id), first.wrapping_add(k))?;
        }
    }
    if let Recorded::Turns {
        width,
        count,
        turns,
        ids,
        first,
        ..
    } = *command
    {
        for k in 0..usize::from(count) {
            let turn = k.checked_rem(usize::from(turns)).unwrap_or(0);
            let id = kept.id_at(ids.wrapping_add(turn));
            add_set(deeds, kept, width, id, first.wrapping_add(k))?;
        }
    }
    Ok(())
}

// What each command of a stage does, if that is a deed, in order.
fn deeds_of(alloc: Global, stage: &Stage) -> Result<Vec<Option<Deed>>, AllocError> {
    let (commands, kept) = stage.recorded();
    let mut deeds = Vec::with_capacity(alloc, stage.len())?;
    for command in commands {
        match command {
            Recorded::Set { .. } | Recorded::Turns { .. } => add_run(&mut deeds, kept, command)?,
            _ => deeds.push(Deed::of(command))?,
        }
    }
    Ok(deeds)
}

// Puts the commands of a stage behind others, with the outcomes of their report.
fn add_done(done: &mut Vec<Done>, stages: &[Stage; 1], report: &Report) -> Result<(), AllocError> {
    let deeds = deeds_of(*done.allocator(), &stages[0])?;
    let mut next = deeds.iter();
    for outcome in report.iter() {
        let deed = next.next().copied().flatten();
        done.push(Done { deed, outcome })?;
    }
    Ok(())
}

impl OneByOne {
    /// None has run yet.
    pub fn begin(alloc: Global, first: &World) -> Result<OneByOne, AllocError> {
        let world = first.try_copy()?;
        Ok(OneByOne {
            world,
            done: Vec::new(alloc),
            stages: [Stage::new(alloc)],
            drawn: 0,
        })
    }

    // Puts a command behind the others, if there is one.
    fn record(&mut self, command: Option<Command>) {
        if let Some(command) = command {
            let _handed_back = self.stages[0].record(command);
        }
    }

    // A fresh entity lives, and has the id if one is given.
    fn spawn(&mut self, id: Option<Id>) {
        let fresh = Entity {
            index: self.world.high().wrapping_add(self.drawn),
            generation: 0,
        };
        self.drawn = self.drawn.wrapping_add(1);
        self.record(Some(Command::Create(fresh)));
        if let Some(id) = id {
            self.record(Some(Command::Add(fresh, id)));
        }
    }

    // Records an action for a row.
    fn act(&mut self, row: &Row, action: Action) {
        let entity = row.entity;
        match action {
            Action::AddId(id) => self.record(Some(Command::Add(entity, id))),
            Action::RemoveId(id) => self.record(Some(Command::Remove(entity, id))),
            Action::Put { slot, value } => self.record(put_at(row, slot, value)),
            Action::Sum { into, from } => {
                let sum = sum_at(&self.world, row, into, from);
                self.record(sum)
            }
            Action::Kill => self.record(Some(Command::Delete(entity))),
            Action::Spawn(id) => self.spawn(id),
        }
    }

    // Records what a system does with a row.
    fn act_all(&mut self, row: &Row, deeds: Deeds) {
        match deeds {
            Deeds::Script(actions) => {
                self.act(row, actions[0]);
                self.act(row, actions[1]);
            }
            Deeds::Sweep(id) => {
                self.record(Some(Command::Clear(row.entity)));
                self.record(Some(Command::DeleteWith(id)));
            }
        }
    }

    // Records what a system does with all of its rows.
    fn record_all(&mut self, rows: &[Row], deeds: Deeds) {
        self.stages[0].clear();
        self.drawn = 0;
        for row in rows {
            self.act_all(row, deeds);
        }
    }

    // Merges what was recorded.
    fn merge(&mut self) -> bool {
        match self.world.merge(self.drawn, &self.stages) {
            Ok(report) => add_done(&mut self.done, &self.stages, &report).is_ok(),
            Err(_) => false,
        }
    }

    // Runs a system, which was declared on the first world.
    fn run_plan(&mut self, first: &World, plan: &FramePlan) -> bool {
        match rows_of(first, &self.world, plan.text) {
            Ok(rows) => {
                self.record_all(&rows, plan.deeds);
                self.merge()
            }
            Err(_) => false,
        }
    }

    // Runs those of a phase, in their order.
    fn run_phase(&mut self, first: &World, plans: &[FramePlan], phase: Phase) -> bool {
        let mut are_run = true;
        for plan in plans {
            if plan.phase == phase {
                are_run &= self.run_plan(first, plan);
            }
        }
        are_run
    }

    /// Runs the systems, which were declared on the first world, phase by phase and in their order, and tells whether that was done.
    pub fn run(&mut self, first: &World, plans: &[FramePlan]) -> bool {
        let mut are_run = true;
        for phase in PHASES {
            are_run &= self.run_phase(first, plans, phase);
        }
        are_run
    }
}
