//! A world, and what a call on it takes.
use crate::faults::deed::{first, make_all};
use crate::faults::dump::{push, push_debug, push_rows, push_world};
use crate::faults::lack::{Lack, NOTHING, conclude, push_merge, push_run, push_stop};
use crate::faults::mark::{begin_call, end_call};
use crate::faults::order::{Marks, NONE, ORDERS, arm_one, record_all, record_one};
use crate::faults::scenario::{Call, Scenario};
use crate::faults::systems::{SYSTEMS, declare_first};
use eco_bodies::{Script, Systems};
use eco_frame::{Pipeline, run_frame};
use eco_ids::entity::{ON_DELETE, REMOVE};
use eco_ids::{Id, Refusal};
use eco_world::{Command, Query, Row, Stage, World};
use std::alloc::{AllocError, Global};
use std::thread::Threads;

// All indices of the worlds lie below it.
const LIMIT: u32 = 256;

/// How many indices a merge admits.
pub const ADMITTED: u32 = 3;

/// More than the answer of any call takes.
pub const ROOM: usize = 1_000;

/// A world, and what a call on it takes.
pub struct Scene {
    pub alloc: Global,
    call: Call,
    world: World,
    // The query that is added or answered, and the command that is recorded: the call may use it up.
    query: Option<Query>,
    command: Option<Command>,
    /// What a merge does, or a command is recorded behind.
    pub stages: [Stage; 2],
    systems: Systems<Script>,
    /// What calls answered, and what the world told behind them.
    pub text: String,
}

// By hand, so that dropping it is one call: a derived drop is proved anew at each early return of whoever holds it.
impl Drop for Scene {
    fn drop(self) {
        let Scene {
            alloc: _,
            call: _,
            world: _,
            query: _,
            command: _,
            stages: _,
            systems: _,
            text: _,
        } = self;
    }
}

/// The world of a scenario.
pub fn make_world(alloc: Global, scenario: &Scenario) -> Result<World, Refusal> {
    let mut world = World::of_edition(alloc, scenario.edition, LIMIT)?;
    make_all(&mut world, scenario.deeds)?;
    Ok(world)
}

// Reads the text of the query that is added or answered.
fn arm_query(query: &mut Option<Query>, world: &World, text: &str) -> Result<(), Refusal> {
    *query = Some(world.read_query(text)?);
    Ok(())
}

// Makes an entity.
fn create(text: &mut String, world: &mut World, name: &str) -> Result<(), Refusal> {
    let entity = world.create(Some(name))?;
    Ok(push(text, &entity)?)
}

// Reads a query's text.
fn read_query(text: &mut String, world: &World, read: &str) -> Result<(), Refusal> {
    let query = world.read_query(read)?;
    Ok(push(text, &query)?)
}

// Adds the query.
fn add_query(
    text: &mut String,
    world: &mut World,
    query: &mut Option<Query>,
) -> Result<(), Refusal> {
    if let Some(query) = query.take() {
        let number = world.add_query(query)?.0;
        push(text, &number)?;
    }
    Ok(())
}

// Writes what a query answered.
fn push_found(text: &mut String, rows: &[Row]) -> Result<(), AllocError> {
    text.push_str(" rows")?;
    push_rows(text, rows)
}

// Answers the query.
fn find(text: &mut String, world: &World, query: &Option<Query>) -> Result<(), Refusal> {
    if let Some(query) = query {
        let rows = world.query(query)?;
        push_found(text, &rows)?;
    }
    Ok(())
}

// Makes a pipeline of the systems, and runs a frame of it by one worker.
fn run_pipeline<R: Threads + Sync>(
    rt: &R,
    alloc: Global,
    text: &mut String,
    world: &mut World,
    systems: &Systems<Script>,
) -> Result<Lack, Refusal> {
    let mut pipeline = Pipeline::new(alloc, world, systems)?;
    push_run(text, pipeline.run(rt, alloc, world, 1))
}

// What of a call is lacking that is done or refused as a whole, where it is not refused.
fn whole(outcome: Result<(), Refusal>) -> Result<Lack, Refusal> {
    match outcome {
        Ok(()) => Ok(NOTHING),
        Err(refusal) => Err(refusal),
    }
}

impl Scene {
    /// A call on a copy of the world. Copies have no room to spare, so what grows asks for it.
    pub fn new(alloc: Global, call: Call, world: &World) -> Result<Scene, AllocError> {
        let world = world.try_copy()?;
        Ok(Scene {
            alloc,
            call,
            world,
            query: None,
            command: None,
            stages: [Stage::new(alloc), Stage::new(alloc)],
            systems: Systems::new(alloc),
            text: String::new(alloc),
        })
    }

    /// Makes what the call takes. Of a merge these commands are left out.
    pub fn arm(&mut self, left_out: &Marks) -> Result<(), Refusal> {
        match self.call {
            Call::AddQuery(text) | Call::Query(text) => {
                arm_query(&mut self.query, &self.world, text)
            }
            Call::Record(order) => arm_one(self.alloc, &mut self.command, order),
            Call::Merge | Call::OpenShared | Call::MergeShared => {
                record_all(self.alloc, &mut self.stages, ORDERS, left_out)
            }
            Call::Frame | Call::Pipeline => {
                declare_first(self.alloc, &self.world, &mut self.systems, SYSTEMS)
            }
            Call::Change(_) | Call::Create(_) | Call::ReadQuery(_) => Ok(()),
        }
    }

    // Makes the call, and writes what it answers.
    fn make<R: Threads + Sync>(&mut self, rt: &R) -> Result<Lack, Refusal> {
        match self.call {
            Call::Merge | Call::OpenShared | Call::MergeShared => {
                push_merge(&mut self.text, self.world.merge(ADMITTED, &self.stages))
            }
            Call::Frame => {
                let outcome = run_frame(rt, self.alloc, &mut self.world, &self.systems, 1);
                push_run(&mut self.text, outcome)
            }
            Call::Pipeline => run_pipeline(
                rt,
                self.alloc,
                &mut self.text,
                &mut self.world,
                &self.systems,
            ),
            Call::Change(deed) => whole(deed.make(&mut self.world)),
            Call::Create(name) => whole(create(&mut self.text, &mut self.world, name)),
            Call::ReadQuery(query) => whole(read_query(&mut self.text, &self.world, query)),
            Call::AddQuery(_) => whole(add_query(&mut self.text, &mut self.world, &mut self.query)),
            Call::Query(_) => whole(find(&mut self.text, &self.world, &self.query)),
            Call::Record(_) => whole(record_one(&mut self.stages, &mut self.command)),
        }
    }

    /// Makes the call, writes what it answers, and says what of it was refused for want of memory.
    pub fn call<R: Threads + Sync>(&mut self, rt: &R) -> Lack {
        let outcome = self.make(rt);
        conclude(&mut self.text, outcome)
    }

    /// The same between the two lines on standard error. Its answer is written into room that was there before.
    pub fn call_marked<R: Eprint + Threads + Sync>(&mut self, rt: &R) -> Result<Lack, Refusal> {
        self.text.reserve(ROOM)?;
        begin_call(rt);
        let lack = self.call(rt);
        end_call(rt);
        Ok(lack)
    }

    // Runs the first systems, so many.
    fn run_first<R: Threads + Sync>(&mut self, rt: &R, count: usize) -> Result<Lack, Refusal> {
        declare_first(self.alloc, &self.world, &mut self.systems, count)?;
        let _shorter = run_frame(rt, self.alloc, &mut self.world, &self.systems, 1);
        Ok(push_stop(&mut self.text, count)?)
    }

    /// Does what the same call left on an equal world, of which this was refused for want of memory, and writes what it is to
    /// have answered: a call that was refused left all as it was, a merge did what found memory, and a frame that stopped the
    /// batches before.
    pub fn follow<R: Threads + Sync>(&mut self, rt: &R, lack: Lack) -> Result<(), Refusal> {
        let outcome = match lack {
            Lack::All => {
                self.arm(&NONE)?;
                Err(Refusal::OutOfMemory)
            }
            Lack::Behind(count) => self.run_first(rt, count),
            Lack::Commands(left_out) => {
                self.arm(&left_out)?;
                self.make(rt)
            }
        };
        conclude(&mut self.text, outcome);
        Ok(())
    }

    // Makes a table that no kept query asks for, where no entity or handle is made and nobody's death is another. What a
    // refused call left behind of a table that it was to make is met by this one.
    fn disturb(&mut self) {
        let made_first = first(self.world.edition().builtin_count());
        let _done_or_refused = self.world.add(made_first, Id::Two(ON_DELETE, REMOVE));
    }

    /// Writes all that the world tells, and of a command that is recorded where it stands.
    pub fn show(&mut self) -> Result<(), AllocError> {
        push_world(&mut self.text, self.alloc, &self.world)?;
        if let Call::Record(_) = self.call {
            push_debug(&mut self.text, &self.stages)?;
            push_debug(&mut self.text, &self.command)?;
        }
        Ok(())
    }

    /// Writes what the world tells, now and when it was changed, and makes the call once more.
    pub fn go_on<R: Threads + Sync>(&mut self, rt: &R) -> Result<(), Refusal> {
        self.show()?;
        self.disturb();
        self.show()?;
        self.arm(&NONE)?;
        self.call(rt);
        self.show()?;
        Ok(())
    }
}
