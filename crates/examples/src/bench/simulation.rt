//! A world and its systems.
ghost use Rattle.std.specs.Prelude.{◌≤◌};

use crate::bench::failure::Failure;
use crate::bench::group::Group;
use crate::bench::heavy::Heavy;
use crate::bench::setting::LIMIT;
use eco_bodies::{Action, Script, SystemBody, Systems};
use eco_frame::{Pipeline, sync_points};
use eco_ids::{Entity, Id, Refusal, Value};
use eco_systems::Phase;
use eco_world::{Query, World};
use std::alloc::{AllocError, Global};
use std::rt::Clock;
use std::thread::Threads;
use std::time::{Duration, Instant};

// How many terms the query of a system has in the case of sync points.
const TERMS: u32 = 10;

/// A world with the systems of a frame, which have bodies of one type.
pub struct Simulation<B> {
    world: World,
    systems: Systems<B>,
}

// By hand, so that dropping it is one call: a derived drop is proved anew at each early return of whoever holds it.
impl<B: Drop> Drop for Simulation<B> {
    fn drop(self) {
        let Simulation {
            world: _,
            systems: _,
        } = self;
    }
}

impl<B: SystemBody + Sync + Drop> Simulation<B> {
    /// Nothing but what lives from the start.
    pub fn new(alloc: Global) -> Result<Simulation<B>, Refusal> {
        Ok(Simulation {
            world: World::new(alloc, LIMIT)?,
            systems: Systems::new(alloc),
        })
    }

    // Adds a system.
    fn add(&mut self, name: &str, query: Query, body: B) -> Result<(), Refusal> {
        match self.systems.add(name, Phase::OnUpdate, query, body) {
            Ok(()) => Ok(()),
            Err(refused) => Err(refused.refusal),
        }
    }

    // So many entities, each with these values of the components.
    fn make_entities(&mut self, count: u32, values: &[(Entity, Value)]) -> Result<(), Refusal> {
        for _ in 0..count {
            let entity = self.world.create(None)?;
            for (component, value) in values {
                self.world.set(entity, Id::One(*component), *value)?;
            }
        }
        Ok(())
    }

    /// Runs frames of a pipeline by at most so many workers, of 1 to 64 the nearest: first some before the time is taken, and then
    /// those that are measured. The pipeline keeps batches and memory from one to the next. Answers how long the measured ones
    /// took; that they ran fewer commands than so many is a wrong answer.
    pub fn time<R: Clock + Threads + Sync>(
        &mut self,
        rt: &R,
        alloc: Global,
        before: u32,
        frames: u32,
        workers: u32,
        least: usize,
    ) -> Result<Duration, Failure> {
        let workers = workers.clamp(1, 64);
        let mut pipeline = Pipeline::new(alloc, &self.world, &self.systems)?;
        run(&mut pipeline, rt, alloc, &mut self.world, before, workers)?;
        let (time, commands) = time_run(
            &mut pipeline,
            rt,
            alloc,
            &mut self.world,
            frames,
            workers,
        )?;
        if commands >= least {
            Ok(time)
        } else {
            Err(Failure::WrongAnswer)
        }
    }

    /// Makes the batches of the systems, and answers how many they are.
    pub fn cut(&self, alloc: Global) -> Result<usize, AllocError> {
        Ok(sync_points(alloc, &self.world, &self.systems)?.len())
    }
}

// Runs so many frames, and answers how many commands these ran.
fn run<B: SystemBody + Sync + Drop, R: Threads + Sync>(
    pipeline: &mut Pipeline<'_, B>,
    rt: &R,
    alloc: Global,
    world: &mut World,
    frames: u32,
    workers: u32,
) -> Result<usize, Refusal>
    requires { (1 ≤ workers) × (workers ≤ 64) }
{
    let mut commands = 0usize;
    for _ in 0..frames {
        match pipeline.run(rt, alloc, world, workers) {
            Ok(report) => commands = commands.saturating_add(report.commands()),
            Err(stop) => return Err(stop.refusal),
        }
    }
    Ok(commands)
}

// Runs so many frames, and answers how long they took and how many commands they ran.
fn time_run<B: SystemBody + Sync + Drop, R: Clock + Threads + Sync>(
    pipeline: &mut Pipeline<'_, B>,
    rt: &R,
    alloc: Global,
    world: &mut World,
    frames: u32,
    workers: u32,
) -> Result<(Duration, usize), Failure>
    requires { (1 ≤ workers) × (workers ≤ 64) }
{
    let start = Instant::now(rt)?;
    let commands = run(pipeline, rt, alloc, world, frames, workers)?;
    Ok((start.elapsed(rt)?, commands))
}

// The query of a system that asks for ten components, from one on each hundredth, and writes the first.
fn text_of_ten(alloc: Global, components: Group, number: u32) -> Result<String, AllocError> {
    let first = components.at(number);
    let mut text = format!(in alloc; "[inout] {first}")?;
    for term in 1..TERMS {
        let component = components.at(number.wrapping_add(100 * term));
        let slot = format!(in alloc; ", [in] {component}")?;
        text.push_str(slot.as_str())?;
    }
    Ok(text)
}

// A body of these actions.
fn script_of(alloc: Global, query: &Query, actions: &[Action]) -> Result<Script, Refusal> {
    let actions = Vec::from_slice(alloc, actions)?;
    Script::new(alloc, query, actions)
}

impl Simulation<Script> {
    // Adds a system of these actions, which is named by a number.
    fn add_system(
        &mut self,
        alloc: Global,
        number: u32,
        text: &str,
        actions: &[Action],
    ) -> Result<(), Refusal> {
        let query = self.world.read_query(text)?;
        let body = script_of(alloc, &query, actions)?;
        let name = format!(in alloc; "s{number}")?;
        self.add(&name, query, body)
    }

    /// So many entities have values of two components, and a system adds the second to the first.
    pub fn make_sum(&mut self, alloc: Global, size: u32) -> Result<(), Refusal> {
        let position = self.world.component(Some("P"), 2)?;
        let velocity = self.world.component(Some("V"), 2)?;
        self.make_entities(
            size,
            &[(position, Value::of([1, 2])), (velocity, Value::of([3, 4]))],
        )?;
        self.add_system(
            alloc,
            0,
            "[inout] P, [in] V",
            &[Action::Sum { into: 0, from: 1 }],
        )
    }

    /// A hundredth as many components of one field, each of which one entity has and one system doubles.
    pub fn make_many(&mut self, alloc: Global, size: u32) -> Result<(), Refusal> {
        for number in 0..size / 100 {
            let component = self.world.component(None, 1)?;
            self.make_entities(1, &[(component, Value::of([1]))])?;
            let text = format!(in alloc; "{component}")?;
            self.add_system(alloc, number, &text, &[Action::Sum { into: 0, from: 0 }])?;
        }
        Ok(())
    }

    // So many entities, each with this tag.
    fn make_tagged(&mut self, count: u32, tag: Entity) -> Result<(), Refusal> {
        for _ in 0..count {
            let entity = self.world.create(None)?;
            self.world.add(entity, Id::One(tag))?;
        }
        Ok(())
    }

    /// So many entities have a tag, and a system makes an entity with another tag for each.
    pub fn make_spawn(&mut self, alloc: Global, size: u32) -> Result<(), Refusal> {
        let tag = self.world.create(Some("T"))?;
        let other = self.world.create(Some("U"))?;
        self.make_tagged(size, tag)?;
        self.add_system(alloc, 0, "T", &[Action::Spawn(Some(Id::One(other)))])
    }

    /// So many entities have a tag. A system adds another to each who lacks it, and one takes that away from each who has it, and
    /// adds a third and takes it away.
    pub fn make_tags(&mut self, alloc: Global, size: u32) -> Result<(), Refusal> {
        let tag = self.world.create(Some("T"))?;
        let other = Id::One(self.world.create(Some("U"))?);
        let third = Id::One(self.world.create(Some("V"))?);
        self.make_tagged(size, tag)?;
        self.add_system(alloc, 0, "T, !U", &[Action::AddId(other)])?;
        let turns = [
            Action::RemoveId(other),
            Action::AddId(third),
            Action::RemoveId(third),
        ];
        self.add_system(alloc, 1, "T, U", &turns)
    }

    /// As many systems as components: each asks for ten of these, from its own on each hundredth, and writes its own. So of a
    /// thousand each hundred systems are a batch.
    pub fn make_points(&mut self, alloc: Global, size: u32) -> Result<(), Refusal> {
        let components = Group::new(self.world.high(), size);
        for _ in 0..size {
            self.world.component(None, 1)?;
        }
        for number in 0..size {
            let text = text_of_ten(alloc, components, number)?;
            self.add_system(alloc, number, &text, &[Action::Sum { into: 0, from: 0 }])?;
        }
        Ok(())
    }
}

impl Simulation<Heavy> {
    /// So many entities have a value of one field, and a system sets each to a number that takes long to find.
    pub fn make_heavy(&mut self, size: u32) -> Result<(), Refusal> {
        let component = self.world.component(Some("P"), 1)?;
        self.make_entities(size, &[(component, Value::of([1]))])?;
        let query = self.world.read_query("P")?;
        self.add("mix", query, Heavy::new(component))
    }
}
