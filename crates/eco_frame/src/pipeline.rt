//! Listed systems with their batches, which are kept from frame to frame.
ghost use Rattle.std.specs.Prelude.{◌≡◌, ◌≤◌, map, IfErr, IfOk, OnOk};
ghost use Rattle.eco_frame.specs.Plans.{batches_in};
ghost use Rattle.eco_frame.specs.Models.{ArePlaced, model_of};
ghost use Rattle.eco_frame.specs.Pipelines.{IsPlanOf};
ghost use Rattle.eco_frame.specs.Reports.{IsFrameBy};
ghost use Rattle.eco_frame.specs.Stops.{IsWhy};

use crate::Plan;
use crate::frame::{run_batches, stop_at_once};
use crate::points::declarations;
use crate::pool::StagePool;
use crate::report::FrameReport;
use crate::stop::FrameStop;
use eco_bodies::{SystemBody, Systems};
use eco_world::World;
use std::alloc::{AllocError, Global};
use std::marker::Model;
use std::thread::Threads;

/// A list of systems that is run frame by frame (Flecs manual, Systems, "Pipeline"), with its batches. These are made again
/// only where what the systems write with all that comes along has changed since the frame before. The memory of the commands
/// stays for those of the next batch.
pub struct Pipeline<'a, B: SystemBody> {
    systems: &'a Systems<B>,
    plan: Plan<'a>,
    // Whose memory the commands of the next batch take.
    pool: StagePool,
}

// By hand, so that dropping it is one call: a derived drop is proved anew at each early return of whoever holds it.
impl<B: SystemBody> Drop for Pipeline<'_, B> {
    fn drop(self) {
        let Pipeline {
            systems: _,
            plan: _,
            pool: _,
        } = self;
    }
}

impl<'a, B: SystemBody> Model for Pipeline<'a, B> {
    ghost use Rattle.std.specs.Prelude.{List};
    ghost use Rattle.eco_bodies.specs.declared.systems.System.{System};
    ghost use Rattle.eco_frame.specs.Models.{model_of};
    ghost use Rattle.eco_frame.specs.Pipelines.{IsPlanOf};

    ghost Value = { List (System B) };

    ghost view = { λ p. p.systems.now };

    ghost invariant = { λ p. IsPlanOf
        (model_of B.reads_of B.writes_of B.kills_of B.taken B.commands) p.systems.now p.plan };
}

// Makes the batches of systems those of a world.
fn renew<B: SystemBody>(
    plan: &mut Plan,
    alloc: Global,
    world: &World,
    systems: &Systems<B>,
) -> Result<(), AllocError>
    requires { IsPlanOf (model_of B.reads_of B.writes_of B.kills_of B.taken B.commands) systems.now plan.old }
    ensures plan { IsPlanOf (model_of B.reads_of B.writes_of B.kills_of B.taken B.commands)
        systems.now plan.new }
    ensures placed { OnOk result (ArePlaced world.now
        (map (model_of B.reads_of B.writes_of B.kills_of B.taken B.commands) systems.now)
        (batches_in plan.new)) }
{
    eco_systems::laws::systems_are_ordered();
    plan.renew(alloc, world)
}

impl<'a, B: SystemBody + Sync + Drop> Pipeline<'a, B> {
    /// The systems, with their batches on a world. `AllocError` comes where memory for these, or for what the systems declare,
    /// is refused.
    pub fn new(
        alloc: Global,
        world: &World,
        systems: &'a Systems<B>,
    ) -> Result<Pipeline<'a, B>, AllocError>
        ensures { IfOk result (λ p. p ≡ systems.now) }
    {
        let declared = declarations(alloc, systems.as_slice())?;
        let plan = Plan::new(alloc, world, declared)?;
        Ok(Pipeline {
            systems,
            plan,
            pool: StagePool::new(alloc),
        })
    }

    /// Runs a frame of the systems, as [`crate::run_frame`] does. Where memory for the batches is refused it stops before the
    /// first, with `OutOfMemory`, and may be run again.
    pub fn run<R: Threads + Sync>(
        &mut self,
        rt: &R,
        alloc: Global,
        world: &mut World,
        workers: u32,
    ) -> Result<FrameReport, FrameStop>
        requires workers { (1 ≤ workers) × (workers ≤ 64) }
        ensures systems { self.new ≡ self.old }
        ensures frame { IsFrameBy workers world.old
            (map (model_of B.reads_of B.writes_of B.kills_of B.taken B.commands) self.old) result world.new }
        ensures why { IfErr result (λ stop. IsWhy B.taken B.commands
            (model_of B.reads_of B.writes_of B.kills_of B.taken B.commands)
            world.old self.old stop world.new) }
    {
        let Ok(()) = renew(&mut self.plan, alloc, world, self.systems) else {
            return Err(stop_at_once(world, self.systems));
        };
        let spare = &mut self.pool.stages;
        run_batches(
            rt,
            alloc,
            world,
            self.systems,
            self.plan.batches(),
            workers,
            spare,
        )
    }
}
