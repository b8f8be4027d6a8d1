//! Runs of scripts.

ghost use Rattle.std.specs.Prelude.{◌≡◌, ◌≢◌, ℕ, ◌+◌, ◌^◌, ◌<◌, ◌≤◌, List, [], ◌++◌, All, Some, IfOk, OnOk, OnErr};
ghost use Rattle.std.specs.Prelude.{IsErrOf, IsNone, IsSomeAnd, map, string_bytes};
ghost use Rattle.std.specs.Io.KnownBytes.{Appends};
ghost use Rattle.eco_steps.specs.Beginning.{IsBeginning};
ghost use Rattle.eco_ids.specs.World.{WorldState};
ghost use Rattle.eco_script.specs.Run.{RanTo, WasNotRead, WasStopped};
ghost use Rattle.eco_script.specs.States.{ScriptState};
ghost use Rattle.eco_script.specs.Systems.{reached};
ghost use Rattle.eco_script.specs.Text.{Does, Text};
ghost use Rattle.eco_steps.specs.Steps.{KeepsTo};
ghost use Rattle.eco_steps.specs.Views.{step_view};

use crate::fault::Fault;
use crate::status::Status;
use crate::{perform, reply};
use eco_bodies::Systems;
use eco_frame::StagePool;
use eco_steps::{DeviceFailed, ReadError, ScriptReader, ScriptWriter, WrittenScript, WrittenStep};
use eco_world::World;
use serde_json::Value;
use std::alloc::{AllocError, Global};
use std::thread::Threads;

// How many bytes of lines are gathered before they are written.
const GATHERED: usize = 65_536;

// Runs a step, and puts its lines behind others. The error is want of memory for the lines.
fn run_step<R: Threads + Sync>(
    rt: &R,
    alloc: Global,
    world: &mut World,
    systems: &mut Systems,
    workers: u32,
    pool: &mut StagePool,
    step: &WrittenStep<'_>,
    text: &mut String,
) -> Result<(), AllocError>
    requires workers { (1 ≤ workers) × (workers ≤ 64) }
    requires keeps { KeepsTo world.old.edition (step_view step.now) }
    ensures lines { OnOk result ((lines : List ℕ)
        × Does workers (reached world.old systems.old) (step_view step.now) lines
        (reached world.new systems.new)
        × (string_bytes text.new ≡ string_bytes text.old ++ lines)) }
    ensures edition { world.new.edition ≡ world.old.edition }
{
    let answer = perform::perform(rt, alloc, world, systems, workers, pool, step);
    reply::push_step_lines(text, world, &answer)
}

// Writes the gathered lines, if there are many of them, and gathers anew.
fn write_many<W: ScriptWriter>(writer: &mut W, text: &mut String) -> Result<(), DeviceFailed>
    requires countable { W.failures writer.old + 1 < 2 ^ 64 }
    ensures ok { OnOk result ((part : List ℕ) × (string_bytes text.old ≡ part ++ string_bytes text.new)
        × Appends (W.held writer.old) (W.held writer.new) part) }
    ensures counts_none { OnOk result (W.failures writer.new ≡ W.failures writer.old) }
    ensures err { OnErr result ((part : List ℕ) × IsBeginning part (string_bytes text.old)
        × Appends (W.held writer.old) (W.held writer.new) part) }
    ensures counts_one { OnErr result (W.failures writer.new ≡ W.failures writer.old + 1) }
{
    if text.len() >= GATHERED {
        eco_steps::write_all(writer, text.as_str().as_bytes())?;
        text.clear();
    }
    Ok(())
}

// Runs the steps on a world, and writes their lines. The world is then the one that they lead to.
fn run_steps<R: Threads + Sync, W: ScriptWriter>(
    rt: &R,
    alloc: Global,
    world: &mut World,
    workers: u32,
    steps: &[WrittenStep<'_>],
    writer: &mut W,
) -> Result<(), Fault>
    requires workers { (1 ≤ workers) × (workers ≤ 64) }
    requires keeps { All (λ step. KeepsTo world.old.edition (step_view step)) steps.now }
    requires countable { W.failures writer.old + 1 < 2 ^ 64 }
    ensures ok { OnOk result ((text : List ℕ) × (end : ScriptState)
        × Text workers (reached world.old []) (map step_view steps.now) text end × (end.world ≡ world.new)
        × Appends (W.held writer.old) (W.held writer.new) text) }
    ensures err { OnErr result ((part : List ℕ) × (text : List ℕ) × (end : ScriptState)
        × Text workers (reached world.old []) (map step_view steps.now) text end
        × IsBeginning part text × Appends (W.held writer.old) (W.held writer.new) part) }
    ensures device { IsErrOf result Fault.Device → W.failures writer.new ≡ W.failures writer.old + 1 }
    ensures read { IsErrOf result Fault.NotRead → ⊥ }
{
    eco_grammar::laws::texts_are_read();
    let mut systems = Systems::new(alloc);
    let mut pool = StagePool::new(alloc);
    let mut text = String::new(alloc);
    for step in steps {
        let Ok(()) = run_step(
            rt,
            alloc,
            world,
            &mut systems,
            workers,
            &mut pool,
            step,
            &mut text,
        ) else {
            return Err(Fault::Memory);
        };
        let Ok(()) = write_many(writer, &mut text) else {
            return Err(Fault::Device);
        };
    }
    match eco_steps::write_all(writer, text.as_str().as_bytes()) {
        Ok(()) => Ok(()),
        Err(_) => Err(Fault::Device),
    }
}

// Runs the script that some bytes are, to the world that it leads to, or says why it gave up.
fn run_bytes<R: Threads + Sync, W: ScriptWriter>(
    rt: &R,
    alloc: Global,
    bytes: &[u8],
    writer: &mut W,
    workers: u32,
) -> Result<World, Fault>
    requires workers { (1 ≤ workers) × (workers ≤ 64) }
    requires countable { W.failures writer.old + 1 < 2 ^ 64 }
    ensures ok { IfOk result (RanTo workers (Some bytes.now) (W.held writer.old) (W.held writer.new)) }
    ensures not_read { IsErrOf result Fault.NotRead
        → WasNotRead (Some bytes.now) (W.held writer.old) (W.held writer.new) }
    ensures err { OnErr result (WasStopped workers (Some bytes.now) (W.held writer.old) (W.held writer.new)) }
    ensures device { IsErrOf result Fault.Device → W.failures writer.new ≡ W.failures writer.old + 1 }
{
    let value = match Value::from_slice(alloc, bytes) {
        Ok(value) => value,
        Err(e) if e.is_memory() => return Err(Fault::Memory),
        Err(_) => return Err(Fault::NotRead),
    };
    let script = match WrittenScript::read(alloc, &value) {
        Ok(script) => script,
        Err(ReadError::NotAScript) => return Err(Fault::NotRead),
        Err(ReadError::OutOfMemory) => return Err(Fault::Memory),
    };
    let Ok(mut world) = World::of_edition(alloc, script.edition, script.limit) else {
        return Err(Fault::Memory);
    };
    run_steps(
        rt,
        alloc,
        &mut world,
        workers,
        script.steps.as_slice(),
        writer,
    )?;
    Ok(world)
}

/// Reads a script to the end of the input, and runs it on a world of its own. Its lines go to the writer in the
/// order of the steps, many at a time. The world that the run ended with comes back where all of its lines were written,
/// and only there.
///
/// Frames of the script's systems have so many workers, 1 to 64, of which the calling thread is one. With one, rows draw fresh
/// handles in their order, so that a script whose frames do not stop has at most one text where memory is never wanting; with
/// more it is open which row draws which.
pub fn run_world<T: Threads + Sync, R: ScriptReader, W: ScriptWriter>(
    rt: &T,
    alloc: Global,
    reader: &mut R,
    writer: &mut W,
    workers: u32,
) -> (Status, Option<World>)
    requires workers { (1 ≤ workers) × (workers ≤ 64) }
    requires reads { R.calls reader.old + 16777216 < 2 ^ 64 }
    requires failed_reads { R.failures reader.old + 1 < 2 ^ 64 }
    requires failed_writes { W.failures writer.old + 1 < 2 ^ 64 }
    // The bytes are a script, the text of a run of it was written, and the world is the end of that run.
    ensures ran { result.0 ≡ Status.Ran → IsSomeAnd result.1
        (RanTo workers (R.remaining reader.old) (W.held writer.old) (W.held writer.new)) }
    // The bytes are no script, and nothing was written.
    ensures not_read { result.0 ≡ Status.NotRead
        → WasNotRead (R.remaining reader.old) (W.held writer.old) (W.held writer.new) }
    // Nothing was written, or a beginning of such a text.
    ensures stopped { result.0 ≡ Status.Stopped
        → WasStopped workers (R.remaining reader.old) (W.held writer.old) (W.held writer.new) }
    ensures no_other { result.0 ≢ Status.BadArguments }
    ensures no_world { result.0 ≢ Status.Ran → IsNone result.1 }
    ensures reads { R.calls reader.new ≤ R.calls reader.old + 16777216 }
{
    let bytes = match eco_steps::read_all(alloc, reader) {
        Ok(bytes) => bytes,
        Err(_) => return (Status::Stopped, None),
    };
    match run_bytes(rt, alloc, bytes.as_slice(), writer, workers) {
        Ok(world) => (Status::Ran, Some(world)),
        Err(Fault::NotRead) => (Status::NotRead, None),
        Err(_) => (Status::Stopped, None),
    }
}

/// Reads a script to the end of the input, and runs it on a world of its own. Its lines go to the writer in the
/// order of the steps, many at a time.
///
/// Frames of the script's systems have so many workers, 1 to 64, of which the calling thread is one. With one, rows draw fresh
/// handles in their order, so that a script whose frames do not stop has at most one text where memory is never wanting; with
/// more it is open which row draws which.
pub fn run_script<T: Threads + Sync, R: ScriptReader, W: ScriptWriter>(
    rt: &T,
    alloc: Global,
    reader: &mut R,
    writer: &mut W,
    workers: u32,
) -> Status
    requires workers { (1 ≤ workers) × (workers ≤ 64) }
    requires reads { R.calls reader.old + 16777216 < 2 ^ 64 }
    requires failed_reads { R.failures reader.old + 1 < 2 ^ 64 }
    requires failed_writes { W.failures writer.old + 1 < 2 ^ 64 }
    // The bytes are a script, and the text of a run of it was written.
    ensures ran { result ≡ Status.Ran → (end : WorldState)
        × RanTo workers (R.remaining reader.old) (W.held writer.old) (W.held writer.new) end }
    // The bytes are no script, and nothing was written.
    ensures not_read { result ≡ Status.NotRead
        → WasNotRead (R.remaining reader.old) (W.held writer.old) (W.held writer.new) }
    // Nothing was written, or a beginning of such a text.
    ensures stopped { result ≡ Status.Stopped
        → WasStopped workers (R.remaining reader.old) (W.held writer.old) (W.held writer.new) }
    ensures no_other { result ≢ Status.BadArguments }
    ensures reads { R.calls reader.new ≤ R.calls reader.old + 16777216 }
{
    run_world(rt, alloc, reader, writer, workers).0
}
