//! Runs a script, and shows each step beside its lines; draws pictures of the world that it leads to.
#![tactic(auto)]

mod arguments;
mod named;
mod pictures;
mod stopped;
mod view;

ghost use Rattle.std.specs.Prelude.{◌≤◌, All};
ghost use Rattle.eco_ids.specs.Edition.{builtin_count};
ghost use Rattle.eco_steps.specs.Steps.{KeepsTo};
ghost use Rattle.eco_steps.specs.Views.{step_view};

use arguments::Request;
use eco_bodies::Systems;
use eco_steps::{ReadError, WrittenScript, read_list};
use eco_world::World;
use serde_json::Value;
use std::process::ExitCode;
use std::thread::Threads;
use std::{env, fs, io};
use stopped::Stopped;

const HELP: &str = "\
Runs the script in FILE, or on standard input, and shows each step beside its lines.

Usage: flecsview [FILE] [--names] [--tables FILE] [--graph FILE] [--batches FILE]

  --names         names in place of the handles of those who have one
  --tables FILE   draws the tables of the world that the script leads to, as SVG
  --graph FILE    draws the pairs between its named entities
  --batches FILE  draws the batches of the systems, and why there is a sync point between them

It ends with 0 where the script was run, 2 where it is none, 1 where a device or memory failed, and 64 for bad arguments.
";

const STOPPED: u8 = 1;

const NOT_READ: u8 = 2;

const BAD_ARGUMENTS: u8 = 64;

// The bytes of the script.
fn read_bytes(rt: &HostRuntime, script: Option<&str>) -> io::Result<Vec<u8>> {
    match script {
        Some(path) => fs::read(rt, path),
        None => {
            let mut bytes = Vec::new(rt.alloc());
            io::Read::read_to_end(&mut rt.reader(), &mut bytes)?;
            Ok(bytes)
        }
    }
}

// The values of the steps of a script.
fn step_values(value: &Value) -> &[Value] {
    match read_list(value) {
        Some([_, _, steps]) => read_list(steps).unwrap_or(&[]),
        _ => &[],
    }
}

// Says why nothing is run. The status tells it too, so a standard error that is shut changes nothing.
fn refuse(rt: &HostRuntime, why: &str, status: u8) -> u8 {
    let _ = eprintln!(rt; "flecsview: {why}");
    status
}

// Runs a script, shows its steps, and draws what is asked for.
fn view_script<T: Threads + Sync>(
    rt: &HostRuntime,
    threads: &T,
    request: &Request<'_>,
    script: &WrittenScript<'_>,
    values: &[Value],
) -> Result<u8, Stopped>
    requires at_least { builtin_count script.now.edition ≤ script.now.limit }
    requires at_most { script.now.limit ≤ 1048576 }
    requires keeps { All (λ step. KeepsTo script.now.edition (step_view step)) script.now.steps.items }
{
    let Ok(mut world) = World::of_edition(rt.alloc(), script.edition, script.limit) else {
        return Err(Stopped);
    };
    let mut systems = Systems::new(rt.alloc());
    let steps = script.steps.as_slice();
    view::view_steps(
        rt,
        threads,
        &mut world,
        &mut systems,
        steps,
        values,
        request.has_names,
    )?;
    pictures::draw(rt, request, &world, &systems)?;
    Ok(0)
}

// Views what bytes are.
fn view_bytes<T: Threads + Sync>(
    rt: &HostRuntime,
    threads: &T,
    request: &Request<'_>,
    bytes: &[u8],
) -> Result<u8, Stopped> {
    let value = match Value::from_slice(rt.alloc(), bytes) {
        Ok(value) => value,
        Err(e) if e.is_memory() => return Err(Stopped),
        Err(_) => return Ok(refuse(rt, "script not read", NOT_READ)),
    };
    match WrittenScript::read(rt.alloc(), &value) {
        Ok(script) => view_script(rt, threads, request, &script, step_values(&value)),
        Err(ReadError::NotAScript) => Ok(refuse(rt, "script not read", NOT_READ)),
        Err(ReadError::OutOfMemory) => Err(Stopped),
    }
}

// The words behind the program's name.
fn words(rt: &HostRuntime) -> io::Result<Vec<String>> {
    let mut words = Vec::new(rt.alloc());
    for word in env::args(rt)?.skip(1) {
        words.push(word)?;
    }
    Ok(words)
}

// Does what the words ask for.
fn answer<T: Threads + Sync>(
    rt: &HostRuntime,
    threads: &T,
    words: &[String],
) -> Result<u8, Stopped> {
    let Some(request) = arguments::read(words) else {
        let why = "bad arguments (see flecsview --help)";
        return Ok(refuse(rt, why, BAD_ARGUMENTS));
    };
    if request.wants_help {
        rt.print(HELP)?;
        return Ok(0);
    }
    let bytes = read_bytes(rt, request.script)?;
    view_bytes(rt, threads, &request, bytes.as_slice())
}

// The status with which the program ends.
fn run<T: Threads + Sync>(rt: &HostRuntime, threads: &T) -> Result<u8, Stopped> {
    let words = words(rt)?;
    answer(rt, threads, words.as_slice())
}

fn main(rt: HostRuntime) -> ExitCode {
    match run(&rt, &rt) {
        Ok(status) => ExitCode::from(status),
        Err(_) => ExitCode::from(refuse(&rt, "stopped", STOPPED)),
    }
}
