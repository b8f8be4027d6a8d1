//! The library by example, a topic a file: the calls of a world (`calls`) and its systems (`frames`, `wake`), components that are
//! Rust types (`typed`), and a world that threads share (`shared`); then scripts worked out by hand (`rows`), and calls to which
//! memory may be refused (`faults`); and how long calls take (`bench`).
//!
//! Each topic has a world of its own, and its lines stand under a heading. Behind them each line of standard input is run as a
//! script, or checked, and the calls of `faults` are made. `examples NAME` makes the one call of this name, to which `faults.sh`
//! refuses memory, `examples --list` writes the names of the calls, and `examples bench` measures (`examples bench --help`). The
//! status is that of the calls, as `faults` has it, or that of `bench`, and 1 where standard input isn't read or standard output
//! isn't written.
#![tactic(auto)]

mod bench;
mod calls;
mod faults;
mod frames;
mod rows;
mod shared;
mod typed;
mod wake;

use anyhow::Result;
use faults::{call_all, call_one, list_names};
use rows::show_rows;
use std::alloc::AllocGlobal;
use std::process::ExitCode;
use std::rt::Clock;
use std::sync::Wait;
use std::thread::Threads;
use std::{env, io};

// Asks for the names of the calls.
const LIST: &str = "--list";

// Asks for the bench, whose words come behind it.
const BENCH: &str = "bench";

// The status where no word can be read, as where there is no memory beside a call.
const STOPPED: u8 = 2;

// The words behind the program's name.
fn words(rt: &HostRuntime) -> io::Result<Vec<String>> {
    let mut words = Vec::new(rt.alloc());
    for word in env::args(rt)?.skip(1) {
        words.push(word)?;
    }
    Ok(words)
}

// Shows each topic.
fn show_topics<R: Print + Threads + Wait + AllocGlobal + Copy + Drop + Send + Sync + 'static>(
    rt: R,
) -> Result<()> {
    println!(&rt; "The calls of a world")?;
    calls::show(&rt)?;
    println!(&rt; "\nTyped components")?;
    typed::show(&rt, rt.alloc())?;
    println!(&rt; "\nA shared world")?;
    shared::show(rt, rt.alloc())
}

// Shows, runs and calls all that there is, lists what the bench measures, and answers the status.
fn show_all<
    R: Print + Eprint + Clock + Threads + Wait + AllocGlobal + Copy + Drop + Send + Sync + 'static,
>(rt: &HostRuntime, threads: R) -> Result<u8> {
    show_topics(threads)?;
    show_rows(rt, &threads)?;
    let status = call_all(threads, rt.alloc());
    Ok(status.max(bench::run(threads, rt.alloc(), &[])))
}

// Does what the words ask for, and answers the status. The threads are those of the runtime, which only `main` may lend.
fn answer<
    R: Print + Eprint + Clock + Threads + Wait + AllocGlobal + Copy + Drop + Send + Sync + 'static,
>(rt: &HostRuntime, threads: R, words: &[String]) -> Result<u8> {
    let Some(word) = words.first() else {
        return show_all(rt, threads);
    };
    match word.as_str() {
        LIST => {
            list_names(rt)?;
            Ok(0)
        }
        BENCH => Ok(bench::run(threads, rt.alloc(), &words[1..])),
        name => Ok(call_one(threads, rt.alloc(), name)),
    }
}

fn main(rt: HostRuntime) -> Result<ExitCode> {
    let status = match words(&rt) {
        Ok(words) => answer(&rt, rt, words.as_slice())?,
        Err(_) => STOPPED,
    };
    Ok(ExitCode::from(status))
}
