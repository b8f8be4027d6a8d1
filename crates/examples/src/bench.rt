//! The bench: measures the calls of a world, frames of systems, and a shared world, each case with so many entities, and prints how
//! long one call takes.
mod arguments;
mod call_case;
mod calls;
mod case;
mod each;
mod failure;
mod frames;
mod group;
mod heavy;
mod per_call;
mod setting;
mod setup;
mod shared;
mod simulation;
mod start;
mod work;

use arguments::{Choice, HELP};
use call_case::CALL_CASES;
use case::Case;
use failure::Failure;
use frames::FRAME_CASES;
use shared::SHARED_CASES;
use std::alloc::Global;
use std::io;
use std::rt::Clock;
use std::sync::Wait;
use std::thread::Threads;

// What stands between the fields of a line.
fn between(choice: &Choice<'_>) -> &'static str {
    if choice.is_csv { "," } else { " " }
}

// The line of a case at one size: what one call took, in hundredths of a nanosecond, or where nothing is measured the size alone.
fn print_line<R: Print>(
    rt: &R,
    choice: &Choice<'_>,
    name: &str,
    size: u32,
    hundredths: Option<u64>,
) -> io::Result<()> {
    let between = between(choice);
    let Some(hundredths) = hundredths else {
        return println!(rt; "{name}{between}{size}");
    };
    let (whole, rest) = (hundredths / 100, hundredths % 100);
    println!(rt; "{name}{between}{size}{between}{whole}.{rest:02}")
}

// The names of the fields, where they are asked for.
fn print_names<R: Print>(rt: &R, choice: &Choice<'_>) -> io::Result<()> {
    match (choice.is_csv, choice.is_run) {
        (false, _) => Ok(()),
        (true, false) => println!(rt; "case,size"),
        (true, true) => println!(rt; "case,size,nanoseconds"),
    }
}

// The lines of a case at each of its sizes that is chosen.
fn print_case<R: Print + Clock + Threads + Wait + Copy + Drop + Send + Sync + 'static>(
    rt: R,
    alloc: Global,
    choice: &Choice,
    case: Case,
) -> Result<(), Failure> {
    for size in case.sizes() {
        if choice.takes(case.name(), *size) {
            let hundredths = case.best_hundredths(rt, alloc, choice, *size)?;
            print_line(&rt, choice, case.name(), *size, hundredths)?;
        }
    }
    Ok(())
}

// The lines of all cases that are chosen.
fn print_all<R: Print + Clock + Threads + Wait + Copy + Drop + Send + Sync + 'static>(
    rt: R,
    alloc: Global,
    choice: &Choice,
) -> Result<(), Failure> {
    print_names(&rt, choice)?;
    for case in CALL_CASES {
        print_case(rt, alloc, choice, Case::Call(case))?;
    }
    for case in FRAME_CASES {
        print_case(rt, alloc, choice, Case::Frame(case))?;
    }
    for case in SHARED_CASES {
        print_case(rt, alloc, choice, Case::Shared(case))?;
    }
    Ok(())
}

// Does what the words ask for.
fn answer<R: Print + Clock + Threads + Wait + Copy + Drop + Send + Sync + 'static>(
    rt: R,
    alloc: Global,
    words: &[String],
) -> Result<(), Failure> {
    match arguments::read(words) {
        Some(choice) if choice.wants_help => Ok(rt.print(HELP)?),
        Some(choice) => print_all(rt, alloc, &choice),
        None => Err(Failure::BadArguments),
    }
}

/// Measures the cases that these words ask for, or lists them, and answers the status: 0, 1 where a call, a device or memory failed,
/// and 64 for words that ask for nothing that there is.
pub fn run<R: Print + Eprint + Clock + Threads + Wait + Copy + Drop + Send + Sync + 'static>(
    rt: R,
    alloc: Global,
    words: &[String],
) -> u8 {
    match answer(rt, alloc, words) {
        Ok(()) => 0,
        Err(failure) => {
            // The status tells it too, so a standard error that is shut changes nothing.
            let _ = eprintln!(&rt; "bench: {failure}");
            failure.code()
        }
    }
}
