//! Runs a script from standard input, and writes its lines to standard output.
#![tactic(auto)]

ghost use Rattle.std.specs.Prelude.{IfOk};
ghost use Rattle.flecsrun.specs.Arguments.{AreGoodArguments};

mod arguments;

use arguments::Args;
use eco_script::{Counted, Status, run_script};
use std::process::ExitCode;
use std::thread::Threads;
use std::{env, io};

// The words of the command line.
fn words(rt: &HostRuntime) -> io::Result<Vec<String>> {
    let mut words = Vec::new(rt.alloc());
    for word in env::args(rt)? {
        words.push(word)?;
    }
    Ok(words)
}

// What the command line asks for. A word that is no text asks for nothing that there is.
fn ask(rt: &HostRuntime) -> Result<Args, Status>
    ensures { IfOk result AreGoodArguments }
{
    let owned = match words(rt) {
        Ok(owned) => owned,
        Err(e) if e.kind() == io::ErrorKind::OutOfMemory => return Err(Status::Stopped),
        Err(_) => return Err(Status::BadArguments),
    };
    let mut words = Vec::new(rt.alloc());
    for word in &owned {
        if words.push(word.as_str()).is_err() {
            return Err(Status::Stopped);
        }
    }
    arguments::read_arguments(rt.alloc(), words.as_slice())
}

// Does what the command line asks for, frames by the threads of a handle.
fn answer<T: Threads + Sync>(rt: &HostRuntime, threads: &T) -> Status {
    match ask(rt) {
        Ok(Args::Run(workers)) => {
            let mut reader = Counted::new(rt.reader());
            let mut writer = Counted::new(io::writer(rt));
            run_script(threads, rt.alloc(), &mut reader, &mut writer, workers)
        }
        Ok(Args::Help(text)) => match rt.print(text.as_str()) {
            Ok(()) => Status::Ran,
            Err(_) => Status::Stopped,
        },
        Err(status) => status,
    }
}

fn main(rt: HostRuntime) -> ExitCode {
    let status = answer(&rt, &rt);
    if let Some(message) = status.message() {
        // The status tells it too, so a standard error that is shut changes nothing.
        let _ = eprintln!(rt; "{message}");
    }
    ExitCode::from(status.code())
}
