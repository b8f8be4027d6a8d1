//! The words of the command line.

ghost use Rattle.std.specs.Prelude.{IfOk};
ghost use Rattle.flecsrun.specs.Arguments.{AreGoodArguments};

use clap::error::ErrorKind;
use clap::{Arg, ArgAction, ArgMatches, Command, Error};
use eco_script::Status;
use std::alloc::{AllocError, Global};

/// What the command line asks for.
#[derive(Drop)]
pub enum Args {
    /// A run of the script on standard input, with so many workers, 1 to 64.
    Run(u32),
    /// The text that tells how to call the program.
    Help(String),
}

// The command line that the program reads.
fn command<'a>(alloc: Global) -> Result<Command<'a>, AllocError> {
    let workers = Arg::new(alloc, "workers")
        .long("workers")
        .value_name("N")
        .help("How many threads work on a frame, 1 to 64")
        .action(ArgAction::Set)
        .default_value("1")
        .value_parser(clap::value_parser!(u32).range(1..=64));
    Command::new(alloc, "flecsrun")
        .about("Runs a script of entities, ids and queries from standard input")
        .arg(workers)
}

// What the words ask for, once they were matched.
fn asked(matches: &ArgMatches) -> Result<Args, Status>
    ensures { IfOk result AreGoodArguments }
{
    match matches.get_one::<u32>("workers") {
        Some(workers) if (1..=64).contains(&workers) => Ok(Args::Run(workers)),
        _ => Err(Status::BadArguments),
    }
}

// What comes of words that were not matched: those that ask for help are among them.
fn unmatched(alloc: Global, error: &Error) -> Result<Args, Status>
    ensures { IfOk result AreGoodArguments }
{
    match error.kind() {
        ErrorKind::DisplayHelp => match error.to_string(alloc) {
            Ok(text) => Ok(Args::Help(text)),
            Err(_) => Err(Status::Stopped),
        },
        ErrorKind::OutOfMemory => Err(Status::Stopped),
        _ => Err(Status::BadArguments),
    }
}

/// Reads the words of the command line, of which the first is the program's name.
///
/// The error is `BadArguments` where the words ask for nothing that there is, and `Stopped` where memory was wanting.
pub fn read_arguments(alloc: Global, words: &[&str]) -> Result<Args, Status>
    ensures { IfOk result AreGoodArguments }
{
    let Ok(command) = command(alloc) else {
        return Err(Status::Stopped);
    };
    match command.try_get_matches_from(words) {
        Ok(matches) => asked(&matches),
        Err(error) => unmatched(alloc, &error),
    }
}
