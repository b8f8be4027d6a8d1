//! Says whether a file, or standard input, is a script, and where it is none, all that is wrong with it.
#![tactic(auto)]

use eco_checker::{Verdict, check_script};
use eco_steps::Counted;
use std::io::Read;
use std::process::ExitCode;
use std::{env, fs, io};

const HELP: &str = "\
Says whether FILE, or standard input, is a script, and where it is none, all that is wrong with it.

Usage: flecscheck [FILE]

It ends with 0 for a script, 2 for what is none, 1 where a device or memory failed, and 64 for bad arguments.
";

const STOPPED: u8 = 1;

const BAD_ARGUMENTS: u8 = 64;

// Checks what a reader gives, and says how it ended.
fn check<R: Read + Drop>(rt: &HostRuntime, reader: R) -> u8 {
    let mut reader = Counted::new(reader);
    let mut writer = Counted::new(io::writer(rt));
    let verdict = check_script(rt.alloc(), &mut reader, &mut writer);
    if verdict == Verdict::Stopped {
        // The status tells it too, so a standard error that is shut changes nothing.
        let _ = eprintln!(rt; "flecscheck: stopped");
    }
    verdict.code()
}

// Checks a file.
fn check_file(rt: &HostRuntime, path: &str) -> u8 {
    match fs::open(rt, path) {
        Ok(file) => check(rt, file),
        Err(_) => {
            let _ = eprintln!(rt; "flecscheck: the file {path} cannot be read");
            STOPPED
        }
    }
}

// The words behind the program's name.
fn words(rt: &HostRuntime) -> io::Result<Vec<String>> {
    let mut words = Vec::new(rt.alloc());
    for word in env::args(rt)?.skip(1) {
        words.push(word)?;
    }
    Ok(words)
}

// Does what the words ask for.
fn answer(rt: &HostRuntime, words: &[String]) -> u8 {
    match words {
        [] => check(rt, rt.reader()),
        [word] if word.as_str() == "--help" => match rt.print(HELP) {
            Ok(()) => 0,
            Err(_) => STOPPED,
        },
        [path] if !path.as_str().starts_with('-') => check_file(rt, path.as_str()),
        _ => {
            let _ = eprintln!(rt; "flecscheck: bad arguments (see flecscheck --help)");
            BAD_ARGUMENTS
        }
    }
}

fn main(rt: HostRuntime) -> ExitCode {
    match words(&rt) {
        Ok(words) => ExitCode::from(answer(&rt, words.as_slice())),
        Err(_) => ExitCode::from(STOPPED),
    }
}
