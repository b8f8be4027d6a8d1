//! Makes a call of the library on a world of its own, and says whether the call was done as with ample memory, or was refused for
//! want of memory and left everything as it was. Whoever starts the program may refuse memory between the two lines on standard
//! error that stand round the call: `faults.sh`, at the top of the repository, refuses each request in turn.
//!
//! The status is 0 where no call is a fault, 1 where one is, 2 where there was no memory beside the call, and 64 where there is no
//! call of the name.
mod deed;
mod dump;
mod judge;
mod lack;
mod mark;
mod order;
mod scenario;
mod scene;
mod shared;
mod systems;

use eco_ids::Refusal;
use eco_shared::Blank;
use judge::judge;
use scenario::{Call, Scenario, scenarios};
use scene::make_world;
use shared::judge_shared;
use std::alloc::Global;
use std::io;
use std::marker::Brand;
use std::sync::Wait;
use std::thread::Threads;

// Makes the call of a scenario, writes what came of it, and answers whether it was no fault. The registry of a shared world gets
// its name here: `Brand` stands for one that this call picks (proofs/faults/show).
fn show<R: Print + Eprint + Threads + Wait + Copy + Drop + Sync>(
    rt: R,
    alloc: Global,
    scenario: &Scenario,
) -> Result<bool, Refusal> {
    let world = make_world(alloc, scenario)?;
    match scenario.call {
        Call::OpenShared | Call::MergeShared => {
            judge_shared::<Brand, R>(rt, alloc, Blank::new(), scenario, &world)
        }
        _ => judge(&rt, alloc, scenario, &world),
    }
}

/// Makes the call of this name, and answers the status.
pub fn call_one<R: Print + Eprint + Threads + Wait + Copy + Drop + Sync>(
    rt: R,
    alloc: Global,
    name: &str,
) -> u8 {
    for scenario in scenarios() {
        if scenario.name == name {
            return match show(rt, alloc, scenario) {
                Ok(true) => 0,
                Ok(false) => 1,
                Err(_) => 2,
            };
        }
    }
    64
}

/// Makes all calls in their order, and answers the status.
pub fn call_all<R: Print + Eprint + Threads + Wait + Copy + Drop + Sync>(
    rt: R,
    alloc: Global,
) -> u8 {
    let mut status = 0;
    for scenario in scenarios() {
        match show(rt, alloc, scenario) {
            Ok(true) => {}
            Ok(false) => status = 1,
            Err(_) => return 2,
        }
    }
    status
}

/// Writes the names of all calls, one a line.
pub fn list_names<R: Print>(rt: &R) -> io::Result<()> {
    for scenario in scenarios() {
        let name = scenario.name;
        println!(rt; "{name}")?;
    }
    Ok(())
}
