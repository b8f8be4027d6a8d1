//! How long entries into a shared world take.
use super::merges::merge_shared;
use crate::bench::failure::Failure;
use crate::bench::per_call::hundredths_for_one;
use eco_ids::Refusal;
use eco_shared::{Merger, Naming, Viewer};
use std::alloc::Global;
use std::rt::Clock;
use std::sync::atomic::{AtomicU64, Ordering};
use std::sync::{Arc, Wait};
use std::thread;
use std::thread::{JoinHandle, Threads};
use std::time::Instant;

// So many entries of each viewer are timed.
const ENTRIES: u32 = 200_000;

/// The time of one entry, in hundredths of a nanosecond. The greatest number of known indices is asked each time, so that no entry
/// can be left out.
pub fn time_entries<J: Naming, R: Wait + Drop, C: Clock + Wait>(
    rt: &C,
    viewer: &mut Viewer<J, R>,
) -> Result<u64, Failure> {
    let start = Instant::now(rt)?;
    let mut high: u32 = 0;
    for _ in 0..ENTRIES {
        high = high.max(viewer.enter(rt).world().high());
    }
    let hundredths = hundredths_for_one(start.elapsed(rt)?, ENTRIES);
    if high == 0 {
        Err(Failure::WrongAnswer)
    } else {
        Ok(hundredths)
    }
}

// The same in a thread, which counts itself among those that are done.
fn enter<J: Naming, R: Wait + Clock + Drop>(
    rt: &R,
    mut viewer: Viewer<J, R>,
    done: Arc<AtomicU64>,
) -> u64 {
    let hundredths = time_entries(rt, &mut viewer).unwrap_or(0);
    done.fetch_add(1, Ordering::SeqCst);
    hundredths
}

// Counts the threads that are done.
fn new_counter(alloc: Global) -> Result<Arc<AtomicU64>, Refusal> {
    let counter = Arc::new(alloc, AtomicU64::new(0))?;
    Ok(counter)
}

// The last of the viewers enters in a thread of its own, if there is one and a thread can be had.
fn start<
    J: Naming + Send + 'static,
    R: Clock + Threads + Wait + Copy + Drop + Send + Sync + 'static,
>(
    rt: R,
    viewers: &mut Vec<Viewer<J, R>>,
    done: &Arc<AtomicU64>,
) -> Result<Option<JoinHandle<u64>>, Refusal> {
    let done = Arc::try_clone(done)?;
    let Some(viewer) = viewers.pop() else {
        return Ok(None);
    };
    Ok(thread::spawn(&rt, move || enter(&rt, viewer, done)).ok())
}

// So many of the viewers enter, each in a thread of its own.
fn start_all<
    J: Naming + Send + 'static,
    R: Clock + Threads + Wait + Copy + Drop + Send + Sync + 'static,
>(
    rt: R,
    alloc: Global,
    viewers: &mut Vec<Viewer<J, R>>,
    count: usize,
    done: &Arc<AtomicU64>,
) -> Result<Vec<JoinHandle<u64>>, Refusal> {
    let mut threads = Vec::new(alloc);
    for _ in 0..count {
        if let Some(started) = start(rt, viewers, done)? {
            threads.push(started)?;
        }
    }
    Ok(threads)
}

// Merges until so many threads are done.
fn merge_until<J: Naming, R: Wait + Drop>(
    alloc: Global,
    merger: &mut Merger<J, R>,
    size: u32,
    done: &AtomicU64,
    count: u64,
) -> Result<(), Refusal> {
    for turn in 0..u32::MAX {
        if done.load(Ordering::SeqCst) >= count {
            break;
        }
        merge_shared(alloc, merger, size, turn)?;
    }
    Ok(())
}

// What the threads found together.
fn sum_of<R: Threads>(rt: &R, threads: Vec<JoinHandle<u64>>) -> u64 {
    let mut sum: u64 = 0;
    for started in threads {
        sum = sum.saturating_add(started.join(rt));
    }
    sum
}

/// The time of one entry where so many of the viewers enter beside a merger that never rests, in hundredths of a nanosecond.
pub fn time_beside<
    J: Naming + Send + 'static,
    R: Clock + Threads + Wait + Copy + Drop + Send + Sync + 'static,
>(
    rt: R,
    alloc: Global,
    merger: &mut Merger<J, R>,
    viewers: &mut Vec<Viewer<J, R>>,
    count: usize,
    size: u32,
) -> Result<u64, Failure> {
    let done = new_counter(alloc)?;
    let threads = start_all(rt, alloc, viewers, count, &done)?;
    let count = threads.len() as u64;
    let merged = merge_until(alloc, merger, size, &done, count);
    let sum = sum_of(&rt, threads);
    merged?;
    Ok(sum / count.max(1))
}
