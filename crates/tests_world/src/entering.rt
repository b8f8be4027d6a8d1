//! Viewers in threads of their own enter while the merger merges.
ghost use Rattle.std.specs.Prelude.{◌≡◌};

use crate::looking::{BEGIN, merge_each, opening, tagged};
use eco_shared::{Blank, Merger, Naming, Viewer, open};
use eco_world::World;
use std::alloc::Global;
use std::marker::Brand;
use std::sync::Wait;
use std::test::Fail;
use std::thread;
use std::thread::{JoinHandle, Threads};

// Enters once, and says how many entities have the tag, if the world is whole.
fn enter<J: Naming, R: Wait + Drop>(rt: &R, viewer: &mut Viewer<J, R>) -> Option<usize> {
    tagged(viewer.enter(rt).world())
}

// Enters so often, and says whether each world was whole and no smaller than the one before.
fn enter_all<J: Naming, R: Wait + Drop>(rt: &R, viewer: &mut Viewer<J, R>, times: usize) -> bool {
    let mut most: usize = 0;
    for _ in 0..times {
        match enter(rt, viewer) {
            Some(found) if found >= most => most = found,
            _ => return false,
        }
    }
    true
}

// The same of a viewer of one's own.
fn enters<J: Naming, R: Wait + Drop>(rt: &R, viewer: Viewer<J, R>, times: usize) -> bool {
    let mut viewer = viewer;
    enter_all(rt, &mut viewer, times)
}

// Starts a thread for each viewer, which enters a thousand times.
fn spawn_all<J: Naming + Send + 'static, R: Threads + Wait + Copy + Drop + Send + Sync + 'static>(
    rt: R,
    handles: &mut Vec<JoinHandle<bool>>,
    viewers: Vec<Viewer<J, R>>,
) {
    for viewer in viewers {
        if let Ok(handle) = thread::spawn(&rt, move || enters(&rt, viewer, 1_000)) {
            handles.push(handle).ok();
        }
    }
}

// How many threads found all as it should be.
fn count_whole<R: Threads>(rt: &R, handles: Vec<JoinHandle<bool>>) -> usize {
    let mut whole: usize = 0;
    for handle in handles {
        if handle.join(rt) {
            whole = whole.saturating_add(1);
        }
    }
    whole
}

// How many of the viewers found all as it should be, while a hundred merges were made; none, where these were not made.
fn count_entered<
    J: Naming + Send + 'static,
    R: Threads + Wait + Copy + Drop + Send + Sync + 'static,
>(rt: R, alloc: Global, merger: &mut Merger<J, R>, viewers: Vec<Viewer<J, R>>) -> usize {
    let mut handles = Vec::new(alloc);
    spawn_all(rt, &mut handles, viewers);
    let are_merged = merge_each(merger, alloc, BEGIN, BEGIN + 100);
    let whole = count_whole(&rt, handles);
    if are_merged { whole } else { 0 }
}

// Whether four viewers did. When the merger is gone, its last world is still entered.
fn are_whole<J: Naming + Send + 'static, R: Threads + Wait + Copy + Drop + Send + Sync + 'static>(
    rt: R,
    alloc: Global,
    merger: Merger<J, R>,
    viewers: Vec<Viewer<J, R>>,
    last: Viewer<J, R>,
) -> bool {
    let (mut merger, mut last) = (merger, last);
    let entered = count_entered(rt, alloc, &mut merger, viewers);
    drop(merger);
    entered == 4 && enter(&rt, &mut last) == Some(100)
}

// Four viewers enter a thousand times each, while a hundred merges are made. The fifth enters at the end.
fn hundred<J: Naming + Send + 'static, R: Threads + Wait + Copy + Drop + Send + Sync + 'static>(
    rt: R,
    alloc: Global,
    world: World,
    blank: Blank,
) -> bool
    requires { blank.front.seen.book ≡ J.book }
{
    let mut registry = blank.named::<J>();
    match open(rt, &mut registry, alloc, world, 5) {
        Ok((merger, mut viewers)) => match viewers.pop() {
            Some(last) => are_whole(rt, alloc, merger, viewers, last),
            None => false,
        },
        Err(_) => false,
    }
}

#[test]
fn entries_are_whole(rt: HostRuntime) -> Result<(), Fail> {
    let world = opening(rt.alloc(), 256)?;
    assert!(rt; hundred::<Brand, _>(rt, rt.alloc(), world, Blank::new()));
    Ok(())
}
