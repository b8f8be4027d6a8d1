//! Who was told of a merge sees it, news of another shared world are not taken in, and a view that is held stops no merge.
ghost use Rattle.std.specs.Prelude.{◌≡◌};

use crate::looking::{BEGIN, merge_each, merge_one, opening, tagged};
use eco_ids::Refusal;
use eco_shared::{Blank, Merger, Naming, Registry, Viewer, open};
use eco_world::World;
use std::alloc::Global;
use std::marker::Brand;
use std::sync::Wait;
use std::test::Fail;

// Whether a viewer that is told of the last merge sees so many with the tag.
fn sees<J: Naming, R: Wait + Drop>(
    rt: &R,
    merger: &Merger<J, R>,
    viewer: &mut Viewer<J, R>,
    count: usize,
) -> bool {
    viewer.learn(&merger.tell()) && tagged(viewer.enter(rt).world()) == Some(count)
}

// Each of a hundred merges is seen by who was told of it.
fn sees_each<J: Naming, R: Wait + Drop>(
    rt: &R,
    alloc: Global,
    merger: &mut Merger<J, R>,
    viewer: &mut Viewer<J, R>,
) -> bool {
    let mut are_seen = true;
    for k in 0..100 {
        are_seen &= merge_one(merger, alloc, BEGIN + k).is_ok()
            && sees(rt, merger, viewer, k as usize + 1);
    }
    are_seen
}

// The thread that merges holds a view during the next four merges, which keeps its version.
fn stays<J: Naming, R: Wait + Drop>(
    rt: &R,
    alloc: Global,
    merger: &mut Merger<J, R>,
    viewer: &mut Viewer<J, R>,
) -> bool {
    let held = viewer.enter(rt);
    merge_each(merger, alloc, BEGIN + 100, BEGIN + 104)
        && sees(rt, merger, viewer, 104)
        && tagged(held.world()) == Some(100)
}

// Of a world with room for one more a second merge is refused, and shows nothing; the next one is done.
fn is_full_after_one<J: Naming, R: Wait + Drop>(
    rt: &R,
    alloc: Global,
    merger: &mut Merger<J, R>,
    viewer: &mut Viewer<J, R>,
) -> bool {
    merge_one(merger, alloc, BEGIN).is_ok()
        && merge_one(merger, alloc, BEGIN + 1).err() == Some(Refusal::NoMoreIds)
        && sees(rt, merger, viewer, 1)
        && merger.merge(0, &[]).is_ok()
}

// Whether all of it is so, of one shared world and another, whose news neither takes in.
fn tells_each<J: Naming, R: Wait + Drop>(
    rt: &R,
    alloc: Global,
    (merger, viewer): (&mut Merger<J, R>, &mut Viewer<J, R>),
    (other, alone): (&mut Merger<J, R>, &mut Viewer<J, R>),
) -> bool {
    sees_each(rt, alloc, merger, viewer)
        && stays(rt, alloc, merger, viewer)
        && is_full_after_one(rt, alloc, other, alone)
        && !viewer.learn(&other.tell())
        && !alone.learn(&merger.tell())
}

// Whether it is so of the last viewers of both, of which one shared world has 64 and the other one.
fn tell_last<J: Naming, R: Wait + Drop>(
    rt: &R,
    alloc: Global,
    (merger, viewers): (&mut Merger<J, R>, &mut Vec<Viewer<J, R>>),
    (other, others): (&mut Merger<J, R>, &mut Vec<Viewer<J, R>>),
) -> bool {
    if viewers.len() != 64 || others.len() != 1 {
        return false;
    }
    match (viewers.last_mut(), others.last_mut()) {
        (Some(viewer), Some(alone)) => { tells_each(rt, alloc, (merger, viewer), (other, alone)) }
        _ => false,
    }
}

// Whether it is so of one shared world and of another that is opened beside it.
fn tells_beside<J: Naming, R: Wait + Copy + Drop>(
    rt: R,
    alloc: Global,
    registry: &mut Registry<J>,
    narrow: World,
    merger: &mut Merger<J, R>,
    viewers: &mut Vec<Viewer<J, R>>,
) -> bool {
    match open(rt, registry, alloc, narrow, 1) {
        Ok((mut other, mut others)) => {
            tell_last(&rt, alloc, (merger, viewers), (&mut other, &mut others))
        }
        Err(_) => false,
    }
}

// Whether it is so of shared worlds of these two.
fn tell<J: Naming, R: Wait + Copy + Drop>(
    rt: R,
    alloc: Global,
    wide: World,
    narrow: World,
    blank: Blank,
) -> bool
    requires { blank.front.seen.book ≡ J.book }
{
    let mut registry = blank.named::<J>();
    match open(rt, &mut registry, alloc, wide, 64) {
        Ok((mut merger, mut viewers)) => {
            tells_beside(rt, alloc, &mut registry, narrow, &mut merger, &mut viewers)
        }
        Err(_) => false,
    }
}

#[test]
fn who_is_told_sees(rt: HostRuntime) -> Result<(), Fail> {
    let wide = opening(rt.alloc(), 256)?;
    let narrow = opening(rt.alloc(), 11)?;
    assert!(rt; tell::<Brand, _>(rt, rt.alloc(), wide, narrow, Blank::new()));
    Ok(())
}
