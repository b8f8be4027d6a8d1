//! A world is shared.
ghost use Rattle.std.specs.Prelude.{◌≡◌, ◌<◌, ◌≤◌, ◌∷◌, [], true, false, length, drop, IfOk, IfErr};
ghost use Rattle.std.specs.List.{All};
ghost use mathlib.Core.List.{IsPrefix};
ghost use Rattle.left_right.specs.Sides.{view};
ghost use Rattle.eco_histories.specs.Marks.{mark_of_book};
ghost use Rattle.eco_ids.specs.declared.refusal.Refusal.TheVariants.{OutOfMemory};
ghost use Rattle.eco_shared.specs.Sharing.{shown_world, shown_state, history, knows};
ghost use Rattle.eco_shared.specs.Views.{IsNew};

use crate::keeper::new_keeper;
use crate::merge::Merge;
use crate::merger::{Merger, owned};
use crate::publishing::makes_pending;
use crate::rule::{Opening, TheWriter};
use crate::shown::Shown;
use crate::spare::Spare;
use crate::viewer::Viewer;
use eco_histories::front::{Front, begin};
use eco_histories::registry::{Naming, Registry};
use eco_ids::Refusal;
use eco_world::World;
use left_right::writer::Writer;
use std::alloc::{AllocError, Global};
use std::snapshot::Snapshot;
use std::sync::{Arc, Wait};

// The two copies, with no merge yet.
fn copies(alloc: Global, front: &Front<Merge>, world: World) -> Result<(Shown, Shown), AllocError>
    requires { front.now.seen.log ≡ [] }
    ensures { IfOk result (λ c. (shown_state c.0 ≡ shown_state c.1) × (shown_world c.0 ≡ world)
        × (c.0.front ≡ front.now) × (history c.0 ≡ [])) }
{
    let world = owned(alloc, world)?;
    let first = Shown {
        world,
        front: front.again(),
    };
    let second = first.another()?;
    Ok((first, second))
}

// Publishes what is published already, so that the writer knows which history it is.
fn publish_opening<R: Wait>(
    rt: &R,
    writer: TheWriter,
    again: Snapshot<Shown>,
) -> (TheWriter, Result<(), AllocError>)
    requires pending { drop writer.behind writer.log.items ≡ again.value ∷ [] }
    requires same { shown_state again.value ≡ shown_state writer.desk.shown.value }
    requires none { history writer.desk.shown.value ≡ [] }
    ensures pending { IfOk result.1 (λ _. drop result.0.behind result.0.log.items ≡ []) }
    ensures same { IfOk result.1 (λ _. shown_state result.0.desk.shown.value
        ≡ shown_state writer.desk.shown.value) }
    ensures known { IfOk result.1 (λ _. view result.0.desk.place ≡ knows
        (shown_world writer.desk.shown.value) (mark_of_book writer.desk.shown.value.front.seen.book)) }
{
    let _ = again;
    writer.publish_as::<Opening, R>(rt)
}

// A writer over both copies, which knows its history. An operation that changes nothing has made room for those of the merges.
fn open_writer<R: Wait>(
    rt: &R,
    alloc: Global,
    front: &Front<Merge>,
    world: World,
    viewers: usize,
) -> Result<TheWriter, AllocError>
    requires none { front.now.seen.log ≡ [] }
    requires viewers { (0 < viewers) × (viewers ≤ 64) }
    ensures pending { IfOk result (λ w. drop w.behind w.log.items ≡ []) }
    ensures world { IfOk result (λ w. shown_world w.desk.shown.value ≡ world) }
    ensures front { IfOk result (λ w. w.desk.shown.value.front ≡ front.now) }
    ensures known { IfOk result (λ w. view w.desk.place ≡ knows world (mark_of_book front.now.seen.book)) }
{
    let (first, second) = copies(alloc, front, world)?;
    let again = first.another()?;
    let mut writer: TheWriter = Writer::new(alloc, first, second, viewers)?;
    let snapshot = Snapshot::of(&again);
    if !makes_pending(&mut writer, again) {
        drop(writer.take(rt));
        return Err(AllocError);
    }
    let (writer, published) = publish_opening(rt, writer, snapshot);
    match published {
        Ok(()) => Ok(writer),
        Err(refused) => {
            drop(writer.take(rt));
            Err(refused)
        }
    }
}

// A merger over a world, with an empty history.
fn open_merger<J: Naming, R: Wait + Drop>(
    rt: R,
    registry: &mut Registry<J>,
    alloc: Global,
    world: World,
    viewers: usize,
) -> Result<Merger<J, R>, AllocError>
    requires viewers { (0 < viewers) × (viewers ≤ 64) }
    ensures world { IfOk result (λ m. shown_world m.writer.desk.shown.value ≡ world) }
    ensures start { IfOk result (λ m. (view m.writer.desk.place).start ≡ world) }
    ensures history { IfOk result (λ m. history m.writer.desk.shown.value ≡ []) }
    ensures running { IfOk result (λ m. m.stopped ≡ false) }
    ensures title { IfOk result (λ m. (m.title.number ≡ length registry.old.front.seen.log)
        × (length registry.old.front.seen.log < length registry.new.front.seen.log)) }
    ensures registry { IsPrefix registry.old.front.seen.log registry.new.front.seen.log }
{
    let keeper = new_keeper(alloc)?;
    let (head, front) = begin::<Merge>();
    let title = registry.enrol(&front).ok_or(AllocError)?;
    let writer = open_writer(&rt, alloc, &front, world, viewers)?;
    Ok(Merger {
        rt,
        alloc,
        keeper,
        head,
        title,
        writer,
        spare: None,
        stopped: false,
    })
}

/// Shares a world with 1 to 64 viewers: answers who merges into it, and the viewers, one for each thread that reads. All of them
/// show that world until the first merge. The merger is not stopped, and keeps a copy besides, so that most merges make none.
///
/// Refused with `OutOfMemory` alone, where memory for the copies or for a viewer is refused; the world comes back as it was, and
/// the number that the registry had given stays unused.
pub fn open<J: Naming, R: Wait + Drop>(
    rt: R,
    registry: &mut Registry<J>,
    alloc: Global,
    world: World,
    viewers: usize,
) -> Result<(Merger<J, R>, Vec<Viewer<J, R>>), (World, Refusal)>
    requires viewers { (0 < viewers) × (viewers ≤ 64) }
    ensures merger { IfOk result (λ r. (shown_world r.0.writer.desk.shown.value ≡ world)
        × ((view r.0.writer.desk.place).start ≡ world) × (history r.0.writer.desk.shown.value ≡ [])) }
    ensures running { IfOk result (λ r. r.0.stopped ≡ false) }
    ensures viewers { IfOk result (λ r. (length r.1.items ≡ viewers)
        × All (IsNew world r.0.title.number) r.1.items) }
    ensures title { IfOk result (λ r. (r.0.title.number ≡ length registry.old.front.seen.log)
        × (length registry.old.front.seen.log < length registry.new.front.seen.log)) }
    ensures registry { IsPrefix registry.old.front.seen.log registry.new.front.seen.log }
    ensures err { IfErr result (λ r. (r.0 ≡ world) × (r.1 ≡ OutOfMemory)) }
{
    let Ok(copy) = world.try_copy() else {
        return Err((world, Refusal::OutOfMemory));
    };
    let Ok(mut merger) = open_merger(rt, registry, alloc, copy, viewers) else {
        return Err((world, Refusal::OutOfMemory));
    };
    let Ok(list) = merger.viewers(alloc, viewers) else {
        return Err((world, Refusal::OutOfMemory));
    };
    match Arc::new(alloc, world) {
        Ok(world) => {
            merger.spare = Some(Spare { world, last: None });
            Ok((merger, list))
        }
        Err(failed) => Err((failed.value, Refusal::OutOfMemory)),
    }
}
