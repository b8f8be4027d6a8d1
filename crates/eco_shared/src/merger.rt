//! Who changes the shared world.
ghost use Rattle.std.specs.Prelude.{◌≡◌, ◌⊎◌, ◌<◌, ◌≤◌, ◌++◌, ◌∷◌, [], true, false, length, drop, Ok, Some, None};
ghost use Rattle.std.specs.Prelude.{slice_get, IfOk, IfErr, IfSome};
ghost use Rattle.std.specs.List.{All};
ghost use Rattle.std.specs.Arc.{arc_value};
ghost use Rattle.left_right.specs.Sides.{view};
ghost use Rattle.eco_histories.specs.Marks.{mark_of_book};
ghost use Rattle.eco_histories.specs.Rules.{book_head};
ghost use Rattle.eco_ids.specs.Births.{may_admit};
ghost use Rattle.eco_ids.specs.World.{entities};
ghost use Rattle.eco_ids.specs.declared.refusal.Refusal.TheVariants.{NoMoreIds, OutOfMemory};
ghost use Rattle.eco_stages.specs.Merging.{all_commands};
ghost use Rattle.eco_shared.specs.Histories.{IsMerged, merge};
ghost use Rattle.eco_shared.specs.Repeating.{KeepsUp, merge_of};
ghost use Rattle.eco_shared.specs.Sharing.{shown_world, shown_state, history, Follows, GoesOn};
ghost use Rattle.eco_shared.specs.Views.{IsNew, refusal_of};

use crate::keeper::{Keeper, park};
use crate::laws;
use crate::merge::Merge;
use crate::news::News;
use crate::publishing::{makes_pending, publish_in};
use crate::rule::{Telling, TheWriter};
use crate::shown::Shown;
use crate::spare::{Last, Spare, again, merge_in};
use crate::viewer::Viewer;
use eco_histories::front::Head;
use eco_histories::registry::{Naming, Title};
use eco_ids::Refusal;
use eco_merges::copies_of;
use eco_stages::{Report, Stage};
use eco_world::World;
use logbook::Plain;
use std::alloc::{AllocError, Global};
use std::snapshot::Snapshot;
use std::sync::{Arc, Wait};

// An entry of the history: the merge that was made.
pub struct Entry;

impl Plain<Last, Merge, u64> for Entry {
    ghost use Rattle.std.specs.Prelude.{None};
    ghost use Rattle.eco_shared.specs.Repeating.{merge_of};

    ghost ask = { merge_of };

    ghost state = { λ _. None };
}

// Whether so many more indices lie below the limit.
fn can_admit(world: &World, admitted: u32) -> bool
    ensures { result ≡ may_admit (entities world.now) admitted }
{
    u64::from(world.high()) + u64::from(admitted) <= u64::from(world.limit())
}

/// The world, behind an owner.
pub fn owned(alloc: Global, world: World) -> Result<Arc<World>, AllocError>
    ensures { IfOk result (λ a. arc_value a ≡ world) }
{
    let owner = Arc::new(alloc, world)?;
    Ok(owner)
}

/// Who merges. After a publish was refused it is stopped, and merges nothing more. When it is dropped, viewers go on to enter
/// the world that was published last.
///
/// It has a second world, which comes to the one that is shown by the last merge. A merge is made there first once more, and then
/// the new one, while viewers enter the other; then the two change their places. So no merge copies the world, but where a viewer
/// stays in a view that is two merges old for long, or where memory was refused.
pub struct Merger<J: Naming, R: Wait + Drop> {
    pub(crate) rt: R,
    pub(crate) alloc: Global,
    pub(crate) keeper: Keeper<R>,
    pub(crate) head: Head<Merge>,
    pub(crate) title: Title<J>,
    pub(crate) writer: TheWriter,
    // There is none where the world that is shown has to be copied anew.
    pub(crate) spare: Option<Spare>,
    pub(crate) stopped: bool,
    ghost known: { ((view writer.desk.place).known ≡ true)
        × ((view writer.desk.place).mark ≡ mark_of_book writer.desk.shown.value.front.seen.book) },
    ghost head_is: { head ≡ book_head writer.desk.shown.value.front.seen.book },
    ghost titled: { slice_get title.marks.seen.log title.number
        ≡ Some (mark_of_book writer.desk.shown.value.front.seen.book) },
    ghost clear: { stopped ≡ false → length (drop writer.behind writer.log.items) ≡ 0 },
    ghost keeps_up: { KeepsUp spare (shown_world writer.desk.shown.value) },
}

// The world behind the history that is shown, one merge longer.
fn behind(now: &Shown, head: &Head<Merge>, last: &Last, world: Arc<World>) -> Option<Shown>
    requires head { head.now ≡ book_head now.now.front.seen.book }
    requires merged { IsMerged (shown_world now.now) (merge_of last.now) (arc_value world) }
    ensures history { IfSome result (λ s. history s ≡ history now.now ++ merge_of last.now ∷ []) }
    ensures world { IfSome result (λ s. shown_world s ≡ arc_value world) }
    ensures goes { IfSome result (GoesOn now.now) }
{
    let front = now.front.extended::<Last, Entry>(head, last)?;
    Some(Shown { world, front })
}

impl<J: Naming, R: Wait + Drop> Merger<J, R> {
    // One more viewer. It answers an error where there is no place for it.
    fn viewer(&mut self) -> Result<Viewer<J, R>, AllocError>
        requires { history self.old.writer.desk.shown.value ≡ [] }
        ensures viewer { IfOk result (IsNew (view self.old.writer.desk.place).start self.old.title.number) }
        ensures same { (self.new.writer.desk.shown ≡ self.old.writer.desk.shown)
            × (view self.new.writer.desk.place ≡ view self.old.writer.desk.place)
            × (self.new.title ≡ self.old.title) × (self.new.stopped ≡ self.old.stopped) }
    {
        let keeper = Arc::try_clone(&self.keeper)?;
        let mut reader = self.writer.factory().reader()?;
        let note = self.writer.tell::<Telling>();
        reader.learn::<Telling>(note);
        Ok(Viewer {
            reader,
            news: self.tell(),
            keeper,
        })
    }

    pub(crate) fn viewers(
        &mut self,
        alloc: Global,
        count: usize,
    ) -> Result<Vec<Viewer<J, R>>, AllocError>
        requires { history self.old.writer.desk.shown.value ≡ [] }
        ensures viewers { IfOk result (λ l. (length l.items ≡ count)
            × All (IsNew (view self.old.writer.desk.place).start self.old.title.number) l.items) }
        ensures same { (self.new.writer.desk.shown ≡ self.old.writer.desk.shown)
            × (view self.new.writer.desk.place ≡ view self.old.writer.desk.place)
            × (self.new.title ≡ self.old.title) × (self.new.stopped ≡ self.old.stopped) }
    {
        let mut list = Vec::with_capacity(alloc, count)?;
        for _k in 0..count {
            list.push_reserved(self.viewer()?);
        }
        Ok(list)
    }

    /// News of the history that is published.
    pub fn tell(&self) -> News<J>
        ensures history { result.front ≡ self.now.writer.desk.shown.value.front }
        ensures title { result.title.number ≡ self.now.title.number }
    {
        News {
            title: self.title.again(),
            front: self.writer.published().front.again(),
        }
    }

    // Publishes a version. Where that is refused the merger is stopped.
    fn publish(&mut self, op: Shown) -> Result<(), AllocError>
        requires running { self.old.stopped ≡ false }
        requires none { self.old.spare ≡ None }
        requires goes { GoesOn self.old.writer.desk.shown.value op }
        ensures ok { IfOk result (λ _. (shown_state self.new.writer.desk.shown.value ≡ shown_state op)
            × (self.new.stopped ≡ false)) }
        ensures err { IfErr result (λ _. self.new.writer.desk.shown.value
            ≡ self.old.writer.desk.shown.value) }
        ensures view { view self.new.writer.desk.place ≡ view self.old.writer.desk.place }
        ensures same { (self.new.title ≡ self.old.title) × (self.new.keeper ≡ self.old.keeper)
            × (self.new.spare ≡ None) }
        ensures stops { self.new.stopped ≡ true
            → 0 < length (drop self.new.writer.behind self.new.writer.log.items) }
    {
        let snapshot = Snapshot::of(&op);
        self.stopped = true;
        if !makes_pending(&mut self.writer, op) {
            self.stopped = false;
            return Err(AllocError);
        }
        publish_in(&self.rt, &mut self.writer, snapshot)?;
        self.stopped = false;
        Ok(())
    }

    // A copy of the world that is shown.
    fn copy_shown(&self) -> Result<Arc<World>, AllocError>
        ensures { IfOk result (λ a. arc_value a ≡ shown_world self.now.writer.desk.shown.value) }
    {
        let copy = self.writer.published().world.try_copy()?;
        owned(self.alloc, copy)
    }

    // The world that is shown, once more and for the merger alone: the spare one, with the last merge made on it too, else a copy.
    fn ready(&mut self) -> Result<Arc<World>, AllocError>
        requires running { self.old.stopped ≡ false }
        ensures ok { IfOk result (λ a. (arc_value a ≡ shown_world self.new.writer.desk.shown.value)
            × (self.new.stopped ≡ false)) }
        ensures shown { shown_state self.new.writer.desk.shown.value
            ≡ shown_state self.old.writer.desk.shown.value }
        ensures view { view self.new.writer.desk.place ≡ view self.old.writer.desk.place }
        ensures same { (self.new.title ≡ self.old.title) × (self.new.keeper ≡ self.old.keeper)
            × (self.new.spare ≡ None) }
        ensures stops { self.new.stopped ≡ true
            → 0 < length (drop self.new.writer.behind self.new.writer.log.items) }
    {
        let Some(spare) = self.spare.take() else {
            return self.copy_shown();
        };
        let (world, last) = spare.into_parts();
        let Some(last) = last else {
            return Ok(world);
        };
        // The world before the last merge is still in the copy that no viewer finds. It leaves when that copy shows the same.
        let once_more = self.writer.published().another()?;
        self.publish(once_more)?;
        match again(world, &last) {
            Some(world) => Ok(world),
            None => self.copy_shown(),
        }
    }

    // Publishes the world that the merge has made, and keeps the one before with that merge.
    fn show(&mut self, world: Arc<World>, last: Last) -> Result<(), AllocError>
        requires running { self.old.stopped ≡ false }
        requires none { self.old.spare ≡ None }
        requires merged { IsMerged (shown_world self.old.writer.desk.shown.value) (merge_of last)
            (arc_value world) }
        ensures history { IfOk result (λ _. history self.new.writer.desk.shown.value
            ≡ history self.old.writer.desk.shown.value ++ merge_of last ∷ []) }
        ensures world { IfOk result (λ _. shown_world self.new.writer.desk.shown.value ≡ arc_value world) }
        ensures running { IfOk result (λ _. self.new.stopped ≡ false) }
        ensures err { IfErr result (λ _. self.new.writer.desk.shown.value
            ≡ self.old.writer.desk.shown.value) }
        ensures view { view self.new.writer.desk.place ≡ view self.old.writer.desk.place }
        ensures same { (self.new.title ≡ self.old.title) × (self.new.keeper ≡ self.old.keeper) }
        ensures stops { self.new.stopped ≡ true
            → 0 < length (drop self.new.writer.behind self.new.writer.log.items) }
    {
        let shown = self.writer.published();
        let before = Arc::try_clone(&shown.world)?;
        let op = behind(shown, &self.head, &last, world).ok_or(AllocError)?;
        self.publish(op)?;
        laws::merges_have_one_end();
        self.spare = Some(Spare {
            world: before,
            last: Some(last),
        });
        Ok(())
    }

    // Makes the merge on a world of the merger's own. It answers the world, the merge for the history, and its report once more.
    fn merge_apart(
        &mut self,
        admitted: u32,
        stages: &[Stage],
    ) -> Result<(Arc<World>, Last, Report), AllocError>
        requires running { self.old.stopped ≡ false }
        ensures made { IfOk result (λ m. IsMerged (shown_world self.new.writer.desk.shown.value)
            (merge_of m.1) (arc_value m.0)) }
        ensures last { IfOk result (λ m. merge_of m.1 ≡ merge admitted (all_commands stages.now) m.2) }
        ensures ready { IfOk result (λ _. (self.new.stopped ≡ false) × (self.new.spare ≡ None)) }
        ensures shown { shown_state self.new.writer.desk.shown.value
            ≡ shown_state self.old.writer.desk.shown.value }
        ensures view { view self.new.writer.desk.place ≡ view self.old.writer.desk.place }
        ensures same { (self.new.title ≡ self.old.title) × (self.new.keeper ≡ self.old.keeper) }
        ensures stops { self.new.stopped ≡ true
            → 0 < length (drop self.new.writer.behind self.new.writer.log.items) }
    {
        let commands = copies_of(self.alloc, stages)?;
        let mut world = self.ready()?;
        let Some(report) = merge_in(&mut world, admitted, stages) else {
            self.spare = Some(Spare { world, last: None });
            return Err(AllocError);
        };
        let last = Last {
            admitted,
            commands,
            report: report.try_copy()?,
        };
        Ok((world, last, report))
    }

    /// Makes `admitted` more indices known, does the commands of all stages, and publishes the world that comes of it: a viewer that
    /// enters from then on finds it, or still finds a world before it, unless it was told.
    ///
    /// It costs twice what [`World::merge`] does, and may wait until viewers have left the world of two merges ago; where one
    /// stays there for long, that world is left to it, and the one that is shown is copied.
    ///
    /// Refused with `OutOfMemory` where the merger is stopped, else with `NoMoreIds` where the admitted indices would pass the
    /// limit, else with `OutOfMemory` where memory is wanting. A refused merge publishes nothing. The merger is stopped only
    /// where publishing itself was refused, for want of memory, and stays stopped.
    pub fn merge(&mut self, admitted: u32, stages: &[Stage]) -> Result<Report, Refusal>
        ensures ok { IfOk result (λ r. history self.new.writer.desk.shown.value
            ≡ history self.old.writer.desk.shown.value ++ merge admitted (all_commands stages.now) r ∷ []) }
        ensures world { IfOk result (λ r. IsMerged (shown_world self.old.writer.desk.shown.value)
            (merge admitted (all_commands stages.now) r) (shown_world self.new.writer.desk.shown.value)) }
        ensures why { IfErr result (λ why. why
            ≡ refusal_of (shown_world self.old.writer.desk.shown.value) admitted self.old.stopped) }
        ensures err { IfErr result (λ _. shown_state self.new.writer.desk.shown.value
            ≡ shown_state self.old.writer.desk.shown.value) }
        ensures stopped { IfErr result (λ _. self.new.stopped ≡ false
            → length (drop self.new.writer.behind self.new.writer.log.items) ≡ 0) }
        ensures running { IfOk result (λ _. self.new.stopped ≡ false) }
        ensures limit { IfErr result (λ why. why ≡ NoMoreIds → self.new.stopped ≡ false) }
        ensures stays { self.old.stopped ≡ true → self.new.stopped ≡ true }
        ensures start { (view self.new.writer.desk.place).start ≡ (view self.old.writer.desk.place).start }
        ensures stops { self.new.stopped ≡ true → (self.old.stopped ≡ true)
            ⊎ (0 < length (drop self.new.writer.behind self.new.writer.log.items)) }
        ensures title { self.new.title ≡ self.old.title }
        ensures keeper { self.new.keeper ≡ self.old.keeper }
    {
        if self.stopped {
            return Err(Refusal::OutOfMemory);
        }
        if !can_admit(&self.writer.published().world, admitted) {
            return Err(Refusal::NoMoreIds);
        }
        let (world, last, report) = self.merge_apart(admitted, stages)?;
        self.show(world, last)?;
        Ok(report)
    }
}

impl<J: Naming, R: Wait + Drop> Drop for Merger<J, R> {
    fn drop(self) {
        let Self {
            rt,
            alloc: _,
            keeper,
            head: _head,
            title: _title,
            writer,
            spare: _spare,
            stopped: _,
        } = self;
        park(rt, &keeper, writer);
    }
}
