//! What stages recorded is done.
ghost use Rattle.std.specs.Prelude.{◌≡◌, ◌+◌, ◌≤◌, ◌<◌, ◌&&◌, ◌∷◌, [], drop, IfSome, nat_lt, length, map, take};
ghost use Rattle.eco_ids.specs.Births.{Admits, MakesAlive, may_admit, may_make_alive};
ghost use Rattle.eco_ids.specs.Outcome.{Meets};
ghost use Rattle.eco_ids.specs.World.{entities, OnEntities};
ghost use Rattle.eco_ids.specs.declared.value.TheConstants.{FIELD_COUNT};
ghost use Rattle.eco_stages.specs.Merging.{all_commands, AreDone};
ghost use Rattle.eco_stages.specs.Recorded.{set_of_run};
ghost use Rattle.eco_world.specs.Merging.{Merges, may_merge};
ghost use Rattle.eco_world.specs.Setting.{IsSettable};

use crate::world::World;
use eco_ids::{Entity, Id, Refusal, Value};
use eco_merges::{MergeTarget, apply_stages, room_for};
use eco_stages::{Outcomes, Report, RunSet, Stage};

// So many sets at most are done before rows are looked for again, where none or one stood in such.
pub(crate) const APART: usize = 16;

// What is guessed of the sets of a run that are left: a guess that is wrong takes longer, and nothing else, so no contract
// speaks of it.
#[derive(Drop)]
struct Guess {
    // The place of the id's column in the table of the next one, as it was in the last.
    near: usize,
    // So many are done, each by itself, where none or one stands in rows one behind the other.
    apart: usize,
}

impl World {
    /// Makes `admitted` more indices known, at generation 0, and then does the commands of all stages, stage by stage and each
    /// stage in its order. Each command is done or refused as its call is, on the world that the commands before it leave; a
    /// refused one changes nothing, and the next is done. One that finds no memory is refused with `OutOfMemory`. The stages
    /// stay as they are (Flecs manual, Systems, staging).
    ///
    /// Refused with `NoMoreIds` where the admitted indices would pass the limit, and with `OutOfMemory` where there is none for
    /// them or for the report, whose room is taken before the first command. A refused merge admits nothing and does nothing.
    pub fn merge(&mut self, admitted: u32, stages: &[Stage]) -> Result<Report, Refusal>
        ensures { Meets (Merges self.old admitted (all_commands stages.now))
            (may_merge self.old admitted (all_commands stages.now)) self.old result self.new }
    {
        self.is_lawful();
        if admitted > self.limit() - self.high() {
            return Err(Refusal::NoMoreIds);
        }
        let mut outcomes = room_for(self.alloc, stages)?;
        self.admit(admitted)?;
        apply_stages(self, stages, &mut outcomes);
        Ok(Report::of(outcomes))
    }

    // So many more indices are known.
    fn admit(&mut self, count: u32) -> Result<(), Refusal>
        ensures { Meets (OnEntities (λ v. Admits v count) self.old)
            (may_admit (entities self.old) count && nat_lt 0 count) self.old result self.new }
    {
        eco_ids::laws::steps_keep_lawful();
        self.store.admit(count)
    }

    // Sets of a run are done and their outcomes appended: from the first on, as many as write a value where the id is there, of
    // entities that stand in rows one behind the other. The answer is how many. What a pair's mirror may stand against is asked
    // for each set by itself.
    fn set_rows<const N: usize>(
        &mut self,
        known: Option<u8>,
        id: Id,
        sets: &[RunSet<N>],
        outcomes: &mut Outcomes,
    ) -> usize
        requires few { N ≤ FIELD_COUNT }
        requires known { IfSome known (IsSettable self.old id) }
        requires room { length outcomes.old.outcomes + length sets.now ≤ outcomes.old.room }
        ensures within { result ≤ length sets.now }
        ensures done { AreDone self.old (map (set_of_run id) (take result sets.now))
            outcomes.old outcomes.new self.new }
        ensures known { IfSome known (IsSettable self.new id) }
    {
        eco_ids::laws::steps_keep_lawful();
        self.is_lawful();
        let (Some(arity), Id::One(_)) = (known, id) else {
            return 0;
        };
        let least = self.edition.builtin_count();
        let count = self.store.set_rows(id, sets, arity, least);
        outcomes.push_done(count);
        count
    }

    // Sets of a run are done and their outcomes appended: from the first on, at least one. The answer is how many. Where at most
    // one stands in rows one behind the other, so many are done each by itself, and twice as many the next time: so rows are not
    // looked for at each set of those that come in another order.
    fn set_some<const N: usize>(
        &mut self,
        known: &mut Option<u8>,
        guess: &mut Guess,
        id: Id,
        sets: &[RunSet<N>],
        outcomes: &mut Outcomes,
    ) -> usize
        requires few { N ≤ FIELD_COUNT }
        requires some { 0 < length sets.now }
        requires known { IfSome known.old (IsSettable self.old id) }
        requires room { length outcomes.old.outcomes + length sets.now ≤ outcomes.old.room }
        ensures some { 0 < result }
        ensures within { result ≤ length sets.now }
        ensures done { AreDone self.old (map (set_of_run id) (take result sets.now))
            outcomes.old outcomes.new self.new }
        ensures known { IfSome known.new (IsSettable self.new id) }
    {
        eco_merges::laws::commands_are_done_in_turn();
        let count = self.set_rows(*known, id, sets, outcomes);
        if count > 1 {
            guess.apart = 1;
            return count;
        }
        let most = sets.len().min(guess.apart.max(1));
        self.set_each(known, &mut guess.near, id, &sets[count..most], outcomes);
        guess.apart = APART.min(most.saturating_mul(2));
        most
    }

    // Sets of a run are done, each by itself, and their outcomes appended: all of them.
    fn set_each<const N: usize>(
        &mut self,
        known: &mut Option<u8>,
        near: &mut usize,
        id: Id,
        sets: &[RunSet<N>],
        outcomes: &mut Outcomes,
    )
        requires few { N ≤ FIELD_COUNT }
        requires known { IfSome known.old (IsSettable self.old id) }
        requires room { length outcomes.old.outcomes + length sets.now ≤ outcomes.old.room }
        ensures done { AreDone self.old (map (set_of_run id) sets.now) outcomes.old outcomes.new self.new }
        ensures known { IfSome known.new (IsSettable self.new id) }
    {
        eco_merges::laws::commands_are_done_in_turn();
        for set in sets {
            self.set_in_run(known, near, id, set, outcomes);
        }
    }

    // A set of a run is done, and its outcome appended.
    #[inline(always)]
    fn set_in_run<const N: usize>(
        &mut self,
        known: &mut Option<u8>,
        near: &mut usize,
        id: Id,
        set: &RunSet<N>,
        outcomes: &mut Outcomes,
    )
        requires few { N ≤ FIELD_COUNT }
        requires known { IfSome known.old (IsSettable self.old id) }
        requires room { length outcomes.old.outcomes < outcomes.old.room }
        ensures done { AreDone self.old (set_of_run id set.now ∷ []) outcomes.old outcomes.new self.new }
        ensures known { IfSome known.new (IsSettable self.new id) }
    {
        eco_merges::laws::commands_are_done_in_turn();
        if self.rewrite(*known, set.0, id, Value::of(set.1), near) {
            outcomes.push(Ok(()));
            return;
        }
        let outcome = self.set_apart(known, id, set);
        outcomes.push(outcome);
    }

    // This very handle lives, without name and ids.
    fn make_alive(&mut self, entity: Entity) -> Result<(), Refusal>
        ensures { Meets (MakesAlive self.old entity) (may_make_alive self.old entity)
            self.old result self.new }
    {
        eco_ids::laws::steps_keep_lawful();
        self.store.make_alive(entity)
    }

    // A run of sets of the id is done, one after another, and their outcomes appended. One by itself needs nothing that serves for
    // many.
    #[inline(always)]
    fn apply_run<const N: usize>(&mut self, id: Id, sets: &[RunSet<N>], outcomes: &mut Outcomes)
        requires few { N ≤ FIELD_COUNT }
        requires room { length outcomes.old.outcomes + length sets.now ≤ outcomes.old.room }
        ensures { AreDone self.old (map (set_of_run id) sets.now) outcomes.old outcomes.new self.new }
    {
        eco_merges::laws::commands_are_done_in_turn();
        if let [set] = sets {
            outcomes.push(self.set(set.0, id, Value::of(set.1)));
            return;
        }
        self.apply_many(id, sets, outcomes);
    }

    // What `apply_run` does with many. Apart, so that what these keep takes no room where others are done.
    #[inline(never)]
    fn apply_many<const N: usize>(&mut self, id: Id, sets: &[RunSet<N>], outcomes: &mut Outcomes)
        requires few { N ≤ FIELD_COUNT }
        requires room { length outcomes.old.outcomes + length sets.now ≤ outcomes.old.room }
        ensures { AreDone self.old (map (set_of_run id) sets.now) outcomes.old outcomes.new self.new }
    {
        eco_merges::laws::commands_are_done_in_turn();
        let mut known = self.settable(id).ok();
        let mut guess = Guess { near: 0, apart: 1 };
        let mut done = 0;
        while done < sets.len() {
            let rest = sets_from(sets, done);
            done += self.set_some(&mut known, &mut guess, id, rest, outcomes);
        }
    }
}

impl MergeTarget for World {
    ghost world = { λ w. w };

    #[inline(always)]
    fn apply_create(&mut self, entity: Entity) -> Result<(), Refusal> {
        self.make_alive(entity)
    }

    #[inline(always)]
    fn apply_add(&mut self, entity: Entity, id: Id) -> Result<(), Refusal> {
        self.add(entity, id)
    }

    #[inline(always)]
    fn apply_remove(&mut self, entity: Entity, id: Id) -> Result<(), Refusal> {
        self.remove(entity, id)
    }

    #[inline(always)]
    fn apply_clear(&mut self, entity: Entity) -> Result<(), Refusal> {
        self.clear(entity)
    }

    #[inline(always)]
    fn apply_rename(&mut self, entity: Entity, name: Option<&str>) -> Result<(), Refusal> {
        self.rename(entity, name)
    }

    #[inline(always)]
    fn apply_delete(&mut self, entity: Entity) -> Result<(), Refusal> {
        self.delete(entity)
    }

    #[inline(always)]
    fn apply_delete_with(&mut self, id: Id) -> Result<(), Refusal> {
        self.delete_with(id)
    }

    #[inline(always)]
    fn apply_remove_all(&mut self, id: Id) -> Result<(), Refusal> {
        self.remove_all(id)
    }

    #[inline(always)]
    fn apply_ones(&mut self, id: Id, sets: &[RunSet<1>], outcomes: &mut Outcomes) {
        self.apply_run(id, sets, outcomes);
    }

    #[inline(always)]
    fn apply_threes(&mut self, id: Id, sets: &[RunSet<3>], outcomes: &mut Outcomes) {
        self.apply_run(id, sets, outcomes);
    }

    #[inline(always)]
    fn apply_eights(&mut self, id: Id, sets: &[RunSet<8>], outcomes: &mut Outcomes) {
        self.apply_run(id, sets, outcomes);
    }

    #[inline(always)]
    fn apply_ones_in_turn(&mut self, ids: &[Id], sets: &[RunSet<1>], outcomes: &mut Outcomes) {
        self.apply_in_turn(ids, sets, outcomes);
    }

    #[inline(always)]
    fn apply_threes_in_turn(&mut self, ids: &[Id], sets: &[RunSet<3>], outcomes: &mut Outcomes) {
        self.apply_in_turn(ids, sets, outcomes);
    }

    #[inline(always)]
    fn apply_eights_in_turn(&mut self, ids: &[Id], sets: &[RunSet<8>], outcomes: &mut Outcomes) {
        self.apply_in_turn(ids, sets, outcomes);
    }
}

// The sets from a place on.
#[inline(always)]
pub(crate) fn sets_from<const N: usize>(sets: &[RunSet<N>], place: usize) -> &[RunSet<N>]
    requires { place ≤ length sets.now }
    ensures { result.now ≡ drop place sets.now }
{
    &sets[place..]
}
