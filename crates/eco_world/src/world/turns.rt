//! Sets of ids in turn are done.
ghost use Rattle.std.specs.Prelude.{◌≡◌, ◌+◌, ◌<◌, ◌≤◌, ◌%◌, ◌^◌, ℕ, Some, length, slice_get, take};
ghost use Rattle.eco_ids.specs.declared.value.TheConstants.{FIELD_COUNT};
ghost use Rattle.eco_stages.specs.Merging.{AreDone};
ghost use Rattle.eco_stages.specs.Recorded.{in_turn};
ghost use Rattle.eco_stages.specs.declared.recorded.TheConstants.{MOST_IN_TURN};
ghost use Rattle.eco_world.specs.Setting.{AreSettable, StopsAt};

use crate::world::World;
use crate::world::merging::{APART, sets_from};
use eco_ids::{Id, Value};
use eco_merges::laws::commands_are_done_in_turn;
use eco_stages::laws::sets_come_in_turn;
use eco_stages::{MOST_IN_TURN, Outcomes, RunSet};

// Whose turn is next, of so many.
#[inline(always)]
fn next_in_turn(turn: usize, count: usize) -> usize
    requires { turn < count }
    ensures { (n : ℕ) → turn ≡ n % count → result ≡ (n + 1) % count }
{
    if turn + 1 == count { 0 } else { turn + 1 }
}

// The id at this place.
#[inline(always)]
fn id_at(ids: &[Id], place: usize) -> Id
    requires { place < length ids.now }
    ensures { slice_get ids.now place ≡ Some result }
{
    ids[place]
}

impl World {
    // How many fields the values of each of the ids have; none, where no value may stand at it.
    fn settable_each(&self, ids: &[Id]) -> [Option<u8>; MOST_IN_TURN]
        requires { length ids.now ≤ MOST_IN_TURN }
        ensures { AreSettable self.now ids.now result }
    {
        let mut known = [None; MOST_IN_TURN];
        for k in 0..ids.len() {
            known[k] = self.settable(ids[k]).ok();
        }
        known
    }

    // Sets of ids in turn are done and their outcomes appended: from the first on, which is at this place of all, as many as write
    // a value where the id is there. The answer is how many.
    fn rewrite_in_turn<const N: usize>(
        &mut self,
        known: &[Option<u8>; MOST_IN_TURN],
        near: &mut [usize; MOST_IN_TURN],
        ids: &[Id],
        first: usize,
        sets: &[RunSet<N>],
        outcomes: &mut Outcomes,
    ) -> usize
        requires few { N ≤ FIELD_COUNT }
        requires ids { (0 < length ids.now) × (length ids.now ≤ MOST_IN_TURN) }
        requires known { AreSettable self.old ids.now known.now }
        requires fit { first + length sets.now < 2 ^ 64 }
        requires room { length outcomes.old.outcomes + length sets.now ≤ outcomes.old.room }
        ensures within { result ≤ length sets.now }
        ensures done { AreDone self.old (in_turn ids.now first (take result sets.now))
            outcomes.old outcomes.new self.new }
        ensures stop { StopsAt self.new ids.now first sets.now result }
    {
        commands_are_done_in_turn();
        sets_come_in_turn();
        let mut turn = first % ids.len();
        for k in 0..sets.len() {
            let set = &sets[k];
            let id = id_at(ids, turn);
            let value = Value::of(set.1);
            if !self.rewrite(known[turn], set.0, id, value, &mut near[turn]) {
                return k;
            }
            outcomes.push(Ok(()));
            turn = next_in_turn(turn, ids.len());
        }
        sets.len()
    }

    // Sets of ids in turn are done, each by itself, and their outcomes appended: the first is at this place of all.
    fn set_each_in_turn<const N: usize>(
        &mut self,
        ids: &[Id],
        first: usize,
        sets: &[RunSet<N>],
        outcomes: &mut Outcomes,
    )
        requires few { N ≤ FIELD_COUNT }
        requires ids { 0 < length ids.now }
        requires fit { first + length sets.now < 2 ^ 64 }
        requires room { length outcomes.old.outcomes + length sets.now ≤ outcomes.old.room }
        ensures done { AreDone self.old (in_turn ids.now first sets.now)
            outcomes.old outcomes.new self.new }
    {
        commands_are_done_in_turn();
        sets_come_in_turn();
        for k in 0..sets.len() {
            let set = &sets[k];
            let id = id_at(ids, (first + k) % ids.len());
            let outcome = self.set(set.0, id, Value::of(set.1));
            outcomes.push(outcome);
        }
    }

    // Sets of ids in turn are done and their outcomes appended: from the first on, which is at this place of all, at least one. The
    // answer is how many. Where none writes a value that is there, so many are done each by itself, and twice as many the next
    // time.
    fn set_some_in_turn<const N: usize>(
        &mut self,
        near: &mut [usize; MOST_IN_TURN],
        apart: &mut usize,
        ids: &[Id],
        first: usize,
        sets: &[RunSet<N>],
        outcomes: &mut Outcomes,
    ) -> usize
        requires few { N ≤ FIELD_COUNT }
        requires ids { (0 < length ids.now) × (length ids.now ≤ MOST_IN_TURN) }
        requires some { 0 < length sets.now }
        requires fit { first + length sets.now < 2 ^ 64 }
        requires room { length outcomes.old.outcomes + length sets.now ≤ outcomes.old.room }
        ensures some { 0 < result }
        ensures within { result ≤ length sets.now }
        ensures done { AreDone self.old (in_turn ids.now first (take result sets.now))
            outcomes.old outcomes.new self.new }
    {
        let known = self.settable_each(ids);
        let count = self.rewrite_in_turn(&known, near, ids, first, sets, outcomes);
        if count > 0 {
            *apart = 1;
            return count;
        }
        let most = sets.len().min((*apart).max(1));
        self.set_each_in_turn(ids, first, &sets[..most], outcomes);
        *apart = APART.min(most.saturating_mul(2));
        most
    }

    // A run of sets of ids in turn is done, one after another, and their outcomes appended.
    #[inline(never)]
    pub(crate) fn apply_in_turn<const N: usize>(
        &mut self,
        ids: &[Id],
        sets: &[RunSet<N>],
        outcomes: &mut Outcomes,
    )
        requires few { N ≤ FIELD_COUNT }
        requires ids { (0 < length ids.now) × (length ids.now ≤ MOST_IN_TURN) }
        requires room { length outcomes.old.outcomes + length sets.now ≤ outcomes.old.room }
        ensures { AreDone self.old (in_turn ids.now 0 sets.now) outcomes.old outcomes.new self.new }
    {
        commands_are_done_in_turn();
        sets_come_in_turn();
        let mut near = [0; MOST_IN_TURN];
        let mut apart = 1;
        let mut done = 0;
        while done < sets.len() {
            let rest = sets_from(sets, done);
            done += self.set_some_in_turn(&mut near, &mut apart, ids, done, rest, outcomes);
        }
    }
}
