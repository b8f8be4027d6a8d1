//! Sets of ids in turn.
ghost use Rattle.std.specs.Prelude.{◌≡◌, ◌≢◌, ◌-◌, ◌+◌, ◌<◌, ◌≤◌, ◌^◌, ◌++◌, ◌∷◌, List, [], IsFalse, IsTrue, length};
ghost use Rattle.std.specs.Prelude.{vec_capacity, vec_len};
ghost use Rattle.eco_ids.specs.Run.{Set};
ghost use Rattle.eco_ids.specs.declared.id.Id.{Id as IdData};
ghost use Rattle.eco_stages.specs.declared.recorded.TheConstants.{MOST_IN_TURN};

use crate::kept::{Kept, has_room};
use crate::recorded::{MOST_IN_TURN, Recorded};
use crate::stage::Stage;
use crate::width::Width;
use eco_ids::{Entity, Id, Value};

// Whether the last two commands are sets of one entity, as where several components of a row are written. It is asked first, since
// to look back is dear for systems of few rows, each of which sets another id.
fn end_in_one_row(commands: &[Recorded], kept: &Kept) -> bool {
    let count = commands.len();
    if count < 2 {
        return false;
    }
    let (one, other) = (
        holder_of(&commands[count - 2], kept),
        holder_of(&commands[count - 1], kept),
    );
    one.is_some() && one == other
}

// Whose value the first set of a run sets; none, where the command is no run of one id.
fn holder_of(command: &Recorded, kept: &Kept) -> Option<Entity> {
    match command {
        Recorded::Set { width, first, .. } => kept.holder_at(*width, *first),
        _ => None,
    }
}

// How many sets, from the last on back to one of the id, are runs of one set: none, where there is no such one, or it is the
// last.
fn turns_before(commands: &[Recorded], id: Id) -> u8
    ensures many { result ≢ 0 → 2 ≤ result }
    ensures few { result ≤ MOST_IN_TURN }
    ensures within { result ≤ length commands.now }
{
    let last = commands.len();
    for back in 0..MOST_IN_TURN.min(last) {
        let Recorded::Set { count, id: own, .. } = commands[last - 1 - back] else {
            return 0;
        };
        if count != 1 {
            return 0;
        }
        if own.is(id) {
            return if back == 0 { 0 } else { back as u8 + 1 };
        }
    }
    0
}

// The widest of what these sets keep.
fn widest(commands: &[Recorded]) -> Width {
    let mut widest = Width::One;
    for command in commands {
        if let Recorded::Set { width, .. } = command {
            widest = widest.wider(*width);
        }
    }
    widest
}

// The id of a set; another, where the command is none.
fn id_of_set(command: &Recorded, other: Id) -> Id {
    match command {
        Recorded::Set { id, .. } => *id,
        _ => other,
    }
}

// The ids of these sets come last, in room that is there. No more hangs on whose they are than when a set goes on with the run.
fn push_ids(ids: &mut Vec<Id>, commands: &[Recorded], other: Id)
    requires { vec_len ids.old + length commands.now ≤ vec_capacity ids.old }
    ensures { (more : List IdData) × (ids.new.items ≡ ids.old.items ++ more)
        × (length more ≡ length commands.now) }
{
    for command in commands {
        ids.push_reserved(id_of_set(command, other));
    }
}

impl Stage {
    // Whether the last command is a set: else none begins a run of ids in turn.
    #[inline(always)]
    pub(super) fn ends_in_set(&self) -> bool {
        matches!(self.commands.last(), Some(Recorded::Set { .. }))
    }

    // The set comes last, and is the first of a run of ids in turn, where those of the sets before it are: it is the turn of the
    // first of them again. The answer is whether it does; else the stage is as it was. Apart, since most sets go on with a run.
    #[inline(never)]
    pub(super) fn record_turns(&mut self, entity: Entity, id: Id, value: Value) -> bool
        requires { length self.old < 2 ^ 64 - 1 }
        ensures yes { IsTrue result → self.new ≡ self.old ++ Set entity id value ∷ [] }
        ensures no { IsFalse result → self.new ≡ self.old }
    {
        if !end_in_one_row(self.commands.as_slice(), &self.kept) {
            return false;
        }
        let turns = turns_before(self.commands.as_slice(), id);
        if turns == 0 || !has_room(&mut self.commands) {
            return false;
        }
        if self.kept.ids.reserve(turns as usize).is_err() {
            return false;
        }
        let others = self.commands.len() - turns as usize;
        let width = widest(&self.commands[others..]);
        let first = self.kept.count(width);
        if !self.kept.push_at(width, first, entity, value) {
            return false;
        }
        let place = self.kept.ids.len();
        self.kept.ids.push_reserved(id);
        push_ids(&mut self.kept.ids, &self.commands[others + 1..], id);
        let run = Recorded::Turns {
            width,
            count: 1,
            turns,
            next: 1,
            ids: place,
            first,
        };
        self.commands.push_reserved(run);
        self.count += 1;
        true
    }
}
