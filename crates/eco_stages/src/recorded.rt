//! What a stage keeps of a command.
ghost use Rattle.std.specs.Prelude.{◌≡◌, ◌<◌, ◌+◌, ◌%◌, ◌++◌, ◌∷◌, ℕ, [], IfNone, IfSome, IsFalse, IsTrue};
ghost use Rattle.eco_ids.specs.Run.{Set};
ghost use Rattle.eco_stages.specs.Commands.{command_of};
ghost use Rattle.eco_stages.specs.Recorded.{KeepsSame, SpeaksOfKept, StandsAlone, StaysKept, commands_at};
ghost use Rattle.eco_stages.specs.Recorded.{moved_by, speaks_of_kept};

use crate::command::Command;
use crate::kept::Kept;
use crate::width::Width;
use eco_ids::{Entity, Id, Value};

/// So many ids at most are in turn: few systems write more components of a row.
pub const MOST_IN_TURN: usize = 8;

/// A command as a stage keeps it, in half a line of the processor's cache: what not all have room for stands apart, in the
/// stage's lists. Sets of one id, one after another, are a run, and one of these, and so are sets of several ids in turn.
#[derive(Clone, Copy, Debug)]
pub enum Recorded {
    /// [`Command::Create`].
    Create(Entity),
    /// [`Command::Add`].
    Add(Entity, Id),
    /// [`Command::Remove`].
    Remove(Entity, Id),
    /// [`Command::Set`], so often, of one id.
    Set {
        /// What is kept of each value.
        width: Width,
        /// How many sets there are.
        count: u16,
        /// The id of all of them.
        id: Id,
        /// Where the first stands among the sets of this width, and the others behind it.
        first: usize,
    },
    /// [`Command::Set`], so often, of ids in turn, as a system records them that writes several components of each row.
    Turns {
        /// What is kept of each value.
        width: Width,
        /// How many sets there are.
        count: u16,
        /// How many ids there are.
        turns: u8,
        /// Whose turn is next, the first's being 0.
        next: u8,
        /// Where the first id stands among those that sets have in turn, and the others behind it.
        ids: usize,
        /// Where the first set stands among those of this width, and the others behind it.
        first: usize,
    },
    /// [`Command::Clear`].
    Clear(Entity),
    /// [`Command::Rename`] to the name at a place.
    Rename(Entity, usize),
    /// [`Command::Delete`].
    Delete(Entity),
    /// [`Command::DeleteWith`].
    DeleteWith(Id),
    /// [`Command::RemoveAll`].
    RemoveAll(Id),
}

// Whose turn is next, of so many.
#[inline(always)]
fn next_turn(turn: u8, turns: u8) -> u8
    requires { turn < turns }
    ensures { (n : ℕ) → turn ≡ n % turns → result ≡ (n + 1) % turns }
{
    if turn + 1 == turns { 0 } else { turn + 1 }
}

impl Recorded {
    // The command as it is kept. None, where something of it stands apart.
    #[inline(always)]
    pub(crate) fn of(command: &Command) -> Option<Recorded>
        ensures some { IfSome result (λ r. StandsAlone (command_of command.now) r) }
        ensures none { IfNone result (IsTrue (speaks_of_kept (command_of command.now))) }
    {
        Some(match command {
            Command::Create(entity) => Recorded::Create(*entity),
            Command::Add(entity, id) => Recorded::Add(*entity, *id),
            Command::Remove(entity, id) => Recorded::Remove(*entity, *id),
            Command::Clear(entity) => Recorded::Clear(*entity),
            Command::Delete(entity) => Recorded::Delete(*entity),
            Command::DeleteWith(id) => Recorded::DeleteWith(*id),
            Command::RemoveAll(id) => Recorded::RemoveAll(*id),
            Command::Set(_, _, _) | Command::Rename(_, _) => return None,
        })
    }

    // The set comes last in this run, where it is one that the set goes on with: one of the same id, or one of ids in turn whose
    // turn it is, which keeps the value whole. The answer is whether it does; else all is as it was.
    #[inline(always)]
    pub(crate) fn go_on(&mut self, kept: &mut Kept, entity: Entity, id: Id, value: Value) -> bool
        requires { SpeaksOfKept kept.old self.old }
        ensures yes { IsTrue result
            → commands_at kept.new self.new ≡ commands_at kept.old self.old ++ Set entity id value ∷ [] }
        ensures no { IsFalse result → self.new ≡ self.old }
        ensures same { IsFalse result → KeepsSame kept.old kept.new }
        ensures own { SpeaksOfKept kept.new self.new }
        ensures kept { StaysKept kept.old kept.new }
    {
        match self {
            Recorded::Set {
                width,
                count,
                id: own,
                first,
            } => own.is(id) && kept.push_in_run(*width, *first, count, entity, value),
            Recorded::Turns {
                width,
                count,
                turns,
                next,
                ids,
                first,
            } => {
                if !kept.ids[*ids + *next as usize].is(id) {
                    return false;
                }
                if !kept.push_in_run(*width, *first, count, entity, value) {
                    return false;
                }
                *next = next_turn(*next, *turns);
                true
            }
            _ => false,
        }
    }

    // The same, where what it speaks of in one stage is kept behind what another keeps.
    pub(crate) fn moved(self, own: &Kept, other: &Kept) -> Recorded
        requires { SpeaksOfKept other.now self }
        ensures { result ≡ moved_by own.now self }
    {
        match self {
            Recorded::Set {
                width,
                count,
                id,
                first,
            } => Recorded::Set {
                width,
                count,
                id,
                first: own.count(width) + first,
            },
            Recorded::Turns {
                width,
                count,
                turns,
                next,
                ids,
                first,
            } => Recorded::Turns {
                width,
                count,
                turns,
                next,
                ids: own.ids.len() + ids,
                first: own.count(width) + first,
            },
            Recorded::Rename(entity, place) => Recorded::Rename(entity, own.names.len() + place),
            _ => self,
        }
    }
}
