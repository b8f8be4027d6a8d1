//! A list of commands.
ghost use Rattle.std.specs.Prelude.{◌≡◌, ◌==◌, ◌+◌, ◌-◌, ◌<◌, ◌≤◌, ◌^◌, ◌++◌, ◌∷◌, [], All, IfErr, IsFalse, IsTrue, OnErr, OnOk, length, map, vec_capacity, vec_len};
ghost use Rattle.eco_ids.specs.Run as run;
ghost use Rattle.eco_ids.specs.Run.{Set};
ghost use Rattle.eco_stages.specs.Commands.{command_of};
ghost use Rattle.eco_stages.specs.Recorded.{SpeaksOfKept, StandsAlone, commands_of, moved_by};

mod turns;

use crate::command::Command;
use crate::kept::{Kept, has_room};
use crate::recorded::Recorded;
use crate::width::Width;
use eco_ids::{Entity, Id, Value};
use std::alloc::{AllocError, Global};
use std::marker::Model;

/// Commands in the order in which they were recorded. Whoever records needs the stage alone, no world: so threads record side
/// by side, each in a stage of its own, and a merge runs all of them (Flecs manual, Systems, staging).
#[derive(Debug)]
pub struct Stage {
    commands: Vec<Recorded>,
    // What they speak of.
    kept: Kept,
    // How many commands there are, each set of a run counted.
    count: usize,
}

// By hand, so that dropping it is one call: a derived drop is proved anew at each early return of whoever holds it.
impl Drop for Stage {
    fn drop(self) {
        let Stage {
            commands: _,
            kept: _,
            count: _,
        } = self;
    }
}

impl Model for Stage {
    ghost use Rattle.std.specs.Prelude.{◌≡◌, All, List, length};
    ghost use Rattle.eco_ids.specs.Run.{Command};
    ghost use Rattle.eco_stages.specs.Recorded.{SpeaksOfKept, commands_of};

    ghost Value = { List Command };

    ghost view = { λ s. commands_of s.kept s.commands.items };

    ghost invariant = { λ s. record {
      kept : All (SpeaksOfKept s.kept) s.commands.items;
      count : s.count ≡ length (commands_of s.kept s.commands.items);
    } };
}

impl Stage {
    /// No command. What is recorded takes its memory from `alloc`.
    pub fn new(alloc: Global) -> Stage
        ensures { result ≡ [] }
    {
        Stage {
            commands: Vec::new(alloc),
            kept: Kept::new(alloc),
            count: 0,
        }
    }

    /// The command comes last. Where no memory is left for it, it is handed back and the stage is as it was.
    #[inline(always)]
    pub fn record(&mut self, command: Command) -> Result<(), Command>
        ensures ok { OnOk result (self.new ≡ self.old ++ command_of command ∷ []) }
        ensures back { IfErr result (λ refused. refused ≡ command) }
        ensures err { OnErr result (self.new ≡ self.old) }
    {
        // So many that they can't be counted have no room either.
        if self.count == usize::MAX {
            return Err(command);
        }
        if self.record_unnamed(&command) {
            return Ok(());
        }
        match command {
            Command::Rename(entity, name) => self.record_rename(entity, name),
            refused => Err(refused),
        }
    }

    // The command comes last, unless it is a rename or no memory is left for it. The answer is whether it does; else the
    // stage is as it was.
    #[inline(always)]
    fn record_unnamed(&mut self, command: &Command) -> bool
        requires { length self.old < 2 ^ 64 - 1 }
        ensures yes { IsTrue result → self.new ≡ self.old ++ command_of command.now ∷ [] }
        ensures no { IsFalse result → self.new ≡ self.old }
    {
        if let Command::Set(entity, id, value) = command {
            return self.record_in_run(*entity, *id, *value)
                || self.ends_in_set() && self.record_turns(*entity, *id, *value)
                || self.record_run(*entity, *id, *value);
        }
        match Recorded::of(command) {
            Some(recorded) => self.record_plain(recorded),
            None => false,
        }
    }

    // The command comes last, with nothing apart. The answer is whether it does; else the stage is as it was.
    #[inline(always)]
    fn record_plain(&mut self, recorded: Recorded) -> bool
        requires few { length self.old < 2 ^ 64 - 1 }
        requires plain { (c : run.Command) × StandsAlone c recorded }
        ensures yes { IsTrue result → (c : run.Command) → StandsAlone c recorded
            → self.new ≡ self.old ++ c ∷ [] }
        ensures no { IsFalse result → self.new ≡ self.old }
    {
        if !has_room(&mut self.commands) {
            return false;
        }
        self.commands.push_reserved(recorded);
        self.count += 1;
        true
    }

    // The set comes last in the run of the last command, where that goes on with it. The answer is whether it does; else the stage
    // is as it was.
    #[inline(always)]
    fn record_in_run(&mut self, entity: Entity, id: Id, value: Value) -> bool
        requires { length self.old < 2 ^ 64 - 1 }
        ensures yes { IsTrue result → self.new ≡ self.old ++ Set entity id value ∷ [] }
        ensures no { IsFalse result → self.new ≡ self.old }
    {
        let Some(last) = self.commands.last_mut() else {
            return false;
        };
        if !last.go_on(&mut self.kept, entity, id, value) {
            return false;
        }
        self.count += 1;
        true
    }

    // The set comes last, and is the first of a run. The answer is whether it does; else the stage is as it was.
    #[inline(always)]
    fn record_run(&mut self, entity: Entity, id: Id, value: Value) -> bool
        requires { length self.old < 2 ^ 64 - 1 }
        ensures yes { IsTrue result → self.new ≡ self.old ++ Set entity id value ∷ [] }
        ensures no { IsFalse result → self.new ≡ self.old }
    {
        let width = Width::of(value);
        let first = self.kept.count(width);
        if !has_room(&mut self.commands) {
            return false;
        }
        if !self.kept.push_at(width, first, entity, value) {
            return false;
        }
        let run = Recorded::Set {
            width,
            count: 1,
            id,
            first,
        };
        self.commands.push_reserved(run);
        self.count += 1;
        true
    }

    // The rename comes last. Where no memory is left for it, it is handed back and the stage is as it was.
    #[inline(never)]
    fn record_rename(&mut self, entity: Entity, name: Option<String>) -> Result<(), Command>
        requires { length self.old < 2 ^ 64 - 1 }
        ensures ok { OnOk result (self.new ≡ self.old ++ command_of (Command.Rename entity name) ∷ []) }
        ensures back { IfErr result (λ refused. refused ≡ Command.Rename entity name) }
        ensures err { OnErr result (self.new ≡ self.old) }
    {
        if !has_room(&mut self.commands) || !has_room(&mut self.kept.names) {
            return Err(Command::Rename(entity, name));
        }
        let place = self.kept.names.len();
        self.kept.names.push_reserved(name);
        self.commands.push_reserved(Recorded::Rename(entity, place));
        self.count += 1;
        Ok(())
    }

    /// The commands as they are kept, in their order, and what they speak of.
    pub fn recorded(&self) -> (&[Recorded], &Kept)
        ensures all { commands_of result.1.now result.0.now ≡ self.now }
        ensures kept { All (SpeaksOfKept result.1.now) result.0.now }
    {
        (self.commands.as_slice(), &self.kept)
    }

    /// How many commands there are.
    pub fn len(&self) -> usize
        ensures { result ≡ length self.now }
    {
        self.count
    }

    /// Whether there is none.
    pub fn is_empty(&self) -> bool
        ensures { result ≡ (length self.now == 0) }
    {
        self.count == 0
    }

    /// Takes all commands out, as after a merge of them. The memory stays for those of the next frame.
    pub fn clear(&mut self)
        ensures { self.new ≡ [] }
    {
        self.commands.clear();
        self.kept.clear();
        self.count = 0;
    }

    /// The other stage's commands come last, in their order, each copied. An `Err` comes where memory is refused, and leaves the
    /// stage as it was.
    pub fn record_copies(&mut self, other: &Stage) -> Result<(), AllocError>
        ensures ok { OnOk result (self.new ≡ self.old ++ other.now) }
        ensures err { OnErr result (self.new ≡ self.old) }
    {
        let Some(sum) = self.count.checked_add(other.count) else {
            return Err(AllocError);
        };
        let count = self.commands.len();
        self.commands.reserve(other.commands.len())?;
        push_moved(
            &mut self.commands,
            &self.kept,
            other.commands.as_slice(),
            &other.kept,
        );
        if let Err(refused) = self.kept.push_copies(&other.kept) {
            self.commands.truncate(count);
            return Err(refused);
        }
        self.count = sum;
        Ok(())
    }
}

// The commands of another stage come last, moved behind what is kept, in room that is there.
fn push_moved(list: &mut Vec<Recorded>, own: &Kept, commands: &[Recorded], other: &Kept)
    requires room { vec_len list.old + length commands.now ≤ vec_capacity list.old }
    requires kept { All (SpeaksOfKept other.now) commands.now }
    ensures { list.new.items ≡ list.old.items ++ map (moved_by own.now) commands.now }
{
    for command in commands {
        list.push_reserved(command.moved(own, other));
    }
}
