//! Stages that are done by whoever does commands.
ghost use Rattle.std.specs.Prelude.{◌≡◌, ◌+◌, ◌-◌, ◌≤◌, ◌<◌, ◌++◌, ◌∷◌, [], All, drop, length, map, option_copied};
ghost use Rattle.std.specs.Prelude.{take, IfOk, IsTrue, OnErr};
ghost use Rattle.eco_ids.specs.Run.{Create, Add, Remove, Clear, Rename, Delete, DeleteWith, RemoveAll};
ghost use Rattle.eco_ids.specs.World.{WorldState};
ghost use Rattle.eco_stages.specs.Merging.{all_commands, has_commands, AreDone, IsApplied};
ghost use Rattle.eco_stages.specs.Recorded.{SpeaksOfKept, commands_at, commands_of, in_turn, set_of_run, sets_of};
ghost use Rattle.eco_stages.specs.declared.recorded.TheConstants.{MOST_IN_TURN};

use crate::laws::commands_are_done_in_turn;
use eco_ids::{Entity, Id, Refusal};
use eco_stages::{Kept, Outcomes, Recorded, RunSet, Stage, Width};
use std::alloc::{AllocError, Global};

/// Whoever does commands: a world, into which stages are merged (Flecs manual, Systems, staging). Each is done, or refused
/// as the call of a world is that it stands for; a refused one changes nothing.
pub trait MergeTarget {
    // The world as definitions have it.
    ghost world: { Self → WorldState };

    /// [`eco_stages::Command::Create`].
    fn apply_create(&mut self, entity: Entity) -> Result<(), Refusal>
        ensures { IsApplied (Create entity) (world self.old) result (world self.new) };

    /// [`eco_stages::Command::Add`].
    fn apply_add(&mut self, entity: Entity, id: Id) -> Result<(), Refusal>
        ensures { IsApplied (Add entity id) (world self.old) result (world self.new) };

    /// [`eco_stages::Command::Remove`].
    fn apply_remove(&mut self, entity: Entity, id: Id) -> Result<(), Refusal>
        ensures { IsApplied (Remove entity id) (world self.old) result (world self.new) };

    /// [`eco_stages::Command::Clear`].
    fn apply_clear(&mut self, entity: Entity) -> Result<(), Refusal>
        ensures { IsApplied (Clear entity) (world self.old) result (world self.new) };

    /// [`eco_stages::Command::Rename`].
    fn apply_rename(&mut self, entity: Entity, name: Option<&str>) -> Result<(), Refusal>
        ensures { IsApplied (Rename entity (option_copied name.entry)) (world self.old) result
            (world self.new) };

    /// [`eco_stages::Command::Delete`].
    fn apply_delete(&mut self, entity: Entity) -> Result<(), Refusal>
        ensures { IsApplied (Delete entity) (world self.old) result (world self.new) };

    /// [`eco_stages::Command::DeleteWith`].
    fn apply_delete_with(&mut self, id: Id) -> Result<(), Refusal>
        ensures { IsApplied (DeleteWith id) (world self.old) result (world self.new) };

    /// [`eco_stages::Command::RemoveAll`].
    fn apply_remove_all(&mut self, id: Id) -> Result<(), Refusal>
        ensures { IsApplied (RemoveAll id) (world self.old) result (world self.new) };

    /// A run of sets of the id is done, one after another, and their outcomes appended: so what is known of the id serves
    /// for all of them. Their values have one field.
    fn apply_ones(&mut self, id: Id, sets: &[RunSet<1>], outcomes: &mut Outcomes)
        requires { length outcomes.old.outcomes + length sets.now ≤ outcomes.old.room }
        ensures { AreDone (world self.old) (map (set_of_run id) sets.now)
            outcomes.old outcomes.new (world self.new) };

    /// The same of values of three fields.
    fn apply_threes(&mut self, id: Id, sets: &[RunSet<3>], outcomes: &mut Outcomes)
        requires { length outcomes.old.outcomes + length sets.now ≤ outcomes.old.room }
        ensures { AreDone (world self.old) (map (set_of_run id) sets.now)
            outcomes.old outcomes.new (world self.new) };

    /// The same of values of eight fields.
    fn apply_eights(&mut self, id: Id, sets: &[RunSet<8>], outcomes: &mut Outcomes)
        requires { length outcomes.old.outcomes + length sets.now ≤ outcomes.old.room }
        ensures { AreDone (world self.old) (map (set_of_run id) sets.now)
            outcomes.old outcomes.new (world self.new) };

    /// A run of sets of these ids in turn is done, one after another, and their outcomes appended. Their values have one field.
    fn apply_ones_in_turn(&mut self, ids: &[Id], sets: &[RunSet<1>], outcomes: &mut Outcomes)
        requires ids { (0 < length ids.now) × (length ids.now ≤ MOST_IN_TURN) }
        requires room { length outcomes.old.outcomes + length sets.now ≤ outcomes.old.room }
        ensures { AreDone (world self.old) (in_turn ids.now 0 sets.now)
            outcomes.old outcomes.new (world self.new) };

    /// The same of values of three fields.
    fn apply_threes_in_turn(&mut self, ids: &[Id], sets: &[RunSet<3>], outcomes: &mut Outcomes)
        requires ids { (0 < length ids.now) × (length ids.now ≤ MOST_IN_TURN) }
        requires room { length outcomes.old.outcomes + length sets.now ≤ outcomes.old.room }
        ensures { AreDone (world self.old) (in_turn ids.now 0 sets.now)
            outcomes.old outcomes.new (world self.new) };

    /// The same of values of eight fields.
    fn apply_eights_in_turn(&mut self, ids: &[Id], sets: &[RunSet<8>], outcomes: &mut Outcomes)
        requires ids { (0 < length ids.now) × (length ids.now ≤ MOST_IN_TURN) }
        requires room { length outcomes.old.outcomes + length sets.now ≤ outcomes.old.room }
        ensures { AreDone (world self.old) (in_turn ids.now 0 sets.now)
            outcomes.old outcomes.new (world self.new) };
}

// The sets of this width from a place on to another, all of the id, are done, and their outcomes appended.
#[inline(always)]
fn apply_run<W: MergeTarget>(
    world: &mut W,
    width: Width,
    id: Id,
    first: usize,
    end: usize,
    kept: &Kept,
    outcomes: &mut Outcomes,
)
    requires places { (first ≤ end) × (end ≤ length (sets_of width kept.now)) }
    requires room { length outcomes.old.outcomes + (end - first) ≤ outcomes.old.room }
    ensures { AreDone (W.world world.old)
        (map (set_of_run id) (take (end - first) (drop first (sets_of width kept.now))))
        outcomes.old outcomes.new (W.world world.new) }
{
    match width {
        Width::One => world.apply_ones(id, &kept.ones[first..end], outcomes),
        Width::Three => world.apply_threes(id, &kept.threes[first..end], outcomes),
        Width::Eight => world.apply_eights(id, &kept.eights[first..end], outcomes),
    }
}

// The sets of this width from a place on to another, of these ids in turn, are done, and their outcomes appended.
#[inline(always)]
fn apply_turns<W: MergeTarget>(
    world: &mut W,
    width: Width,
    ids: &[Id],
    first: usize,
    end: usize,
    kept: &Kept,
    outcomes: &mut Outcomes,
)
    requires ids { (0 < length ids.now) × (length ids.now ≤ MOST_IN_TURN) }
    requires places { (first ≤ end) × (end ≤ length (sets_of width kept.now)) }
    requires room { length outcomes.old.outcomes + (end - first) ≤ outcomes.old.room }
    ensures { AreDone (W.world world.old)
        (in_turn ids.now 0 (take (end - first) (drop first (sets_of width kept.now))))
        outcomes.old outcomes.new (W.world world.new) }
{
    match width {
        Width::One => world.apply_ones_in_turn(ids, &kept.ones[first..end], outcomes),
        Width::Three => world.apply_threes_in_turn(ids, &kept.threes[first..end], outcomes),
        Width::Eight => world.apply_eights_in_turn(ids, &kept.eights[first..end], outcomes),
    }
}

// What `apply` does, also with a command that is rare in long stages. Apart, so that what these keep takes no room where
// entities come and get ids. Each outcome is appended where it comes: to hand it on would copy it.
#[inline(never)]
fn apply_rest<W: MergeTarget>(
    world: &mut W,
    command: &Recorded,
    kept: &Kept,
    outcomes: &mut Outcomes,
)
    requires kept { SpeaksOfKept kept.now command.now }
    requires room { length outcomes.old.outcomes + length (commands_at kept.now command.now)
        ≤ outcomes.old.room }
    ensures { AreDone (W.world world.old) (commands_at kept.now command.now)
        outcomes.old outcomes.new (W.world world.new) }
{
    commands_are_done_in_turn();
    match command {
        Recorded::Create(entity) => outcomes.push(world.apply_create(*entity)),
        Recorded::Add(entity, id) => outcomes.push(world.apply_add(*entity, *id)),
        Recorded::Remove(entity, id) => outcomes.push(world.apply_remove(*entity, *id)),
        Recorded::Set {
            width,
            count,
            id,
            first,
        } => {
            let end = *first + *count as usize;
            apply_run(world, *width, *id, *first, end, kept, outcomes);
        }
        Recorded::Turns {
            width,
            count,
            turns,
            ids,
            first,
            ..
        } => {
            let ids = &kept.ids[*ids..*ids + *turns as usize];
            let end = *first + *count as usize;
            apply_turns(world, *width, ids, *first, end, kept, outcomes);
        }
        Recorded::Clear(entity) => outcomes.push(world.apply_clear(*entity)),
        Recorded::Rename(entity, place) => {
            let name = kept.names[*place].as_deref();
            outcomes.push(world.apply_rename(*entity, name));
        }
        Recorded::Delete(entity) => outcomes.push(world.apply_delete(*entity)),
        Recorded::DeleteWith(id) => outcomes.push(world.apply_delete_with(*id)),
        Recorded::RemoveAll(id) => outcomes.push(world.apply_remove_all(*id)),
    }
}

// What is recorded is done, and its outcomes appended.
#[inline(always)]
fn apply<W: MergeTarget>(world: &mut W, command: &Recorded, kept: &Kept, outcomes: &mut Outcomes)
    requires kept { SpeaksOfKept kept.now command.now }
    requires room { length outcomes.old.outcomes + length (commands_at kept.now command.now)
        ≤ outcomes.old.room }
    ensures { AreDone (W.world world.old) (commands_at kept.now command.now)
        outcomes.old outcomes.new (W.world world.new) }
{
    commands_are_done_in_turn();
    match command {
        Recorded::Create(entity) => outcomes.push(world.apply_create(*entity)),
        Recorded::Add(entity, id) => outcomes.push(world.apply_add(*entity, *id)),
        _ => apply_rest(world, command, kept, outcomes),
    }
}

// The commands are done, one after another, and their outcomes appended.
fn apply_each<W: MergeTarget>(
    world: &mut W,
    commands: &[Recorded],
    kept: &Kept,
    outcomes: &mut Outcomes,
)
    requires kept { All (SpeaksOfKept kept.now) commands.now }
    requires room { length outcomes.old.outcomes + length (commands_of kept.now commands.now)
        ≤ outcomes.old.room }
    ensures { AreDone (W.world world.old) (commands_of kept.now commands.now) outcomes.old outcomes.new
        (W.world world.new) }
{
    eco_ids::laws::runs_keep_lawful();
    for command in commands {
        apply(world, command, kept, outcomes);
    }
}

/// The commands of all stages are done, stage by stage and each stage in its order, and their outcomes appended. Each is done
/// or refused on the world that the commands before it leave (Flecs manual, Systems, staging).
pub fn apply_stages<W: MergeTarget>(world: &mut W, stages: &[Stage], outcomes: &mut Outcomes)
    requires { length outcomes.old.outcomes + length (all_commands stages.now) ≤ outcomes.old.room }
    ensures { AreDone (W.world world.old) (all_commands stages.now) outcomes.old outcomes.new
        (W.world world.new) }
{
    eco_ids::laws::runs_keep_lawful();
    for stage in stages {
        let (commands, kept) = stage.recorded();
        apply_each(world, commands, kept, outcomes);
    }
}

/// Room for an outcome of each command. An `Err` comes where memory is refused, and never where there is no command.
pub fn room_for(alloc: Global, stages: &[Stage]) -> Result<Outcomes, AllocError>
    ensures none { IfOk result (λ o. o.outcomes ≡ []) }
    ensures room { IfOk result (λ o. length (all_commands stages.now) ≤ o.room) }
    ensures err { OnErr result (IsTrue (has_commands (all_commands stages.now))) }
{
    // So many that they can't be counted have no room either.
    let mut count: usize = 0;
    for stage in stages {
        count = count.saturating_add(stage.len());
    }
    Outcomes::with_room(alloc, count)
}
