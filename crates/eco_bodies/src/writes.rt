//! What scripts write.
ghost use Rattle.std.specs.Prelude.{◌≡◌, ◌++◌, IfOk, OnOk, map, option_copied, option_map};
ghost use Rattle.eco_query.specs.Queries.{slot_view};
ghost use Rattle.eco_bodies.specs.Actions as spec;

use crate::action::{Action, slot_at};
use eco_ids::Pattern;
use eco_query::{Slot, exactly};
use std::alloc::{AllocError, Global};

// Puts the patterns of a slot behind others, if it is there.
fn add_slot(patterns: &mut Vec<Pattern>, slot: Option<&Slot>) -> Result<(), AllocError>
    ensures { OnOk result (patterns.new.items
        ≡ patterns.old.items ++ spec.patterns_at (option_map slot_view (option_copied slot.entry))) }
{
    match slot {
        Some(slot) => slot.term.add_patterns(patterns),
        None => Ok(()),
    }
}

// Puts those that an action writes behind others.
fn add_written(
    patterns: &mut Vec<Pattern>,
    slots: &[Slot],
    action: Action,
) -> Result<(), AllocError>
    ensures { OnOk result (patterns.new.items
        ≡ patterns.old.items ++ spec.action_writes (map slot_view slots.now) action) }
{
    match action {
        Action::AddId(id) | Action::RemoveId(id) | Action::Spawn(Some(id)) => {
            patterns.push(exactly(id))?;
        }
        Action::Put { slot, value: _ } => add_slot(patterns, slot_at(slots, slot))?,
        Action::Sum { into, from: _ } => add_slot(patterns, slot_at(slots, into))?,
        Action::Kill | Action::Spawn(None) => {}
    }
    Ok(())
}

/// The patterns that the actions of a script write, on a query of these slots. `AllocError` comes where memory for them is
/// refused.
pub(crate) fn script_writes(
    alloc: Global,
    slots: &[Slot],
    actions: &[Action],
) -> Result<Vec<Pattern>, AllocError>
    ensures { IfOk result (λ patterns. patterns.items
        ≡ spec.script_writes (map slot_view slots.now) actions.now) }
{
    let mut patterns = Vec::new(alloc);
    for action in actions {
        add_written(&mut patterns, slots, *action)?;
    }
    Ok(patterns)
}
