//! What a script does with a row.
ghost use Rattle.std.specs.Prelude.{◌≡◌, map, option_copied, option_map, slice_get};
ghost use Rattle.std.specs.List.{list_any};
ghost use Rattle.eco_query.specs.Queries.{slot_view};
ghost use Rattle.eco_systems.specs.Rows.{shows_values};
ghost use Rattle.eco_bodies.specs.Actions as spec;

use eco_ids::{Id, Refusal, Value};
use eco_query::{Access, Slot, Term};

/// What a script does with each row of its query. Slots are counted from 0, in the query's written order.
#[derive(Clone, Copy, Debug, PartialEq, Eq)]
pub enum Action {
    /// Adds an id to the row's entity.
    AddId(Id),
    /// Removes an id from it.
    RemoveId(Id),
    /// Sets the slot's entry to a value, where there is an entry. The slot's access is out or inout.
    Put { slot: usize, value: Value },
    /// Adds the value of the slot `from` to that of the slot `into`, field by field, each sum bounded by the fields' range,
    /// where both have a value. The access of `into` is inout, that of `from` in or inout.
    Sum { into: usize, from: usize },
    /// Deletes the row's entity.
    Kill,
    /// Makes a fresh entity, with an id if one is given.
    Spawn(Option<Id>),
}

// A slot of this access is written.
fn may_write(access: Access) -> bool
    ensures { result ≡ spec.may_write access }
{
    match access {
        Access::Out | Access::InOut => true,
        Access::In | Access::InOutNone => false,
    }
}

// It is read and written.
fn may_add_to(access: Access) -> bool
    ensures { result ≡ spec.may_add_to access }
{
    match access {
        Access::InOut => true,
        Access::In | Access::Out | Access::InOutNone => false,
    }
}

/// Whether a slot of this access shows the values of its entries: it is read (Flecs manual, Queries, access modifiers).
pub fn shows_values(access: Access) -> bool
    ensures { result ≡ shows_values access }
{
    match access {
        Access::In | Access::InOut => true,
        Access::Out | Access::InOutNone => false,
    }
}

// The slot has entries: it is no `!` slot.
fn has_entries(slot: &Slot) -> bool
    ensures { result ≡ spec.has_entries (slot_view slot.now) }
{
    match slot.term {
        Term::Not(_) => false,
        Term::And(_) | Term::Optional(_) | Term::Or(_) => true,
    }
}

/// The slot of this number, where there is one that has entries.
pub(crate) fn slot_at(slots: &[Slot], slot: usize) -> Option<&Slot>
    ensures { option_map slot_view (option_copied result) ≡ spec.slot_at (map slot_view slots.now) slot }
{
    let found = slots.get(slot)?;
    if !has_entries(found) {
        return None;
    }
    Some(found)
}

// Why a slot can't be put to.
fn put_refusal(slot: Option<&Slot>) -> Option<Refusal>
    ensures { result ≡ spec.put_refusal (option_map slot_view (option_copied slot.entry)) }
{
    match slot {
        None => Some(Refusal::BadTerm),
        Some(slot) if !may_write(slot.access) => Some(Refusal::Undeclared),
        Some(_) => None,
    }
}

// Why a slot can't be added to another.
fn sum_refusal(into: Option<&Slot>, from: Option<&Slot>) -> Option<Refusal>
    ensures { result ≡ spec.sum_refusal (option_map slot_view (option_copied into.entry))
        (option_map slot_view (option_copied from.entry)) }
{
    let (Some(into), Some(from)) = (into, from) else {
        return Some(Refusal::BadTerm);
    };
    if !may_add_to(into.access) || !shows_values(from.access) {
        return Some(Refusal::Undeclared);
    }
    None
}

// Why a script on a query of these slots can't have the action.
fn refusal_of(slots: &[Slot], action: Action) -> Option<Refusal>
    ensures { result ≡ spec.action_refusal (map slot_view slots.now) action }
{
    match action {
        Action::Put { slot, value: _ } => put_refusal(slot_at(slots, slot)),
        Action::Sum { into, from } => sum_refusal(slot_at(slots, into), slot_at(slots, from)),
        Action::AddId(_) | Action::RemoveId(_) | Action::Kill | Action::Spawn(_) => None,
    }
}

/// Why a script on a query of these slots can't have the actions, if so: for the first of them for which there is a reason,
/// `BadTerm` where one of its slots is not there or is a `!` slot, else `Undeclared` where the access of one does not allow
/// it.
pub(crate) fn first_refusal(slots: &[Slot], actions: &[Action]) -> Option<Refusal>
    ensures { result ≡ spec.first_action_refusal (map slot_view slots.now) actions.now }
{
    for action in actions {
        let refusal = refusal_of(slots, *action);
        if refusal.is_some() {
            return refusal;
        }
    }
    None
}

// Whether the action deletes the row's entity.
fn is_kill(action: Action) -> bool
    ensures { result ≡ spec.is_kill action }
{
    match action {
        Action::Kill => true,
        _ => false,
    }
}

/// Whether one of the actions deletes the row's entity.
pub(crate) fn some_kills(actions: &[Action]) -> bool
    ensures { result ≡ list_any spec.is_kill actions.now }
{
    actions.iter().any(|action| is_kill(*action))
}
