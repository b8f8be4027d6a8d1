//! Edges between the slots of tables: which table an id more or less leads to.
ghost use Rattle.std.specs.Prelude.{◌≡◌, cond, ◌≢◌, ◌≤◌, ◌<◌, [], ℕ, length, List, Option, None, Some, OnOk, OnErr};
ghost use Rattle.std.specs.Map.{lookup};
ghost use Rattle.eco_ids.specs.declared.id.Id.{Id as Ids};
ghost use Rattle.eco_index.specs.Sweeping.{kept_if, KeepsEdges};
ghost use Rattle.eco_index.specs.Edges.{edge, same_id, IsTwofold, SameEdges, Puts, Links, TakesBack, Cuts};

mod edge_list;

use crate::edges::edge_list::EdgeList;
use crate::occupancy::Occupancy;
use crate::seed::Seed;
use eco_ids::{Id, TableSlot};
use std::alloc::{AllocError, Global};
use std::mem;

/// For each slot of a table, and for an id, the slot of the table whose type has the id too, or lacks it alone. No model:
/// contracts see the lists, as `edge_lists`.
#[derive(Drop)]
pub struct Edges {
    alloc: Global,
    seed: Seed,
    lists: Vec<EdgeList>,
    ghost twofold: { IsTwofold lists.items },
}

impl Edges {
    ghost use Rattle.eco_index.specs.Contents.{edge_lists};

    /// No edge. Ids are hashed with this seed.
    pub fn new(alloc: Global, seed: Seed) -> Edges
        ensures { (n : ℕ) (j : Ids) → edge (edge_lists result) n j ≡ None }
    {
        Edges {
            alloc,
            seed,
            lists: Vec::new(alloc),
        }
    }

    /// The slot to which the id leads.
    #[inline(always)]
    pub fn get(&self, slot: TableSlot, id: Id) -> Option<TableSlot>
        ensures { result ≡ edge (edge_lists self.now) slot id }
    {
        self.lists.get(slot)?.get(id)
    }

    /// The id leads from either slot to the other from now on. An `Err` comes where memory is refused, and then no edge has
    /// changed.
    pub fn link(&mut self, from: TableSlot, id: Id, to: TableSlot) -> Result<(), AllocError>
        requires apart { from ≢ to }
        requires from { edge (edge_lists self.old) from id ≡ None }
        requires to { edge (edge_lists self.old) to id ≡ None }
        ensures ok { OnOk result (Links (edge_lists self.old) (edge_lists self.new) from id to) }
        ensures err { OnErr result (SameEdges (edge_lists self.old) (edge_lists self.new)) }
    {
        link_both(self.alloc, self.seed, &mut self.lists, from, id, to)
    }

    /// The edges from slots without a table, and to such slots, go. It takes no memory.
    pub fn keep_there<T: Occupancy>(&mut self, tables: &T)
        ensures { KeepsEdges (T.has_table tables.now) (edge_lists self.old) (edge_lists self.new) }
    {
        keep_in_each(&mut self.lists, tables);
    }

    /// No edge leads from the slot or to it from now on. It takes no memory.
    pub fn cut(&mut self, slot: TableSlot)
        ensures { Cuts (edge_lists self.old) (edge_lists self.new) slot }
    {
        cut_all(&mut self.lists, slot);
    }
}

// A list of edges for each slot below. An `Err` may leave some of them.
fn cover(lists: &mut Vec<EdgeList>, len: usize) -> Result<(), AllocError>
    ensures same { SameEdges lists.old.items lists.new.items }
    ensures enough { OnOk result (len ≤ length lists.new.items) }
    ensures kept { length lists.old.items ≤ length lists.new.items }
{
    while lists.len() < len {
        lists.push(EdgeList::new())?;
    }
    Ok(())
}

// The id leads from the slot to another from now on.
fn put(
    alloc: Global,
    seed: Seed,
    lists: &mut Vec<EdgeList>,
    slot: TableSlot,
    id: Id,
    to: TableSlot,
) -> Result<(), AllocError>
    requires there { slot < length lists.old.items }
    requires absent { edge lists.old.items slot id ≡ None }
    ensures ok { OnOk result (Puts lists.old.items lists.new.items slot id (Some to)) }
    ensures err { OnErr result (SameEdges lists.old.items lists.new.items) }
    ensures len { length lists.new.items ≡ length lists.old.items }
{
    lists[slot].put(alloc, seed, id, to)
}

// The id leads nowhere from the slot. It takes no memory.
fn take(lists: &mut Vec<EdgeList>, slot: TableSlot, id: Id)
    ensures taken { Puts lists.old.items lists.new.items slot id None }
    ensures len { length lists.new.items ≡ length lists.old.items }
{
    if slot < lists.len() {
        lists[slot].take(id);
    }
}

// The id leads from either slot to the other. An `Err` changes no edge.
fn link_both(
    alloc: Global,
    seed: Seed,
    lists: &mut Vec<EdgeList>,
    from: TableSlot,
    id: Id,
    to: TableSlot,
) -> Result<(), AllocError>
    requires apart { from ≢ to }
    requires from { edge lists.old.items from id ≡ None }
    requires to { edge lists.old.items to id ≡ None }
    ensures ok { OnOk result (Links lists.old.items lists.new.items from id to) }
    ensures err { OnErr result (SameEdges lists.old.items lists.new.items) }
{
    let Some(len) = from.max(to).checked_add(1) else {
        return Err(AllocError);
    };
    cover(lists, len)?;
    put(alloc, seed, lists, from, id, to)?;
    match put(alloc, seed, lists, to, id, from) {
        Ok(()) => Ok(()),
        Err(refused) => {
            take(lists, from, id);
            Err(refused)
        }
    }
}

// Each of these edges of a slot has no edge back any more. It takes no memory.
fn take_back(lists: &mut Vec<EdgeList>, own: &mut EdgeList)
    ensures taken { TakesBack own.old lists.old.items lists.new.items }
    ensures len { length lists.new.items ≡ length lists.old.items }
    ensures none { own.new ≡ [] }
{
    while let Some((id, to)) = own.pop() {
        take(lists, to, id);
    }
}

// No edge leads from the slot or to it. It takes no memory.
fn cut_all(lists: &mut Vec<EdgeList>, slot: TableSlot)
    requires { IsTwofold lists.old.items }
    ensures { Cuts lists.old.items lists.new.items slot }
{
    if slot < lists.len() {
        if lists[slot].is_empty() {
            // Each edge leads back, so none leads here either.
            return;
        }
        let mut own = mem::replace(&mut lists[slot], EdgeList::new());
        take_back(lists, &mut own);
        // Its room serves the edges of the next table in the slot.
        lists[slot] = own;
    }
}

// Of each list the edges between slots that have tables stay.
fn keep_in_each<T: Occupancy>(lists: &mut Vec<EdgeList>, tables: &T)
    ensures { KeepsEdges (T.has_table tables.now) lists.old.items lists.new.items }
{
    for slot in 0..lists.len() {
        keep_own(&mut lists[slot], slot, tables);
    }
}

// Of the edges of a slot those stay that lead to a table, where the slot has one.
fn keep_own<T: Occupancy>(own: &mut EdgeList, slot: TableSlot, tables: &T)
    ensures { (i : Ids) → lookup (same_id i) own.new
        ≡ cond (T.has_table tables.now slot)
        (kept_if (T.has_table tables.now) (lookup (same_id i) own.old)) None }
{
    if tables.has_table(slot) {
        own.keep_there(tables);
    } else {
        own.clear();
    }
}
