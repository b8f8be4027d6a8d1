//! The edges of one slot.
ghost use Rattle.std.specs.Prelude.{◌≡◌, ◌∷◌, ◌++◌, ◌↔◌, [], cond, length, Some, None, IsTrue, IfOk, IfSome, IfNone, OnOk, OnErr};
ghost use Rattle.std.specs.List.{IsDistinct};
ghost use Rattle.std.specs.Map.{keys_of, lookup};
ghost use Rattle.std.specs.Option.{option_to_list};
ghost use Rattle.std.specs.HashMap.{get};
ghost use Rattle.eco_ids.specs.declared.id.Id.{Id as Ids};
ghost use Rattle.eco_ids.specs.declared.id.Id.TheVariants.{One, Two};
ghost use Rattle.eco_index.specs.Edges.{same_id};
ghost use Rattle.eco_index.specs.Sweeping.{kept_if};

use crate::occupancy::Occupancy;
use crate::seed::Seed;
use eco_ids::{Entity, Id, TableSlot};
use indexmap::IndexMap;
use std::alloc::{AllocError, Global};
use std::marker::Model;

// So many edges cost less to compare one by one than to hash an id, and take less memory.
const FEW_EDGES: usize = 4;

/// Where ids lead from a slot, each id to one slot. Most slots have an edge or two.
///
/// A contract sees the list of the edges, each an id and the slot to which it leads.
#[derive(Drop)]
pub struct EdgeList {
    kept: Kept,
}

/// How the edges are kept.
pub enum Kept {
    /// There is none.
    Empty,
    /// One, which takes no memory of its own.
    One((Id, TableSlot)),
    /// A few, which are compared one by one.
    Few(Vec<(Id, TableSlot)>),
    /// More. The map is boxed, so that what the slots of the tables move about stays small.
    Many(Box<IndexMap<Id, TableSlot, Seed>>),
}

// By hand, so that dropping it is one call: a derived drop is proved anew at each early return of whoever holds it.
impl Drop for Kept {
    fn drop(self) {
        match self {
            Kept::Empty | Kept::One(_) | Kept::Few(_) | Kept::Many(_) => {}
        }
    }
}

impl Model for EdgeList {
    ghost use Rattle.std.specs.Prelude.{List, ℕ};
    ghost use Rattle.eco_ids.specs.declared.id.Id.{Id as Ids};
    ghost use Rattle.eco_index.specs.EdgeList.{edges_of, HasEachIdOnce};

    ghost Value = { List (Ids × ℕ) };

    ghost view = { λ l. edges_of l.kept };

    ghost invariant = { λ l. HasEachIdOnce l.kept };
}

impl EdgeList {
    /// No edge.
    pub fn new() -> EdgeList
        ensures { result ≡ [] }
    {
        EdgeList { kept: Kept::Empty }
    }

    /// Where the id leads.
    #[inline(always)]
    pub fn get(&self, id: Id) -> Option<TableSlot>
        ensures { result ≡ lookup (same_id id) self.now }
    {
        match &self.kept {
            Kept::Empty => None,
            Kept::One(own) => lead_of(*own, id),
            Kept::Few(few) => lead_among(few.as_slice(), id),
            Kept::Many(many) => match id {
                Id::One(entity) => find_single(many, entity),
                Id::Two(relationship, target) => find_pair(many, relationship, target),
            },
        }
    }

    /// Whether there is no edge.
    pub fn is_empty(&self) -> bool
        ensures { IsTrue result ↔ (self.now ≡ []) }
    {
        match &self.kept {
            Kept::Empty => true,
            Kept::One(_) => false,
            Kept::Few(few) => few.is_empty(),
            Kept::Many(many) => many.is_empty(),
        }
    }

    /// The id, which led nowhere, leads to the slot from now on. An `Err` changes nothing.
    pub fn put(
        &mut self,
        alloc: Global,
        seed: Seed,
        id: Id,
        to: TableSlot,
    ) -> Result<(), AllocError>
        requires { lookup (same_id id) self.old ≡ None }
        ensures ok { OnOk result (self.new ≡ self.old ++ (id, to) ∷ []) }
        ensures err { OnErr result (self.new ≡ self.old) }
    {
        match &mut self.kept {
            Kept::Empty => self.kept = Kept::One((id, to)),
            Kept::One(own) => self.kept = Kept::Few(both(alloc, *own, (id, to))?),
            Kept::Few(few) => {
                if few.len() < FEW_EDGES {
                    few.push((id, to))?;
                } else {
                    self.kept = Kept::Many(widened(alloc, seed, few.as_slice(), id, to)?);
                }
            }
            Kept::Many(many) => {
                many.insert(id, to)?;
            }
        }
        Ok(())
    }

    /// The id leads nowhere from now on. It takes no memory.
    pub fn take(&mut self, id: Id)
        ensures { (i : Ids) → lookup (same_id i) self.new
            ≡ cond (same_id id i) None (lookup (same_id i) self.old) }
    {
        match &mut self.kept {
            Kept::Empty => {}
            Kept::One(own) => {
                if id.is(own.0) {
                    self.kept = Kept::Empty;
                }
            }
            Kept::Few(few) => few.retain(|edge| !id.is(edge.0)),
            Kept::Many(many) => {
                many.swap_remove(&id);
            }
        }
    }

    /// Takes the last edge, if there is one. It takes no memory.
    pub fn pop(&mut self) -> Option<(Id, TableSlot)>
        ensures edges { self.old ≡ self.new ++ option_to_list result }
        ensures alone { IfSome result (λ edge. lookup (same_id edge.0) self.new ≡ None) }
        ensures none { IfNone result (self.new ≡ []) }
    {
        match &mut self.kept {
            Kept::Empty => None,
            Kept::One(own) => {
                let edge = *own;
                self.kept = Kept::Empty;
                Some(edge)
            }
            Kept::Few(few) => few.pop(),
            Kept::Many(many) => many.pop(),
        }
    }

    /// The edges to slots without a table go. It takes no memory.
    pub fn keep_there<T: Occupancy>(&mut self, tables: &T)
        ensures { (i : Ids) → lookup (same_id i) self.new
            ≡ kept_if (T.has_table tables.now) (lookup (same_id i) self.old) }
    {
        match &mut self.kept {
            Kept::Empty => {}
            Kept::One(own) => {
                if !tables.has_table(own.1) {
                    self.kept = Kept::Empty;
                }
            }
            Kept::Few(few) => few.retain(|edge| tables.has_table(edge.1)),
            Kept::Many(many) => {
                // No two ids are equal, as the length says.
                let _count = many.len();
                many.retain(|_, to| tables.has_table(*to));
            }
        }
    }

    /// All edges go. It takes no memory.
    pub fn clear(&mut self)
        ensures { self.new ≡ [] }
    {
        match &mut self.kept {
            Kept::Empty => {}
            Kept::One(_) => self.kept = Kept::Empty,
            Kept::Few(few) => few.clear(),
            Kept::Many(many) => many.clear(),
        }
    }
}

// Both edges, as a list.
#[inline(never)]
fn both(
    alloc: Global,
    one: (Id, TableSlot),
    other: (Id, TableSlot),
) -> Result<Vec<(Id, TableSlot)>, AllocError>
    ensures { IfOk result (λ few. few.items ≡ one ∷ other ∷ []) }
{
    let mut few = Vec::with_capacity(alloc, 2)?;
    few.push_reserved(one);
    few.push_reserved(other);
    Ok(few)
}

// A few edges, and one more, of an id that leads nowhere among them.
#[cold]
#[inline(never)]
fn widened(
    alloc: Global,
    seed: Seed,
    few: &[(Id, TableSlot)],
    id: Id,
    to: TableSlot,
) -> Result<Box<IndexMap<Id, TableSlot, Seed>>, AllocError>
    requires distinct { IsDistinct same_id (keys_of few.now) }
    requires absent { lookup (same_id id) few.now ≡ None }
    ensures { IfOk result (λ many. many.value.entries ≡ few.now ++ (id, to) ∷ []) }
{
    let mut many = IndexMap::with_hasher(alloc, seed);
    for (own, slot) in few {
        many.insert(*own, *slot)?;
    }
    many.insert(id, to)?;
    Ok(Box::new(alloc, many)?)
}

// Where a single id leads, of many edges. Apart, so that a few cost no more than a look at each. An id would stand in memory to
// be handed over, and an entity need not.
#[inline(never)]
fn find_single(edges: &IndexMap<Id, TableSlot, Seed>, entity: Entity) -> Option<TableSlot>
    ensures { result ≡ get same_id edges.now (One entity) }
{
    edges.get(&Id::One(entity)).copied()
}

// Where a pair leads, of many edges, as `find_single` tells it of a single id.
#[inline(never)]
fn find_pair(
    edges: &IndexMap<Id, TableSlot, Seed>,
    relationship: Entity,
    target: Entity,
) -> Option<TableSlot>
    ensures { result ≡ get same_id edges.now (Two relationship target) }
{
    edges.get(&Id::Two(relationship, target)).copied()
}

// Where the id leads, of one edge.
#[inline(always)]
fn lead_of(edge: (Id, TableSlot), id: Id) -> Option<TableSlot>
    ensures { result ≡ lookup (same_id id) (edge ∷ []) }
{
    if id.is(edge.0) { Some(edge.1) } else { None }
}

// Where the id leads, of a few edges.
#[inline(always)]
fn lead_among(edges: &[(Id, TableSlot)], id: Id) -> Option<TableSlot>
    ensures { result ≡ lookup (same_id id) edges.now }
{
    for (own, to) in edges {
        if id.is(*own) {
            return Some(*to);
        }
    }
    None
}
