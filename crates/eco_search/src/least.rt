//! The least set that holds the roots and whatever its members lead to.
ghost use Rattle.std.specs.Prelude.{◌≡◌, ◌<◌, ◌↔◌, [], true, length, List, IfOk, OnOk, IsTrue};
ghost use Rattle.indexmap.specs.IndexSet.{insert_all};
ghost use Rattle.eco_search.specs.Search.{Appends, Covers, IsInLeast, IsLeastSet, IsTurn};

use indexmap::IndexSet;
use std::alloc::{AllocError, Global};
use std::hash::Hash;

/// Nodes, and which of them each leads to.
pub trait Graph {
    /// Nodes that are equal are the same.
    type Node: Copy + Eq + Hash;

    /// All that anything leads to. There is an end to it, so a search ends too.
    ghost nodes: { Self → List Self.Node };

    ghost leads: { Self → Self.Node → Self.Node → Type 0 };

    /// Appends whatever the node leads to, in any order, all of it known. `AllocError` comes where no memory is to be had
    /// for it.
    fn append_next(&self, node: Self::Node, found: &mut Vec<Self::Node>) -> Result<(), AllocError>
        ensures exact { OnOk result (Appends Self.Node.eq (leads self.now node)
            found.old.items found.new.items) }
        ensures within { Covers Self.Node.eq (nodes self.now) (leads self.now node) };

    ghost same: { (a b : Self.Node) → Self.Node.eq a b ≡ true → a ≡ b };
}

/// The least set that holds the roots and, with each member, whatever it leads to.
///
/// It asks each member once for what it leads to, and its memory grows with the set alone. `AllocError` comes where that
/// growth is refused.
pub fn least_set<G: Graph>(
    alloc: Global,
    graph: &G,
    roots: &[G::Node],
) -> Result<IndexSet<G::Node>, AllocError>
    ensures { IfOk result (λ set. IsLeastSet G.Node.eq (G.leads graph.now) roots.now set.keys) }
{
    let mut members = IndexSet::new(alloc);
    let mut found = Vec::new(alloc);
    note_all(&mut members, roots)?;
    let mut asked = 0;
    while asked < members.len() {
        ask(graph, &mut members, asked, &mut found)?;
        asked += 1;
    }
    Ok(members)
}

/// Whether a node is in the least set that holds the roots and, with each member, whatever it leads to.
///
/// It stops as soon as the node is found. `AllocError` comes where the growth of the members is refused.
pub fn is_in_least_set<G: Graph>(
    alloc: Global,
    graph: &G,
    roots: &[G::Node],
    goal: G::Node,
) -> Result<bool, AllocError>
    ensures { IfOk result (λ b. IsTrue b ↔ IsInLeast G.Node.eq (G.leads graph.now) roots.now goal) }
{
    let mut members = IndexSet::new(alloc);
    let mut found = Vec::new(alloc);
    is_found(graph, roots, goal, &mut members, &mut found)
}

// Whether a search that begins with no member finds the node.
fn is_found<G: Graph>(
    graph: &G,
    roots: &[G::Node],
    goal: G::Node,
    members: &mut IndexSet<G::Node>,
    found: &mut Vec<G::Node>,
) -> Result<bool, AllocError>
    requires { members.old.keys ≡ [] }
    ensures { IfOk result (λ b. IsTrue b ↔ IsInLeast G.Node.eq (G.leads graph.now) roots.now goal) }
{
    note_all(members, roots)?;
    let mut asked = 0;
    while !members.contains(&goal) {
        if asked == members.len() {
            return Ok(false);
        }
        ask(graph, members, asked, found)?;
        asked += 1;
    }
    Ok(true)
}

// The member at a place is asked what it leads to, which is listed in `found` and then noted.
fn ask<G: Graph>(
    graph: &G,
    members: &mut IndexSet<G::Node>,
    asked: usize,
    found: &mut Vec<G::Node>,
) -> Result<(), AllocError>
    requires { asked < length members.old.keys }
    ensures { OnOk result (IsTurn G.Node.eq (G.leads graph.now) (G.nodes graph.now) members.old.keys asked
        members.new.keys) }
{
    let member = members.as_slice()[asked];
    found.clear();
    graph.append_next(member, found)?;
    note_all(members, found)
}

// A new member goes last.
fn note_all<N: Copy + Eq + Hash>(members: &mut IndexSet<N>, nodes: &[N]) -> Result<(), AllocError>
    ensures { OnOk result (members.new.keys ≡ insert_all N.eq members.old.keys nodes.now) }
{
    for node in nodes {
        members.insert(*node)?;
    }
    Ok(())
}
