//! How deaths lead to deaths.
ghost use Rattle.std.specs.Prelude.{◌≡◌, ◌++◌, IsTrue, IfOk, OnOk};
ghost use Rattle.std.specs.Option.{option_copied};
ghost use Rattle.eco_tables.specs.Table.{entities_of};
ghost use Rattle.eco_tables.specs.Tables.{slot_of, table_in};
ghost use Rattle.eco_ids.specs.Order.{entity_cmp, has_item};
ghost use Rattle.eco_ids.specs.declared.entity.TheConstants.{DELETE as DELETE_DATA};
ghost use Rattle.eco_traits.specs.Nodes.{all_nodes, falls, leads, named_node, node_same, nodes_at, taken_among, touches, touches_by, AddsNodes, IsSearch};
ghost use Rattle.eco_archetypes.specs.Worlds.{world_of};
ghost use Rattle.eco_traits.specs.declared.node.Node.TheVariants.{Falling};

use crate::doomed::Doomed;
use crate::node::Node;
use crate::role::any_deletes;
use eco_archetypes::Places;
use eco_ids::{Entity, Part, Pattern, TableSlot};
use eco_search::{Graph, least_set};
use eco_tables::Table;
use std::alloc::{AllocError, Global};

/// A root leads to the tables whose types name it, and a table that falls to the tables whose types name one who stands in it.
/// So who dies with a table is never noted.
#[derive(Drop)]
pub struct Ties<'a> {
    pub places: &'a Places<'a>,
}

impl Graph for Ties<'_> {
    type Node = Node;

    ghost nodes = { λ t. all_nodes t.places.now.slots };

    ghost leads = { λ t a b.
        IsTrue (leads (world_of t.places.now.entities) t.places.now.slots a b) };

    fn append_next(&self, node: Node, found: &mut Vec<Node>) -> Result<(), AllocError> {
        match node {
            Node::Root(entity) => self.append_named(entity, found),
            Node::Falling(slot) => self.append_standing(slot, found),
            Node::Named(_) => Ok(()),
        }
    }

    ghost same = { node_same };
}

impl Ties<'_> {
    /// All that deaths by these nodes lead to.
    pub fn search(&self, alloc: Global, starts: &[Node]) -> Result<Doomed, AllocError>
        ensures { IfOk result (λ d. IsSearch (world_of self.now.places.now.entities)
            self.now.places.now.slots starts.now d.nodes.keys) }
    {
        let nodes = least_set(alloc, self, starts)?;
        Ok(Doomed { nodes })
    }

    /// The tables that have rows and a type which names the entity.
    #[inline(always)]
    pub fn append_named(&self, entity: Entity, found: &mut Vec<Node>) -> Result<(), AllocError>
        ensures { OnOk result (AddsNodes
            (touches (world_of self.now.places.now.entities) self.now.places.now.slots entity)
            found.old.items found.new.items) }
    {
        if !self.places.archetypes().is_named(entity) {
            return Ok(());
        }
        self.append_listed(entity, Pattern::One(entity), found)?;
        self.append_listed(entity, Pattern::Two(Part::Is(entity), Part::Any), found)?;
        self.append_listed(entity, Pattern::Two(Part::Any, Part::Is(entity)), found)
    }

    // The tables that have rows and an id which the pattern matches, each as the death of the member is noted in it. Inlined, since
    // most who die are named nowhere: then looks at marks are all that is done.
    #[inline(always)]
    fn append_listed(
        &self,
        member: Entity,
        pattern: Pattern,
        found: &mut Vec<Node>,
    ) -> Result<(), AllocError>
        ensures { OnOk result (AddsNodes
            (touches_by (world_of self.now.places.now.entities) self.now.places.now.slots member pattern)
            found.old.items found.new.items) }
    {
        for slot in self.places.archetypes().listed(pattern) {
            self.append_table(member, *slot, found)?;
        }
        Ok(())
    }

    // The table in the slot, where it has rows. Apart, so that who is named nowhere costs no call.
    #[inline(never)]
    fn append_table(
        &self,
        member: Entity,
        slot: TableSlot,
        found: &mut Vec<Node>,
    ) -> Result<(), AllocError>
        ensures { OnOk result (found.new.items ≡ found.old.items
            ++ nodes_at (world_of self.now.places.now.entities) self.now.places.now.slots member slot) }
    {
        if self.places.archetypes().tables().row_count(slot) > 0 {
            found.push(self.named_node(member, slot))?;
        }
        Ok(())
    }

    // The table in a slot falls where an id of its type names the member under the policy `Delete`, else it is only named.
    fn named_node(&self, member: Entity, slot: TableSlot) -> Node
        ensures { result ≡ named_node (world_of self.now.places.now.entities)
            self.now.places.now.slots member slot }
    {
        if self.falls(member, slot) {
            Node::Falling(slot)
        } else {
            Node::Named(slot)
        }
    }

    fn falls(&self, member: Entity, slot: TableSlot) -> bool
        ensures { result ≡ falls (world_of self.now.places.now.entities)
            self.now.places.now.slots member slot }
    {
        match self.table(slot) {
            Some(table) => any_deletes(self.places, member, table.type_list()),
            None => false,
        }
    }

    // The tables whose types name one who stands in the table of a slot.
    fn append_standing(&self, slot: TableSlot, found: &mut Vec<Node>) -> Result<(), AllocError>
        ensures { OnOk result (AddsNodes
            (leads (world_of self.now.places.now.entities) self.now.places.now.slots (Falling slot))
            found.old.items found.new.items) }
    {
        for entity in self.standing(slot) {
            self.append_named(*entity, found)?;
        }
        Ok(())
    }

    /// All who stand in the table of a slot; nobody, where there is no table.
    pub fn standing(&self, slot: TableSlot) -> &[Entity]
        ensures { result.now ≡ entities_of (table_in self.now.places.now.slots slot).rows }
    {
        match self.table(slot) {
            Some(table) => table.rows(),
            None => &[],
        }
    }

    /// The table in a slot.
    pub fn table(&self, slot: TableSlot) -> Option<&Table>
        ensures { option_copied result ≡ slot_of self.now.places.now.slots slot }
    {
        self.places.archetypes().tables().get(slot)
    }

    /// Whether the entity is one of those who die: a root, or one who stands in a table that falls.
    pub fn dies(&self, doomed: &Doomed, entity: Entity) -> bool
        ensures { result ≡ has_item entity_cmp
            (taken_among self.now.places.now.slots doomed.now.nodes.keys) entity }
    {
        match self.places.slot_of(entity) {
            Some(slot) => doomed.takes(entity, slot),
            None => doomed.has_root(entity),
        }
    }
}
