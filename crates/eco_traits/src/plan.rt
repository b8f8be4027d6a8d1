//! What a delete does, found before anything changes.
ghost use Rattle.std.specs.Prelude.{◌≡◌, ◌++◌, ◌∷◌, [], List, Some, IfOk, OnOk, IsTrue};
ghost use Rattle.eco_ids.specs.Cleanup.{names_any, IsDoomed as IsDoomedList};
ghost use Rattle.eco_ids.specs.Order.{entity_cmp, has_item, id_cmp, is_ascending};
ghost use Rattle.eco_ids.specs.declared.entity.Entity.{Entity as EntityData};
ghost use Rattle.eco_tables.specs.Tables.{slot_of};
ghost use Rattle.eco_archetypes.specs.Shown.{IsShown};
ghost use Rattle.eco_traits.specs.Nodes.{taken_among, taken_by, AreStarts};
ghost use Rattle.eco_traits.specs.Objections.{AnswersDelete};
ghost use Rattle.eco_traits.specs.Plans.{Ascend, change_in, changes_at, changes_of, spared, IsDeletePlan};
ghost use Rattle.eco_archetypes.specs.Worlds.{world_of};

use crate::doomed::Doomed;
use crate::node::Node;
use crate::ties::Ties;
use eco_archetypes::TypeChange;
use eco_ids::{Entity, Id, Refusal, TableSlot, TypeList};
use eco_tables::Table;
use std::alloc::{AllocError, Global};

/// Who dies, and the changes that take the ids which name the dead out of the types of the others.
pub struct DeletePlan {
    pub dead: Vec<Entity>,
    pub changes: Vec<TypeChange>,
}

// By hand, so that dropping it is one call: a derived drop is proved anew at each early return of whoever holds it.
impl Drop for DeletePlan {
    fn drop(self) {
        let DeletePlan {
            dead: _,
            changes: _,
        } = self;
    }
}

impl Ties<'_> {
    /// What deaths by these nodes do, unless a policy forbids it: refused with `Panic` then, and last with `OutOfMemory`.
    pub fn plan(&self, alloc: Global, starts: &[Node]) -> Result<DeletePlan, Refusal>
        requires shown { IsShown self.now.places.now.entities self.now.places.now.slots }
        requires starts { AreStarts starts.now }
        ensures planned { IfOk result (λ p. IsDeletePlan self.now.places.now.entities
            (λ x. IsTrue (has_item entity_cmp (taken_among self.now.places.now.slots starts.now) x))
            p.dead.items p.changes.items) }
        ensures judged { (members : List EntityData)
            → IsDoomedList (world_of self.now.places.now.entities)
            (λ x. IsTrue (has_item entity_cmp (taken_among self.now.places.now.slots starts.now) x)) members
            → AnswersDelete (world_of self.now.places.now.entities) members result }
    {
        let doomed = self.judge(alloc, starts)?;
        let plan = self.plan_of(alloc, &doomed)?;
        Ok(plan)
    }

    // What the deaths that were found mean. Each table that names one who dies and does not fall changes its type once, for
    // all its rows. An `Err` comes where memory is refused.
    fn plan_of(&self, alloc: Global, doomed: &Doomed) -> Result<DeletePlan, AllocError>
        ensures dead { IfOk result (λ p.
            p.dead.items ≡ taken_among self.now.places.now.slots doomed.now.nodes.keys) }
        ensures changes { IfOk result (λ p.
            p.changes.items ≡ changes_of self.now.places.now.slots doomed.now.nodes.keys) }
        ensures ascend { IfOk result (λ p. Ascend p.changes.items) }
    {
        let dead = self.dead(alloc, doomed)?;
        let changes = self.changes(alloc, doomed)?;
        Ok(DeletePlan { dead, changes })
    }

    // Who dies; a root may be listed twice. The rows of a table that falls come in their order.
    fn dead(&self, alloc: Global, doomed: &Doomed) -> Result<Vec<Entity>, AllocError>
        ensures { IfOk result (λ es.
            es.items ≡ taken_among self.now.places.now.slots doomed.now.nodes.keys) }
    {
        let mut dead = Vec::new(alloc);
        for node in doomed.nodes.as_slice() {
            self.append_taken(*node, &mut dead)?;
        }
        Ok(dead)
    }

    // Who dies by the node.
    fn append_taken(&self, node: Node, dead: &mut Vec<Entity>) -> Result<(), AllocError>
        ensures { OnOk result (dead.new.items ≡ dead.old.items ++ taken_by self.now.places.now.slots node) }
    {
        match node {
            Node::Root(entity) => dead.push(entity)?,
            Node::Falling(slot) => dead.extend_from_slice(self.standing(slot))?,
            Node::Named(_) => {}
        }
        Ok(())
    }

    fn changes(&self, alloc: Global, doomed: &Doomed) -> Result<Vec<TypeChange>, AllocError>
        ensures changes { IfOk result (λ cs.
            cs.items ≡ changes_of self.now.places.now.slots doomed.now.nodes.keys) }
        ensures ascend { IfOk result (λ cs. Ascend cs.items) }
    {
        let mut changes = Vec::new(alloc);
        for node in doomed.nodes.as_slice() {
            self.append_change(alloc, doomed, *node, &mut changes)?;
        }
        Ok(changes)
    }

    // The change of the table of a node, where that is named and does not fall.
    fn append_change(
        &self,
        alloc: Global,
        doomed: &Doomed,
        node: Node,
        changes: &mut Vec<TypeChange>,
    ) -> Result<(), AllocError>
        ensures change { OnOk result (changes.new.items
            ≡ changes.old.items ++ changes_at self.now.places.now.slots doomed.now.nodes.keys node) }
        ensures ascend { Ascend changes.old.items → OnOk result (Ascend changes.new.items) }
    {
        match node {
            Node::Named(slot) if !doomed.falls(slot) => {
                self.append_in(alloc, doomed, slot, changes)
            }
            _ => Ok(()),
        }
    }

    fn append_in(
        &self,
        alloc: Global,
        doomed: &Doomed,
        slot: TableSlot,
        changes: &mut Vec<TypeChange>,
    ) -> Result<(), AllocError>
        ensures change { OnOk result (changes.new.items
            ≡ changes.old.items ++ change_in (taken_among self.now.places.now.slots doomed.now.nodes.keys)
            (slot_of self.now.places.now.slots slot)) }
        ensures ascend { Ascend changes.old.items → OnOk result (Ascend changes.new.items) }
    {
        if let Some(table) = self.table(slot) {
            changes.push(self.change_of(alloc, doomed, table)?)?;
        }
        Ok(())
    }

    // The change of the type of a table.
    #[inline(always)]
    fn change_of(
        &self,
        alloc: Global,
        doomed: &Doomed,
        table: &Table,
    ) -> Result<TypeChange, AllocError>
        ensures change { IfOk result (λ c.
            c ∷ [] ≡ change_in (taken_among self.now.places.now.slots doomed.now.nodes.keys)
            (Some table.now)) }
        ensures ascend { IfOk result (λ c. IsTrue (is_ascending id_cmp c.from)) }
    {
        let from = table.type_list().try_copy()?;
        let to = self.spared(alloc, doomed, from.as_slice())?;
        Ok(TypeChange { from, to })
    }

    // The list without the ids that name one who dies: the others one after another, so that its time grows little faster than
    // the list, however many go.
    fn spared(&self, alloc: Global, doomed: &Doomed, ids: &[Id]) -> Result<TypeList, AllocError>
        requires { IsTrue (is_ascending id_cmp ids.now) }
        ensures { IfOk result (λ t.
            t ≡ spared (taken_among self.now.places.now.slots doomed.now.nodes.keys) ids.now) }
    {
        let mut kept = TypeList::empty(alloc);
        for id in ids {
            if !self.names_dead(doomed, *id) {
                kept.insert(*id)?;
            }
        }
        Ok(kept)
    }

    // Whether the id names one who dies.
    fn names_dead(&self, doomed: &Doomed, id: Id) -> bool
        ensures { result ≡ names_any (taken_among self.now.places.now.slots doomed.now.nodes.keys) id }
    {
        match id {
            Id::One(own) => self.dies(doomed, own),
            Id::Two(relationship, target) => {
                self.dies(doomed, relationship) || self.dies(doomed, target)
            }
        }
    }
}
