//! Whether a policy forbids a delete.
ghost use Rattle.std.specs.Prelude.{◌≡◌, List, IsTrue, IfOk};
ghost use Rattle.eco_ids.specs.Cleanup.{IsDoomed as IsDoomedList};
ghost use Rattle.eco_ids.specs.Order.{entity_cmp, has_item};
ghost use Rattle.eco_ids.specs.declared.entity.Entity.{Entity as EntityData};
ghost use Rattle.eco_tables.specs.Tables.{table_in};
ghost use Rattle.eco_archetypes.specs.Shown.{IsShown};
ghost use Rattle.eco_traits.specs.Nodes.{taken_among, AreStarts, IsSearch};
ghost use Rattle.eco_traits.specs.Objections.{AnswersDelete, first_objection, first_outside, first_protected};
ghost use Rattle.eco_traits.specs.Objections.{named_first, objection_at, objection_of, protects};
ghost use Rattle.eco_archetypes.specs.Worlds.{world_of};

use crate::doomed::Doomed;
use crate::node::Node;
use crate::objection::{Objection, first_of, lesser};
use crate::policy::policy;
use crate::ties::Ties;
use eco_ids::entity::{ON_DELETE, ON_DELETE_TARGET, PANIC};
use eco_ids::{Entity, Id, Refusal};
use eco_tables::Table;
use std::alloc::Global;

impl Ties<'_> {
    /// All that deaths by these nodes lead to, unless a policy forbids one of them: refused with `Panic` then, and last with
    /// `OutOfMemory`.
    pub fn judge(&self, alloc: Global, starts: &[Node]) -> Result<Doomed, Refusal>
        requires shown { IsShown self.now.places.now.entities self.now.places.now.slots }
        requires starts { AreStarts starts.now }
        ensures searched { IfOk result (λ d. IsSearch (world_of self.now.places.now.entities)
            self.now.places.now.slots starts.now d.nodes.keys) }
        ensures judged { (members : List EntityData)
            → IsDoomedList (world_of self.now.places.now.entities)
            (λ x. IsTrue (has_item entity_cmp (taken_among self.now.places.now.slots starts.now) x)) members
            → AnswersDelete (world_of self.now.places.now.entities) members result }
    {
        let doomed = self.search(alloc, starts)?;
        match self.first_objection(&doomed) {
            Some(objection) => Err(Refusal::Panic {
                holder: objection.holder,
                member: objection.member,
            }),
            None => Ok(doomed),
        }
    }

    /// The least objection to the deaths that were found: of the least holder, and for it of the least member. Each table
    /// that names one who dies and does not fall is judged once. It takes no memory.
    pub fn first_objection(&self, doomed: &Doomed) -> Option<Objection>
        ensures { result ≡ first_objection (world_of self.now.places.now.entities)
            self.now.places.now.slots doomed.now.nodes.keys }
    {
        let mut first = None;
        for node in doomed.nodes.as_slice() {
            first = first_of(first, self.objection_of(doomed, *node));
        }
        first
    }

    fn objection_of(&self, doomed: &Doomed, node: Node) -> Option<Objection>
        ensures { result ≡ objection_of (world_of self.now.places.now.entities)
            self.now.places.now.slots doomed.now.nodes.keys node }
    {
        match node {
            Node::Named(slot) if !doomed.falls(slot) => {
                let table = self.table(slot)?;
                self.objection_at(doomed, table)
            }
            _ => None,
        }
    }

    fn objection_at(&self, doomed: &Doomed, table: &Table) -> Option<Objection>
        ensures { result ≡ objection_at (world_of self.now.places.now.entities)
            (taken_among self.now.places.now.slots doomed.now.nodes.keys) table.now }
    {
        let member = self.first_protected(doomed, table.type_list().as_slice())?;
        let holder = self.first_outside(doomed, table.rows())?;
        Some(Objection { holder, member })
    }

    // The least of those who die that one of the ids names under the policy `Panic`.
    fn first_protected(&self, doomed: &Doomed, ids: &[Id]) -> Option<Entity>
        ensures { result ≡ first_protected (world_of self.now.places.now.entities)
            (taken_among self.now.places.now.slots doomed.now.nodes.keys) ids.now }
    {
        let mut first = None;
        for id in ids {
            first = self.named_first(doomed, first, *id);
        }
        first
    }

    // The least of the first and of those who die that the id names so.
    fn named_first(&self, doomed: &Doomed, first: Option<Entity>, id: Id) -> Option<Entity>
        ensures { result ≡ named_first (world_of self.now.places.now.entities)
            (taken_among self.now.places.now.slots doomed.now.nodes.keys) first id }
    {
        match id {
            Id::One(own) => lesser(first, own, self.protects(doomed, own, own, ON_DELETE)),
            Id::Two(relationship, target) => {
                let head = self.protects(doomed, relationship, relationship, ON_DELETE);
                let tail = self.protects(doomed, target, relationship, ON_DELETE_TARGET);
                lesser(lesser(first, relationship, head), target, tail)
            }
        }
    }

    // Whether the entity dies, and the policy of the owner under the condition is `Panic`.
    fn protects(&self, doomed: &Doomed, entity: Entity, owner: Entity, condition: Entity) -> bool
        ensures { result ≡ protects (world_of self.now.places.now.entities)
            (taken_among self.now.places.now.slots doomed.now.nodes.keys) entity owner condition }
    {
        self.dies(doomed, entity) && policy(self.places, owner, condition).is(PANIC)
    }

    // The least of the entities that do not die.
    fn first_outside(&self, doomed: &Doomed, entities: &[Entity]) -> Option<Entity>
        ensures { result ≡ first_outside
            (taken_among self.now.places.now.slots doomed.now.nodes.keys) entities.now }
    {
        let mut first = None;
        for entity in entities {
            first = lesser(first, *entity, !self.dies(doomed, *entity));
        }
        first
    }
}
