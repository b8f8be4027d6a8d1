//! Whoever is named by one id of one other entity alone, and whose death takes no more than that id.
ghost use Rattle.std.specs.Prelude.{◌≡◌, ◌∷◌, [], false, filter, length, List, IsTrue, IfOk, IfSome};
ghost use Rattle.eco_ids.specs.Order.{names_entity};
ghost use Rattle.eco_archetypes.specs.Shown.{IsShown};
ghost use Rattle.eco_archetypes.specs.Worlds.{world_of};
ghost use Rattle.eco_traits.specs.Nodes.{touches};
ghost use Rattle.eco_traits.specs.OnlyHolders.{IsOnlyHolder};
ghost use Rattle.eco_traits.specs.declared.node.Node.{Node as NodeData};

use crate::node::Node;
use crate::role::names_on;
use crate::ties::Ties;
use eco_ids::entity::PANIC;
use eco_ids::{Entity, Id, Part, Pattern};
use eco_index::only_named;
use std::alloc::{AllocError, Global};

/// An entity, the only other one that has an id which names it, and that id, the only one.
#[derive(Clone, Copy, Debug)]
pub struct OnlyHolder {
    pub member: Entity,
    pub holder: Entity,
    pub id: Id,
}

impl Ties<'_> {
    /// Who alone has an id that names the member, where that is one id and no policy speaks of the member's death. An `Err` comes
    /// where memory is refused.
    pub fn only_holder(
        &self,
        alloc: Global,
        member: Entity,
    ) -> Result<Option<OnlyHolder>, AllocError>
        requires shown { IsShown self.now.places.now.entities self.now.places.now.slots }
        ensures only { IfOk result (λ o. IfSome o (λ h. IsOnlyHolder self.now.places.now.entities h)) }
        ensures member { IfOk result (λ o. IfSome o (λ h. h.member ≡ member)) }
    {
        if !self.is_named_once(member) {
            return Ok(None);
        }
        let mut found = Vec::new(alloc);
        self.append_named(member, &mut found)?;
        if found.len() != 1 {
            return Ok(None);
        }
        Ok(self.only_in(member, found[0]))
    }

    // Whether one table alone names the entity, by one of the three patterns. Most who die are named nowhere: then one look at marks
    // is all that is done.
    fn is_named_once(&self, entity: Entity) -> bool {
        let archetypes = self.places.archetypes();
        if !archetypes.is_named(entity) {
            return false;
        }
        let single = archetypes.listed(Pattern::One(entity));
        let heads = archetypes.listed(Pattern::Two(Part::Is(entity), Part::Any));
        let tails = archetypes.listed(Pattern::Two(Part::Any, Part::Is(entity)));
        let count = single.len().saturating_add(heads.len());
        count.saturating_add(tails.len()) == 1
    }

    // Who alone has an id that names the member, where no other node than this one is led to by the member's death.
    fn only_in(&self, member: Entity, node: Node) -> Option<OnlyHolder>
        requires shown { IsShown self.now.places.now.entities self.now.places.now.slots }
        requires alone { (b : NodeData) →
            IsTrue (touches (world_of self.now.places.now.entities)
            self.now.places.now.slots member b) → b ≡ node }
        ensures only { IfSome result (λ h. IsOnlyHolder self.now.places.now.entities h) }
        ensures member { IfSome result (λ h. h.member ≡ member) }
    {
        let Node::Named(slot) = node else {
            return None;
        };
        let table = self.table(slot)?;
        let id = only_named(table.type_list(), member)?;
        let rows = table.rows();
        if rows.len() != 1 || rows[0].is(member) || names_on(self.places, PANIC, member, id) {
            return None;
        }
        Some(OnlyHolder {
            member,
            holder: rows[0],
            id,
        })
    }
}
