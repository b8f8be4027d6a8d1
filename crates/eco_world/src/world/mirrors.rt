//! Mirrors: each pair of a symmetric relationship stands on both of its entities.
ghost use Rattle.std.specs.Prelude.{◌≡◌, ◌∷◌, ◌++◌, [], false, filter, IfOk, IsFalse, IsTrue, is_some, map};
ghost use Rattle.std.specs.Prelude.{MatchOption, not, OnErr, OnOk, Some, true, unwrap_or};
ghost use Rattle.std.specs.List.{list_any};
ghost use Rattle.std.specs.Option.{option_copied};
ghost use Rattle.eco_ids.specs.Lawful.{IsLawful};
ghost use Rattle.eco_ids.specs.Losses.{nobody, without};
ghost use Rattle.eco_ids.specs.Mirrors.{goes_too, mirror_of};
ghost use Rattle.eco_ids.specs.Order.{entity_eq};
ghost use Rattle.eco_ids.specs.Outcome.{Meets};
ghost use Rattle.eco_ids.specs.Step.{Adds, may_add, changed, has_ids, is_held, is_reserved, with_mirror};
ghost use Rattle.eco_ids.specs.World.{has, is_alive, is_symmetric, names_living};
ghost use Rattle.eco_archetypes.specs.Records.{with_toggled, with_type};
ghost use Rattle.eco_traits.specs.Target.{TakesOwn, type_meant};
ghost use Rattle.eco_world.specs.declared.loss.Loss.TheVariants.{All, Everywhere};
ghost use Rattle.eco_world.specs.Losses as losses;
ghost use Rattle.eco_world.specs.Losses.{IsAlone, mirror_holders, one_by_one, takes};
ghost use Rattle.eco_world.specs.Types.{type_of};

use crate::loss::Loss;
use crate::world::World;
use eco_ids::entity::SYMMETRIC;
use eco_ids::{Entity, Id, Refusal, TypeList};
use eco_query::exactly;
use eco_store::Move;
use eco_traits::{Target, open_target};
use std::alloc::AllocError;

impl World {
    // Whether each pair of the relationship stands on both of its entities (Flecs manual, Component Traits, "Symmetric").
    #[inline(always)]
    fn is_symmetric(&self, relationship: Entity) -> bool
        ensures { result ≡ is_symmetric self.now relationship }
    {
        self.edition().has_symmetric() && self.has(relationship, Id::One(SYMMETRIC))
    }

    // Who would have the mirror of an id of the entity, and what it is there.
    #[inline(always)]
    fn mirror_of(&self, entity: Entity, id: Id) -> Option<(Entity, Id)>
        ensures { result ≡ mirror_of self.now entity id }
    {
        match id {
            Id::Two(relationship, target) if self.is_symmetric(relationship) => {
                Some((target, Id::Two(relationship, entity)))
            }
            _ => None,
        }
    }

    // The same, where that is another entity: a pair with itself is its own mirror.
    #[inline(always)]
    pub(crate) fn other_mirror(&self, entity: Entity, id: Id) -> Option<(Entity, Id)>
        ensures { MatchOption result (IsAlone self.now entity id)
            (λ m. (mirror_of self.now entity id ≡ Some m) × (entity_eq m.0 entity ≡ false)) }
    {
        match self.mirror_of(entity, id) {
            Some(mirror) if !mirror.0.is(entity) => Some(mirror),
            _ => None,
        }
    }

    // Whether a built-in would be changed if the id came to the entity.
    #[inline(always)]
    pub(crate) fn is_reserved(&self, entity: Entity, id: Id) -> bool
        ensures { result ≡ is_reserved self.now entity id }
    {
        match self.mirror_of(entity, id) {
            Some(mirror) => self.is_builtin(mirror.0) || self.is_builtin(entity),
            None => self.is_builtin(entity),
        }
    }

    // The type that an add leads to, where the id comes to the entity.
    fn meant(&self, entity: Entity, id: Id, target: Target) -> Result<TypeList, AllocError>
        requires { is_alive self.now entity ≡ true }
        ensures { IfOk result (λ ids. ids ≡ type_meant (type_of self.now entity) id target) }
    {
        let own = self.own_type(entity).unwrap();
        match target {
            Target::Own => own.try_copy(),
            Target::With => own.with(id),
            Target::Instead(old) => own.without(old)?.with(id),
            Target::Other(ids) => Ok(ids),
        }
    }

    // The entity gets an id that it lacks, or loses one that it has, and so does another entity with its mirror. An `Err` leaves
    // everything.
    pub(crate) fn step_both(
        &mut self,
        entity: Entity,
        id: Id,
        mirror: (Entity, Id),
    ) -> Result<(), AllocError>
        requires alive { is_alive self.old entity ≡ true }
        requires other { entity_eq mirror.0 entity ≡ false }
        requires holder { is_alive self.old mirror.0 ≡ true }
        requires lawful { IsLawful
            (changed (changed self.old entity (with_toggled id)) mirror.0 (with_toggled mirror.1)) }
        ensures ok { OnOk result (self.new
            ≡ changed (changed self.old entity (with_toggled id)) mirror.0 (with_toggled mirror.1)) }
        ensures err { OnErr result (self.new ≡ self.old) }
    {
        self.store.step_both((entity, id), mirror)
    }

    // The entity gets an id that it lacks, with its closure, and another entity gets the mirror, unless something stands against
    // that. An `Err` leaves everything.
    #[inline(never)]
    pub(crate) fn extend_both(
        &mut self,
        entity: Entity,
        id: Id,
        mirror: (Entity, Id),
    ) -> Result<(), Refusal>
        requires alive { is_alive self.old entity ≡ true }
        requires free { is_reserved self.old entity id ≡ false }
        requires living { names_living self.old id ≡ true }
        requires absent { has self.old entity id ≡ false }
        requires mirror { mirror_of self.old entity id ≡ Some mirror }
        requires other { entity_eq mirror.0 entity ≡ false }
        ensures { Meets (Adds self.old entity id) (may_add self.old entity id) self.old result self.new }
    {
        eco_ids::laws::steps_keep_lawful();
        eco_ids::laws::add_leaves_exactly();
        self.is_lawful();
        let target = open_target(self.alloc, self, entity, id)?;
        Ok(self.gain_both(entity, id, target, mirror)?)
    }

    // The entity gets what an add leads to, and another entity the mirror. An `Err` leaves everything.
    fn gain_both(
        &mut self,
        entity: Entity,
        id: Id,
        target: Target,
        mirror: (Entity, Id),
    ) -> Result<(), AllocError>
        requires alive { is_alive self.old entity ≡ true }
        requires absent { has self.old entity id ≡ false }
        requires mirror { mirror_of self.old entity id ≡ Some mirror }
        requires other { entity_eq mirror.0 entity ≡ false }
        requires holder { is_alive self.old mirror.0 ≡ true }
        requires lawful { IsLawful (with_mirror (changed self.old entity
            (with_type (type_meant (type_of self.old entity) id target))) (Some mirror)) }
        ensures ok { OnOk result (self.new ≡ with_mirror (changed self.old entity
            (with_type (type_meant (type_of self.old entity) id target))) (Some mirror)) }
        ensures err { OnErr result (self.new ≡ self.old) }
    {
        self.is_lawful();
        match target {
            Target::With => self.step_both(entity, id, mirror),
            _ => self.retype_both(entity, id, target, mirror),
        }
    }

    // What `gain_both` does where the entity gets more than the id, or loses another for it.
    fn retype_both(
        &mut self,
        entity: Entity,
        id: Id,
        target: Target,
        mirror: (Entity, Id),
    ) -> Result<(), AllocError>
        requires alive { is_alive self.old entity ≡ true }
        requires other { entity_eq mirror.0 entity ≡ false }
        requires holder { is_alive self.old mirror.0 ≡ true }
        requires lawful { IsLawful (with_mirror (changed self.old entity
            (with_type (type_meant (type_of self.old entity) id target))) (Some mirror)) }
        ensures ok { OnOk result (self.new ≡ with_mirror (changed self.old entity
            (with_type (type_meant (type_of self.old entity) id target))) (Some mirror)) }
        ensures err { OnErr result (self.new ≡ self.old) }
    {
        self.is_lawful();
        let ids = self.meant(entity, id, target)?;
        let theirs = self.meant(mirror.0, mirror.1, Target::With)?;
        let moves = [
            Move {
                entity,
                type_list: ids,
            },
            Move {
                entity: mirror.0,
                type_list: theirs,
            },
        ];
        self.store.retype_all(&moves)
    }

    // Whether the id of the entity goes, or its mirror does.
    fn goes_too(&self, loss: Loss, entity: Entity, id: Id) -> bool
        ensures { result ≡ goes_too self.now (takes loss) entity id }
    {
        match self.mirror_of(entity, id) {
            Some(mirror) => loss.takes(mirror.0, mirror.1) || loss.takes(entity, id),
            None => loss.takes(entity, id),
        }
    }

    // The ids that the entity keeps.
    fn kept_ids(&self, loss: Loss, entity: Entity) -> Result<TypeList, AllocError>
        ensures { IfOk result (λ ids. ids
            ≡ filter (λ j. not (goes_too self.now (takes loss) entity j)) (type_of self.now entity)) }
    {
        let ids = self.ids_of(entity);
        let mut kept = TypeList::empty(self.alloc);
        for id in ids {
            if !self.goes_too(loss, entity, *id) {
                kept.insert(*id)?;
            }
        }
        Ok(kept)
    }

    // The moves of some entities to the types that they keep.
    fn moves_to_kept(&self, loss: Loss, losers: &[Entity]) -> Result<Vec<Move>, AllocError>
        ensures { IfOk result (λ moves. moves.items ≡ map (λ e. record {
          entity = e;
          type_list = filter (λ j. not (goes_too self.now (takes loss) e j)) (type_of self.now e);
        }) losers.now) }
    {
        let mut moves = Vec::new(self.alloc);
        for loser in losers {
            let type_list = self.kept_ids(loss, *loser)?;
            moves.push(Move {
                entity: *loser,
                type_list,
            })?;
        }
        Ok(moves)
    }

    // These ids go, each with its mirror: some entities lose them, and nobody else has any. All or none: an `Err` leaves
    // everything.
    pub(crate) fn lose(&mut self, loss: Loss, losers: &[Entity]) -> Result<(), AllocError>
        requires lawful { IsLawful (without self.old nobody (goes_too self.old (takes loss))) }
        requires losers { without self.old nobody (goes_too self.old (takes loss))
            ≡ one_by_one (goes_too self.old (takes loss)) self.old losers.now }
        ensures ok { OnOk result (self.new ≡ without self.old nobody (goes_too self.old (takes loss))) }
        ensures err { OnErr result (self.new ≡ self.old) }
    {
        self.is_lawful();
        let moves = self.moves_to_kept(loss, losers)?;
        self.store.retype_all(&moves)
    }

    // Whether an id of the entity has a mirror.
    pub(crate) fn has_mirrors(&self, entity: Entity) -> bool
        ensures none { IsFalse result → mirror_holders self.now entity (type_of self.now entity) ≡ [] }
        ensures some { IsTrue result → has_ids self.now entity ≡ true }
    {
        self.edition().has_symmetric() && self.any_mirror(entity, self.ids_of(entity))
    }

    // Whether one of these ids of the entity would have a mirror.
    fn any_mirror(&self, entity: Entity, ids: &[Id]) -> bool
        ensures { result ≡ list_any (λ id. is_some (mirror_of self.now entity id)) ids.now }
    {
        ids.iter().any(|id| self.mirror_of(entity, *id).is_some())
    }

    // Puts whoever would have the mirror of an id of the entity behind others, if there is one.
    fn append_holder(
        &self,
        entity: Entity,
        id: Id,
        losers: &mut Vec<Entity>,
    ) -> Result<(), AllocError>
        ensures { OnOk result (losers.new.items
            ≡ losers.old.items ++ losses.with_holder (mirror_of self.now entity id) []) }
    {
        if let Some(mirror) = self.mirror_of(entity, id) {
            losers.push(mirror.0)?;
        }
        Ok(())
    }

    // The entity, and who holds the mirrors of its ids.
    fn with_mirror_holders(&self, entity: Entity) -> Result<Vec<Entity>, AllocError>
        ensures { IfOk result (λ losers.
            losers.items ≡ entity ∷ mirror_holders self.now entity (type_of self.now entity)) }
    {
        let ids = self.ids_of(entity);
        let mut losers = Vec::new(self.alloc);
        losers.push(entity)?;
        for id in ids {
            self.append_holder(entity, *id, &mut losers)?;
        }
        Ok(losers)
    }

    // What `clear` does where an id has a mirror. An `Err` leaves everything.
    pub(crate) fn clear_mirrored(&mut self, entity: Entity) -> Result<(), AllocError>
        requires alive { is_alive self.old entity ≡ true }
        requires lawful { IsLawful (without self.old nobody (goes_too self.old (takes (All entity)))) }
        ensures ok { OnOk result (self.new
            ≡ without self.old nobody (goes_too self.old (takes (All entity)))) }
        ensures err { OnErr result (self.new ≡ self.old) }
    {
        self.is_lawful();
        let losers = self.with_mirror_holders(entity)?;
        self.lose(Loss::All(entity), &losers)
    }

    // The target of a pair of a symmetric relationship.
    pub(crate) fn symmetric_target(&self, id: Id) -> Option<Entity>
        ensures { result ≡ losses.symmetric_target self.now id }
    {
        match id {
            Id::Two(relationship, target) if self.is_symmetric(relationship) => Some(target),
            _ => None,
        }
    }

    // What `remove_all` does with a pair of a symmetric relationship. An `Err` leaves everything.
    pub(crate) fn remove_all_mirrored(&mut self, id: Id, target: Entity) -> Result<(), AllocError>
        requires lawful { IsLawful (without self.old nobody (goes_too self.old (takes (Everywhere id)))) }
        requires target { losses.symmetric_target self.old id ≡ Some target }
        ensures ok { OnOk result (self.new
            ≡ without self.old nobody (goes_too self.old (takes (Everywhere id)))) }
        ensures err { OnErr result (self.new ≡ self.old) }
    {
        self.is_lawful();
        let holders = self.store.entities_with(exactly(id))?;
        let mut losers = Vec::new(self.alloc);
        losers.push(target)?;
        losers.extend_from_slice(&holders)?;
        self.lose(Loss::Everywhere(id), &losers)
    }
}
