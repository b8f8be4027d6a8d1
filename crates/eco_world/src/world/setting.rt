//! Sets of values, also of many at one id.
ghost use Rattle.std.specs.Prelude.{◌≡◌, ◌≤◌, IfErr, IfOk, IfSome, IsFalse, IsTrue, None, Ok, OnOk};
ghost use Rattle.eco_ids.specs.Outcome.{Meets};
ghost use Rattle.eco_ids.specs.Step.{Sets, may_set};
ghost use Rattle.eco_ids.specs.World.{padded};
ghost use Rattle.eco_ids.specs.declared.id.Id.{Id as Ids};
ghost use Rattle.eco_ids.specs.declared.value.TheConstants.{FIELD_COUNT};
ghost use Rattle.eco_world.specs.Actor.{MaySet, MayNotSet};
ghost use Rattle.eco_world.specs.Setting.{IsSettable, IsThere, IsUnsettable, fields_at};

use crate::world::World;
use crate::world::changes::is_zero_past;
use eco_ids::{Entity, Id, Refusal, Value};
use eco_stages::RunSet;

impl World {
    // What `set` does. Nothing is asked of an id whose number of fields is known. It is known where a value was written.
    #[inline(always)]
    pub(crate) fn set_after(
        &mut self,
        known: &mut Option<u8>,
        entity: Entity,
        id: Id,
        value: Value,
    ) -> Result<(), Refusal>
        requires { IfSome known.old (IsSettable self.old id) }
        ensures met { Meets (Sets self.old entity id value) (may_set self.old entity id value)
            self.old result self.new }
        ensures known { IfSome known.new (IsSettable self.new id) }
    {
        eco_ids::laws::steps_keep_lawful();
        self.is_lawful();
        self.check_set(known, entity, id, value)?;
        if self.write(entity, id, value, &mut 0) {
            return Ok(());
        }
        *known = None;
        // Copies, since what is handed over stands in memory: so what is written where the id is there need not.
        let (absent, first) = (id, value);
        self.set_absent(entity, absent, &first)
    }

    // What `set` does where the number of fields is known and the entity has the id. The answer is whether it is done; else nothing
    // changes. It makes no refusal, so that most sets of a run keep no room for one.
    #[inline(always)]
    pub(crate) fn rewrite(
        &mut self,
        known: Option<u8>,
        entity: Entity,
        id: Id,
        value: Value,
        near: &mut usize,
    ) -> bool
        requires { IfSome known (IsSettable self.old id) }
        ensures met { IsTrue result → Meets (Sets self.old entity id value) (may_set self.old entity id value)
            self.old (Ok tt) self.new }
        ensures known { IfSome known (IsSettable self.new id) }
        ensures others { (other : Ids) → fields_at self.new other ≡ fields_at self.old other }
        ensures same { IsFalse result → self.new ≡ self.old }
        ensures no { IsFalse result → IsThere self.old entity id value → known ≡ None }
    {
        eco_ids::laws::steps_keep_lawful();
        self.is_lawful();
        if !self.may_rewrite(known, entity, id, value) {
            return false;
        }
        self.write(entity, id, value, near)
    }

    // Whether the number of fields is known, and nothing stands against the value.
    #[inline(always)]
    fn may_rewrite(&self, known: Option<u8>, entity: Entity, id: Id, value: Value) -> bool
        requires { IfSome known (IsSettable self.now id) }
        ensures yes { IsTrue result → MaySet self.now entity id value }
        ensures no { IsFalse result → MaySet self.now entity id value → known ≡ None }
    {
        let Some(arity) = known else {
            return false;
        };
        if !self.is_alive(entity) || self.is_reserved(entity, id) {
            return false;
        }
        is_zero_past(value, arity)
    }

    // What `set_after` does with a set of a run, apart.
    #[inline(never)]
    pub(crate) fn set_apart<const N: usize>(
        &mut self,
        known: &mut Option<u8>,
        id: Id,
        set: &RunSet<N>,
    ) -> Result<(), Refusal>
        requires few { N ≤ FIELD_COUNT }
        requires known { IfSome known.old (IsSettable self.old id) }
        ensures met { Meets (Sets self.old set.now.0 id (padded set.now.1))
            (may_set self.old set.now.0 id (padded set.now.1)) self.old result self.new }
        ensures known { IfSome known.new (IsSettable self.new id) }
    {
        self.set_after(known, set.0, id, Value::of(set.1))
    }

    // Whether the entity may have this value at the id.
    #[inline(always)]
    fn check_set(
        &self,
        known: &mut Option<u8>,
        entity: Entity,
        id: Id,
        value: Value,
    ) -> Result<(), Refusal>
        requires { IfSome known.old (IsSettable self.now id) }
        ensures ok { OnOk result (MaySet self.now entity id value) }
        ensures err { IfErr result (MayNotSet self.now entity id value) }
        ensures known { IfSome known.new (IsSettable self.now id) }
    {
        self.check_holder(entity, id)?;
        let arity = self.arity_after(known, id)?;
        if !is_zero_past(value, arity) {
            return Err(Refusal::TooWide);
        }
        Ok(())
    }

    // How many fields the values of the id have. It is asked for only where it is not known.
    #[inline(always)]
    fn arity_after(&self, known: &mut Option<u8>, id: Id) -> Result<u8, Refusal>
        requires { IfSome known.old (IsSettable self.now id) }
        ensures ok { IfOk result (IsSettable self.now id) }
        ensures err { IfErr result (IsUnsettable self.now id) }
        ensures known { IfSome known.new (IsSettable self.now id) }
    {
        match *known {
            Some(arity) => Ok(arity),
            None => {
                let arity = self.settable(id)?;
                *known = Some(arity);
                Ok(arity)
            }
        }
    }

    // How many fields the values of the id have, where values may stand at it.
    #[inline(always)]
    pub(crate) fn settable(&self, id: Id) -> Result<u8, Refusal>
        ensures ok { IfOk result (IsSettable self.now id) }
        ensures err { IfErr result (IsUnsettable self.now id) }
    {
        if !self.names_living(id) {
            return Err(Refusal::DeadId);
        }
        match self.arity(id) {
            Some(arity) => Ok(arity),
            None => Err(Refusal::NotData),
        }
    }
}
