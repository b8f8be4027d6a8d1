//! Ids whose values are those of a Rust type.
ghost use Rattle.std.specs.Prelude.{◌≡◌, ◌≢◌, ◌||◌, IfSome, IsTrue, is_some, MatchOption, nat_le, option_map, Result, Some};
ghost use Rattle.std.specs.Option.{option_copied};
ghost use Rattle.eco_ids.specs.declared.edition.Edition.TheVariants.{First};
ghost use Rattle.eco_ids.specs.declared.entity.Entity.{Entity as EntityData};
ghost use Rattle.eco_ids.specs.declared.id.Id.TheVariants.{One};
ghost use Rattle.eco_ids.specs.declared.refusal.Refusal.{Refusal as Refusals};
ghost use Rattle.eco_ids.specs.Births.{MakesComponent, may_make_component};
ghost use Rattle.eco_ids.specs.Data.{arity, value_of};
ghost use Rattle.eco_ids.specs.Edition.{largest_arity};
ghost use Rattle.eco_ids.specs.Outcome.{Meets};
ghost use Rattle.eco_ids.specs.Run.{Set};
ghost use Rattle.eco_ids.specs.Step.{Sets, may_set, unfit, unfit_set};
ghost use Rattle.eco_grammar.specs.Readings.{ok_map};
ghost use Rattle.eco_stages.specs.Commands.{command_of};
ghost use Rattle.eco_tables.specs.Values.{whole_values};
ghost use Rattle.eco_frame.specs.Typing.{value_found_at};
ghost use Rattle.eco_world.specs.Layouts.{is_lent, lent_by};

use crate::component::Component;
use crate::typed_column::TypedColumn;
use eco_bodies::BodyRow;
use eco_ids::{Entity, Id, Refusal};
use eco_world::{Command, TableRows, World};
use std::marker::PhantomData;

/// An id whose values are those of a Rust type, with as many fields: a component, or a pair that is data (Flecs manual,
/// Entities and Components; Relationships). It is made for one world, by [`create`](TypedId::create) or
/// [`of`](TypedId::of), and says there which type is meant, so that no call has to.
#[derive_where(Clone, Copy)]
pub struct TypedId<C> {
    id: Id,
    of: PhantomData<C>,
}

impl<C: Component> TypedId<C> {
    /// Makes a component whose values are those of the type, with this name or none. A type of more than four fields is a
    /// component in worlds of the second edition alone.
    ///
    /// Refused as [`World::component`] is.
    pub fn create(world: &mut World, name: Option<&str>) -> Result<TypedId<C>, Refusal>
        requires { IsTrue (nat_le C.ARITY (largest_arity First)
            || nat_le C.ARITY (largest_arity world.old.edition)) }
        ensures { (made : Result EntityData Refusals)
            × Meets (MakesComponent world.old (option_copied name.entry) C.ARITY)
            (may_make_component world.old (option_copied name.entry)) world.old made world.new
            × (ok_map (λ t. t.id) result ≡ ok_map (λ e. One e) made) }
    {
        let entity = world.component(name, C::ARITY)?;
        Ok(TypedId {
            id: Id::One(entity),
            of: PhantomData,
        })
    }

    /// The id, where its values have in this world just as many fields as the type's.
    pub fn of(world: &World, id: Id) -> Option<TypedId<C>>
        ensures { MatchOption result (arity world.now id ≢ Some C.ARITY)
            (λ t. (t.id ≡ id) × (arity world.now id ≡ Some C.ARITY)) }
    {
        match world.arity(id) {
            Some(arity) if arity == C::ARITY => Some(TypedId {
                id,
                of: PhantomData,
            }),
            _ => None,
        }
    }

    /// The id itself, for whatever asks for one.
    pub fn id(self) -> Id
        ensures { result ≡ self.id }
    {
        self.id
    }

    /// The entity's value of the id, as [`World::get`] has it. Where the id has as many fields as the type, nothing of it is
    /// lost.
    #[inline(always)]
    pub fn get(self, world: &World, entity: Entity) -> Option<C>
        ensures read { result ≡ option_map C.from (value_of world.now entity self.id) }
        ensures whole { arity world.now self.id ≡ Some C.ARITY
            → option_map C.value_of result ≡ value_of world.now entity self.id }
    {
        world.is_lawful();
        let value = world.get(entity, self.id)?;
        Some(C::from_value(value))
    }

    /// The entity has this value at the id from now on, as by [`World::set`].
    ///
    /// Refused as that is; and where the id has as many fields as the type, neither with `NotData` nor with `TooWide`.
    #[inline(always)]
    pub fn set(self, world: &mut World, entity: Entity, value: &C) -> Result<(), Refusal>
        ensures set { Meets (Sets world.old entity self.id (C.value_of value.now))
            (may_set world.old entity self.id (C.value_of value.now)) world.old result world.new }
        ensures fits { arity world.old self.id ≡ Some C.ARITY
            → unfit_set world.old entity self.id (C.value_of value.now) ≡ unfit world.old entity self.id }
    {
        world.set(entity, self.id, value.to_value())
    }

    /// The command that sets the entity's value, to be recorded.
    #[inline(always)]
    pub fn command(self, entity: Entity, value: &C) -> Command
        ensures { command_of result ≡ Set entity self.id (C.value_of value.now) }
    {
        Command::Set(entity, self.id, value.to_value())
    }

    /// The value in a slot of a system's row, where the slot has found this very id and shows its values.
    #[inline(always)]
    pub fn at<R: BodyRow>(self, row: &R, slot: usize) -> Option<C>
        ensures { result ≡ option_map C.from (value_found_at (R.row_of row.now) slot self.id) }
    {
        match row.entries().get(slot) {
            Some(Some(found)) if found.is(self.id) => Some(C::from_value(row.value(slot)?)),
            _ => None,
        }
    }

    /// The table's values of the id, one for each of its entities and in their order, as [`TableRows::values`] lends them:
    /// exactly where the id is one of the table's and is data.
    pub fn column<'a>(self, table: &TableRows<'a>) -> Option<TypedColumn<'a, C>>
        ensures shown { IfSome result (λ column. whole_values column.values ≡ lent_by table.now self.id) }
        ensures lent { is_some result ≡ is_lent table.now self.id }
    {
        let values = table.values(self.id)?;
        Some(TypedColumn::of(values))
    }
}
