//! The entities of a store, its tables, and who stands where in them.
ghost use Rattle.std.specs.Prelude.{◌≡◌, ◌≢◌, ℕ, Some, IfSome, IfNone, length};
ghost use Rattle.std.specs.Option.{option_copied};
ghost use Rattle.eco_ids.specs.Indices.{is_alive};
ghost use Rattle.eco_tables.specs.Table.{TableRow};
ghost use Rattle.eco_archetypes.specs.Archetypes.{row_at};
ghost use Rattle.eco_archetypes.specs.Records.{type_in_store};
ghost use Rattle.eco_archetypes.specs.Shown.{read, AreHoused, IsShown, IsStore};

use crate::Archetypes;
use eco_entities::EntityIndex;
use eco_ids::{Entity, TableSlot, TypeList};
use std::marker::Model;

/// The entities of a store and its tables, to read and to search, and the place of each living entity in them. A contract sees
/// a record of each living entity, and the tables in their slots.
#[derive(Drop)]
pub struct Places<'a> {
    entities: &'a EntityIndex,
    archetypes: &'a Archetypes,
}

impl<'a> Model for Places<'a> {
    ghost use Rattle.eco_archetypes.specs.Shown.{read, IsStore, PlacesState};

    ghost Value = { PlacesState };

    ghost view = { λ p. record {
      entities = read p.entities.now p.archetypes.now;
      slots = p.archetypes.now;
    } };

    ghost invariant = { λ p. IsStore p.entities.now p.archetypes.now };
}

impl<'a> Places<'a> {
    /// The places of these entities in these tables.
    #[inline]
    pub fn new(entities: &'a EntityIndex, archetypes: &'a Archetypes) -> Places<'a>
        requires { IsStore entities.now archetypes.now }
        ensures entities { result.entities ≡ read entities.now archetypes.now }
        ensures slots { result.slots ≡ archetypes.now }
    {
        Places {
            entities,
            archetypes,
        }
    }

    /// The tables, to read and to search.
    #[inline]
    pub fn archetypes(&self) -> &'a Archetypes
        ensures { result.now ≡ self.now.slots }
    {
        self.archetypes
    }

    /// The entities, each with its place in one of the tables.
    #[inline]
    pub fn entities(&self) -> &'a EntityIndex
        ensures store { IsStore result.now self.now.slots }
        ensures housed { AreHoused (length self.now.slots) result.now }
        ensures seen { read result.now self.now.slots ≡ self.now.entities }
    {
        self.entities
    }

    /// The tables show the entities.
    #[inline]
    pub fn are_shown(&self)
        ensures { IsShown self.now.entities self.now.slots }
    {
        self.archetypes.tables().rows_have_ids();
    }

    /// Whether the entity lives.
    #[inline]
    pub fn is_alive(&self, entity: Entity) -> bool
        ensures { result ≡ is_alive self.now.entities entity }
    {
        self.entities.is_alive(entity)
    }

    /// The slot of the table in which the entity stands; none, where it doesn't live. It takes no memory.
    #[inline]
    pub fn slot_of(&self, entity: Entity) -> Option<TableSlot>
        ensures some { IfSome result (λ n.
            (row : ℕ) × (r : TableRow) × (row_at self.now.slots n row ≡ Some r) × (r.entity ≡ entity)) }
        ensures only { IfSome result (λ n.
            (m row : ℕ) (r : TableRow) → row_at self.now.slots m row ≡ Some r → r.entity ≡ entity → m ≡ n) }
        ensures none { IfNone result
            ((n row : ℕ) (r : TableRow) → row_at self.now.slots n row ≡ Some r → r.entity ≢ entity) }
    {
        let place = self.entities.place_of(entity)?;
        Some(place.table)
    }

    /// The ids of a living entity; none, where it doesn't live.
    #[inline]
    pub fn type_of(&self, entity: Entity) -> Option<&'a TypeList>
        ensures { option_copied result ≡ type_in_store self.now.entities entity }
    {
        if !self.entities.is_alive(entity) {
            return None;
        }
        let place = self.entities.seat_of(entity);
        let tables = self.archetypes.tables();
        tables.rows_have_ids();
        Some(tables.table(place.table).type_list())
    }
}
