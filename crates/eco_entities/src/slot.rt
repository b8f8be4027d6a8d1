//! What the index keeps of one index, in 16 bytes.
ghost use Rattle.std.specs.Prelude.{◌≡◌, ◌<◌, nat_lt, ℕ, true, List, Option, None, Some, IsSome, if◌then◌else◌};
ghost use Rattle.eco_entities.specs.Needs.{fields_for, need_in};
ghost use Rattle.eco_ids.specs.Indices.{Free, Living, map_state, raised};
ghost use Rattle.eco_entities.specs.Registration.{newcomer, placed, renamed};
ghost use Rattle.eco_entities.specs.Slots.{arity_in, has_arity, is_free, is_living, is_named, place_in, state_of};

use crate::place::Place;
use eco_ids::Entity;
use eco_ids::value::FIELD_COUNT;

/// Whether an index is in use, and what its entity has besides.
#[derive(Clone, Copy)]
pub(crate) enum State {
    /// It was used at every generation.
    Retired,
    Free,
    /// An entity without name and arity lives there.
    Plain,
    /// An entity with a name and no arity lives there.
    Named,
    /// An entity with an arity and no name lives there.
    Component,
    /// An entity with a name and an arity lives there.
    NamedComponent,
}

impl State {
    // An entity lives there.
    #[inline]
    fn is_living(self) -> bool
        ensures { result ≡ is_living self }
    {
        !matches!(self, State::Retired | State::Free)
    }

    // The entity there has an arity.
    #[inline]
    fn has_arity(self) -> bool
        ensures { result ≡ has_arity self }
    {
        matches!(self, State::Component | State::NamedComponent)
    }

    // The state of a living entity.
    #[inline]
    fn living(named: bool, component: bool) -> State
        ensures living { is_living result ≡ true }
        ensures named { is_named result ≡ named }
        ensures component { has_arity result ≡ component }
    {
        match (named, component) {
            (false, false) => State::Plain,
            (true, false) => State::Named,
            (false, true) => State::Component,
            (true, true) => State::NamedComponent,
        }
    }
}

// The most fields that a value has.
pub(crate) const ALL_FIELDS: u8 = FIELD_COUNT as u8;

// No row has this number: it stands in the slot of an entity that has no place.
const NO_ROW: u32 = u32::MAX;

// So many fields as the arity says, none where there is none.
fn fields_for(arity: Option<u8>) -> u8
    ensures { result ≡ fields_for arity }
{
    match arity {
        Some(fields) if fields < ALL_FIELDS => fields,
        Some(_) => ALL_FIELDS,
        None => 0,
    }
}

// The most fields of a generation that does not live, where its index has come to this one: none, if that is past.
fn need_beside(generation: u16, reached: u16) -> u8
    ensures { result ≡ (if nat_lt generation reached then 0 else FIELD_COUNT) }
{
    if generation < reached { 0 } else { ALL_FIELDS }
}

/// A known index. Where nobody lives, only the state counts, and the generation of a free one.
#[derive(Clone, Copy)]
pub(crate) struct Slot {
    table: usize,
    row: u32,
    generation: u16,
    arity: u8,
    state: State,
}

impl Slot {
    // A slot without place.
    #[inline]
    fn unplaced(generation: u16, arity: u8, state: State) -> Slot
        ensures { result ≡ record {
          table = 0;
          row = 4294967295;
          generation = generation;
          arity = arity;
          state = state;
        } }
    {
        Slot {
            table: 0,
            row: NO_ROW,
            generation,
            arity,
            state,
        }
    }

    /// Free at this generation.
    #[inline]
    pub(crate) fn free(generation: u16) -> Slot
        ensures { (label : Option (List ℕ)) → state_of label result ≡ Free generation }
    {
        Slot::unplaced(generation, 0, State::Free)
    }

    /// What is left of an index whose entity died at this generation: after the last one nobody lives there again.
    pub(crate) fn raised(generation: u16) -> Slot
        ensures { (label : Option (List ℕ)) → state_of label result ≡ raised generation }
    {
        match Entity::generation_after(generation) {
            Some(next) => Slot::free(next),
            None => Slot::unplaced(0, 0, State::Retired),
        }
    }

    /// A new entity, which has a name or none and an arity or none, and no place.
    #[inline]
    pub(crate) fn newcomer(generation: u16, named: bool, arity: Option<u8>) -> Slot
        ensures { (label : Option (List ℕ)) → state_of label result
            ≡ Living generation (newcomer (if named then label else None) arity) }
    {
        let state = State::living(named, arity.is_some());
        Slot::unplaced(generation, arity.unwrap_or(0), state)
    }

    /// A new entity without name, at a place, with an arity or none.
    #[inline]
    pub(crate) fn settled(generation: u16, arity: Option<u8>, place: Place) -> Slot
        requires { place.row < 4294967295 }
        ensures { (label : Option (List ℕ)) → state_of label result
            ≡ Living generation (placed place (newcomer None arity)) }
    {
        Slot {
            table: place.table,
            row: place.row as u32,
            generation,
            arity: arity.unwrap_or(0),
            state: State::living(false, arity.is_some()),
        }
    }

    /// An entity lives there.
    #[inline]
    pub(crate) fn is_living(&self) -> bool
        ensures { result ≡ is_living self.now.state }
    {
        self.state.is_living()
    }

    /// Nobody lives there, and somebody may.
    #[inline]
    pub(crate) fn is_free(&self) -> bool
        ensures { (label : Option (List ℕ)) → result ≡ is_free (state_of label self.now) }
    {
        matches!(self.state, State::Free)
    }

    /// The entity there has a name.
    #[inline]
    pub(crate) fn is_named(&self) -> bool
        ensures { result ≡ is_named self.now.state }
    {
        matches!(self.state, State::Named | State::NamedComponent)
    }

    /// The generation of the entity there, or of the next one.
    #[inline]
    pub(crate) fn generation(&self) -> u16
        ensures { result ≡ self.now.generation }
    {
        self.generation
    }

    /// The arity of who lives there, if it has one.
    #[inline]
    pub(crate) fn arity(&self) -> Option<u8>
        ensures { result ≡ arity_in self.now }
    {
        if self.state.has_arity() {
            Some(self.arity)
        } else {
            None
        }
    }

    /// The most fields that values of an entity of this generation may have, now or once it lives.
    pub(crate) fn need(&self, generation: u16) -> u8
        ensures { (label : Option (List ℕ)) → result ≡ need_in (Some (state_of label self.now)) generation }
    {
        match self.state {
            State::Retired => 0,
            State::Free => need_beside(generation, self.generation),
            _ if generation == self.generation => fields_for(self.arity()),
            _ => need_beside(generation, self.generation),
        }
    }

    /// The place of who lives there, if it has one.
    #[inline]
    pub(crate) fn place(&self) -> Option<Place>
        ensures { result ≡ place_in self.now }
    {
        if self.row == NO_ROW {
            return None;
        }
        Some(Place {
            table: self.table,
            row: self.row as usize,
        })
    }

    /// The place of who lives there and has one.
    #[inline]
    pub(crate) fn seat(&self) -> Place
        requires { IsSome (place_in self.now) }
        ensures { place_in self.now ≡ Some result }
    {
        Place {
            table: self.table,
            row: self.row as usize,
        }
    }

    /// Changes the place of who lives there.
    #[inline]
    pub(crate) fn set_place(&mut self, place: Place)
        requires { place.row < 4294967295 }
        ensures { (label : Option (List ℕ)) → state_of label self.new
            ≡ map_state (placed place) (state_of label self.old) }
    {
        self.table = place.table;
        self.row = place.row as u32;
    }

    /// Who lives there has a name from now on, or none.
    pub(crate) fn set_named(&mut self, named: bool)
        ensures { (old label : Option (List ℕ)) → state_of label self.new
            ≡ map_state (renamed (if named then label else None)) (state_of old self.old) }
    {
        if self.state.is_living() {
            self.state = State::living(named, self.state.has_arity());
        }
    }
}
