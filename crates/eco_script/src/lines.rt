//! The lines that show entities, values and results.

ghost use Rattle.std.specs.Prelude.{◌≡◌, Some, option_map};
ghost use Rattle.eco_script.specs.Lines.{arity_text, entry_text, held_text, joined_by_commas, line_of, name_text};
ghost use Rattle.eco_script.specs.Lines.{row_line};
ghost use Rattle.eco_script.specs.Values.{shown_value};

use crate::shown_value::ShownValue;
use eco_ids::{Entity, Id};
use eco_world::World;
use std::fmt;

/// An id of an entity, with its value where it is data, as in `#9.0=3 -4`.
#[derive(Clone, Copy)]
struct Held {
    id: Id,
    value: Option<ShownValue>,
}

impl fmt::Display for Held {
    ghost use Rattle.eco_script.specs.ShownViews.{shown_view};

    ghost output = { λ held. Some (held_text held.id (option_map shown_view held.value)) };

    fn fmt<W: fmt::Write>(&self, f: &mut fmt::Formatter<W>) -> fmt::Result {
        let id = self.id;
        match self.value {
            Some(value) => write!(f, "{id}={value}"),
            None => write!(f, "{id}"),
        }
    }
}

/// Ids of an entity as a line shows them, joined by a comma and a space.
#[derive(Clone, Copy)]
struct Ids<'a> {
    world: &'a World,
    entity: Entity,
    ids: &'a [Id],
}

impl Ids<'_> {
    ghost use Rattle.eco_script.specs.ShownViews.{shown_view};

    // One of the ids.
    fn held(&self, id: Id) -> Held
        ensures id { result.id ≡ id }
        ensures value { option_map shown_view result.value
            ≡ shown_value self.now.world.now self.now.entity id }
    {
        let value = ShownValue::of(self.world, self.entity, id);
        Held { id, value }
    }
}

impl fmt::Display for Ids<'_> {
    ghost output = { λ ids. Some (joined_by_commas
        (λ i. held_text i (shown_value ids.world.now ids.entity i)) ids.ids.now) };

    fn fmt<W: fmt::Write>(&self, f: &mut fmt::Formatter<W>) -> fmt::Result {
        let mut separator = "";
        for id in self.ids {
            let held = self.held(*id);
            write!(f, "{separator}{held}")?;
            separator = ", ";
        }
        Ok(())
    }
}

/// An entry of a result: an id, or `-` for none.
#[derive(Clone, Copy)]
struct Entry(Option<Id>);

impl fmt::Display for Entry {
    ghost output = { λ entry. Some (entry_text entry.0) };

    fn fmt<W: fmt::Write>(&self, f: &mut fmt::Formatter<W>) -> fmt::Result {
        match self.0 {
            Some(id) => write!(f, "{id}"),
            None => write!(f, "-"),
        }
    }
}

/// The entries of a result, joined by a comma and a space.
#[derive(Clone, Copy)]
struct Entries<'a>(&'a [Option<Id>]);

impl fmt::Display for Entries<'_> {
    ghost output = { λ entries. Some (joined_by_commas entry_text entries.0.now) };

    fn fmt<W: fmt::Write>(&self, f: &mut fmt::Formatter<W>) -> fmt::Result {
        let mut separator = "";
        for entry in self.0 {
            let entry = Entry(*entry);
            write!(f, "{separator}{entry}")?;
            separator = ", ";
        }
        Ok(())
    }
}

/// The arity of a component, or `-`.
#[derive(Clone, Copy)]
struct ArityOrDash(Option<u8>);

impl fmt::Display for ArityOrDash {
    ghost output = { λ arity. Some (arity_text arity.0) };

    fn fmt<W: fmt::Write>(&self, f: &mut fmt::Formatter<W>) -> fmt::Result {
        match self.0 {
            Some(fields) => write!(f, "{fields}"),
            None => write!(f, "-"),
        }
    }
}

// The name, or `-`.
fn name_or_dash<'a>(name: Option<&'a str>) -> &'a str
    ensures { result.now ≡ name_text (option_map (λ s. s.now) name.entry) }
{
    match name {
        Some(name) => name,
        None => "-",
    }
}

/// The line of an entity, as `#9.0 a - [#10.0, #11.0=3 -4]`: its handle, its name, its arity, and its ids with their values.
#[derive(Clone, Copy)]
pub struct EntityLine<'a> {
    /// The world that has them.
    pub world: &'a World,
    /// Whose line it is.
    pub entity: Entity,
}

impl fmt::Display for EntityLine<'_> {
    ghost output = { λ line. Some (line_of line.world.now line.entity) };

    fn fmt<W: fmt::Write>(&self, f: &mut fmt::Formatter<W>) -> fmt::Result {
        let EntityLine { world, entity } = *self;
        let name = name_or_dash(world.name_of(entity));
        let arity = ArityOrDash(world.arity_of(entity));
        let ids = Ids {
            world,
            entity,
            ids: world.ids_of(entity),
        };
        write!(f, "{entity} {name} {arity} [{ids}]\n")
    }
}

/// The line of a result, as `row #9.0 [#10.0, -]`: its entity, and an entry for each slot of the query.
#[derive(Clone, Copy)]
pub struct RowLine<'a> {
    /// Who answers the query.
    pub entity: Entity,
    /// What each slot has found, or none.
    pub entries: &'a [Option<Id>],
}

impl fmt::Display for RowLine<'_> {
    ghost output = { λ line. Some (row_line line.entity line.entries.now) };

    fn fmt<W: fmt::Write>(&self, f: &mut fmt::Formatter<W>) -> fmt::Result {
        let entity = self.entity;
        let entries = Entries(self.entries);
        write!(f, "row {entity} [{entries}]\n")
    }
}
