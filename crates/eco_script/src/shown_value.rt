//! Values as the lines show them.

ghost use Rattle.std.specs.Prelude.{◌≡◌, Some, option_map};
ghost use Rattle.eco_ids.specs.Text.{value_text};
ghost use Rattle.eco_script.specs.Values.{shown_value};

use eco_ids::{Entity, Id, Value};
use eco_world::World;
use std::fmt;

/// A value, with how many of its fields are shown: as many as its id has.
#[derive(Clone, Copy)]
pub struct ShownValue {
    /// How many fields are shown, 1 to 8.
    pub arity: u8,
    /// The value, with zeros in the fields past them.
    pub value: Value,
}

impl ShownValue {
    ghost use Rattle.eco_script.specs.ShownViews.{shown_view};

    /// The value that the entity has for the id, where it has the id and the id is data.
    pub fn of(world: &World, entity: Entity, id: Id) -> Option<ShownValue>
        ensures { option_map shown_view result ≡ shown_value world.now entity id }
    {
        let arity = world.arity(id)?;
        let value = world.get(entity, id)?;
        Some(ShownValue { arity, value })
    }
}

impl fmt::Display for ShownValue {
    ghost output = { λ shown. Some (value_text shown.arity shown.value) };

    fn fmt<W: fmt::Write>(&self, f: &mut fmt::Formatter<W>) -> fmt::Result {
        let fields = self.value.fields(self.arity as usize);
        write!(f, "{fields}")
    }
}
