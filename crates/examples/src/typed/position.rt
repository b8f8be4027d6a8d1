//! Where a ship is.
ghost use Rattle.std.specs.Prelude.{◌≡◌, refl};
ghost use Rattle.eco_frame.specs.Fields.{two, two_is};
ghost use Rattle.examples.specs.Ships.{position_of, sailed};

use super::velocity::Velocity;
use eco_frame::Component;
use eco_ids::Value;

/// Where a ship is, in miles.
#[derive(Clone, Copy)]
pub struct Position {
    pub east: i64,
    pub north: i64,
}

impl Position {
    /// Where the ship is an hour later. It sails no farther than the range of a field.
    pub fn sailed(self, by: Velocity) -> Position
        ensures { result ≡ sailed self by }
    {
        Position {
            east: self.east.saturating_add(by.east),
            north: self.north.saturating_add(by.north),
        }
    }
}

impl Component for Position {
    const ARITY: u8 = 2;

    ghost ARITY = { 2 };

    ghost value_of = { λ p. two p.east p.north };

    ghost from = { position_of };

    fn to_value(&self) -> Value {
        Value::of([self.east, self.north])
    }

    fn from_value(value: Value) -> Position {
        let fields = value.0;
        Position {
            east: fields[0],
            north: fields[1],
        }
    }

    ghost sized = { refl };

    ghost narrow = { λ p. refl };

    ghost back = { λ p. refl };

    ghost forth = { two_is };
}
