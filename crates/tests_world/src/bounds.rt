//! A type with more fields than components of the first edition have.
ghost use Rattle.std.specs.Prelude.{refl};
ghost use Rattle.eco_frame.specs.Fields.{six, six_is};
ghost use Rattle.tests_world.specs.Ships.{bounds_of};

use eco_frame::Component;
use eco_ids::Value;

/// How far a ship reaches on each side.
#[derive(Clone, Copy, PartialEq, Eq)]
pub struct Bounds {
    pub west: i64,
    pub east: i64,
    pub south: i64,
    pub north: i64,
    pub low: i64,
    pub high: i64,
}

impl Component for Bounds {
    const ARITY: u8 = 6;

    ghost ARITY = { 6 };

    ghost value_of = { λ b. six b.west b.east b.south b.north b.low b.high };

    ghost from = { bounds_of };

    fn to_value(&self) -> Value {
        Value::of([
            self.west, self.east, self.south, self.north, self.low, self.high,
        ])
    }

    fn from_value(value: Value) -> Bounds {
        let fields = value.0;
        Bounds {
            west: fields[0],
            east: fields[1],
            south: fields[2],
            north: fields[3],
            low: fields[4],
            high: fields[5],
        }
    }

    ghost sized = { refl };

    ghost narrow = { λ b. refl };

    ghost back = { λ b. refl };

    ghost forth = { six_is };
}
