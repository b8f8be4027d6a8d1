//! How a ship sails.
ghost use Rattle.std.specs.Prelude.{refl};
ghost use Rattle.eco_frame.specs.Fields.{two, two_is};
ghost use Rattle.examples.specs.Ships.{velocity_of};

use eco_frame::Component;
use eco_ids::Value;

/// How far a ship sails, in miles an hour.
#[derive(Clone, Copy)]
pub struct Velocity {
    pub east: i64,
    pub north: i64,
}

impl Component for Velocity {
    const ARITY: u8 = 2;

    ghost ARITY = { 2 };

    ghost value_of = { λ v. two v.east v.north };

    ghost from = { velocity_of };

    fn to_value(&self) -> Value {
        Value::of([self.east, self.north])
    }

    fn from_value(value: Value) -> Velocity {
        let fields = value.0;
        Velocity {
            east: fields[0],
            north: fields[1],
        }
    }

    ghost sized = { refl };

    ghost narrow = { λ v. refl };

    ghost back = { λ v. refl };

    ghost forth = { two_is };
}
