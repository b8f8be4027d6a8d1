//! A column of a table as values of a Rust type.
ghost use Rattle.std.specs.Prelude.{◌≡◌, ◌∷◌, [], map, MatchOption};
ghost use Rattle.std.specs.Iterator.{YieldsFirst, item_count};
ghost use Rattle.eco_tables.specs.Values.{whole_values};

use crate::component::Component;
use eco_ids::Value;
use eco_world::Values;
use std::marker::PhantomData;

/// The values of one id in a table that are left, in the order of the table's entities, each as a value of the type.
#[derive_where(Clone, Copy)]
pub struct TypedColumn<'a, C> {
    values: Values<'a>,
    of: PhantomData<C>,
}

// The first of these rows, and those behind it as values of the same width.
macro_rules! first_and_rest {
    ($rows:expr, $width:ident) => {
        match $rows {
            [first, rest @ ..] => Some((Value::of(*first), Values::$width(rest))),
            [] => None,
        }
    };
}

// The first of them, and those behind it.
#[inline(always)]
fn split_first(values: Values<'_>) -> Option<(Value, Values<'_>)>
    ensures { MatchOption result (whole_values values.entry ≡ [])
        (λ first. whole_values values.entry ≡ first.0 ∷ whole_values first.1) }
{
    match values {
        Values::One(rows) => first_and_rest!(rows, One),
        Values::Two(rows) => first_and_rest!(rows, Two),
        Values::Three(rows) => first_and_rest!(rows, Three),
        Values::Four(rows) => first_and_rest!(rows, Four),
        Values::Five(rows) => first_and_rest!(rows, Five),
        Values::Six(rows) => first_and_rest!(rows, Six),
        Values::Seven(rows) => first_and_rest!(rows, Seven),
        Values::Eight(rows) => first_and_rest!(rows, Eight),
    }
}

impl<'a, C> TypedColumn<'a, C> {
    /// All of these values, as those of a [`Column`](eco_world::Column) of a world.
    pub fn of(values: Values<'a>) -> TypedColumn<'a, C>
        ensures { whole_values result.values ≡ whole_values values.entry }
    {
        TypedColumn {
            values,
            of: PhantomData,
        }
    }
}

impl<'a, C: Component> Iterator for TypedColumn<'a, C> {
    type Item = C;

    ghost next_gives = { YieldsFirst (λ s. map C.from (whole_values s.values)) };

    ghost remaining = { item_count (λ s. map C.from (whole_values s.values)) };

    #[inline]
    fn next(&mut self) -> Option<C> {
        let (first, rest) = split_first(self.values)?;
        self.values = rest;
        Some(C::from_value(first))
    }
}
