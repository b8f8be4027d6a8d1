//! How much of a value is kept.
ghost use Rattle.std.specs.Prelude.{◌≡◌, ◌≤◌, IsTrue};
ghost use Rattle.eco_ids.specs.Data.{is_zero_past};
ghost use Rattle.eco_ids.specs.declared.value.TheConstants.{FIELD_COUNT};
ghost use Rattle.eco_stages.specs.Recorded.{fields_in};
ghost use Rattle.eco_stages.specs.declared.width.Width.{Width as Widths};

use eco_ids::{Value, are_zero};

/// So many fields of a value are kept with a set, where those behind them are 0: so most sets take a quarter or half of
/// the room that a whole value would take.
#[derive(Clone, Copy, Debug, PartialEq, Eq)]
pub enum Width {
    /// The first field.
    One,
    /// The first three, as of a place in space.
    Three,
    /// All eight.
    Eight,
}

// Whether the fields past so many are 0.
#[inline(always)]
pub(crate) fn has_few(value: Value, count: usize) -> bool
    requires { count ≤ FIELD_COUNT }
    ensures { result ≡ is_zero_past count value }
{
    are_zero(&value.0[count..])
}

impl Width {
    // The least that keeps the value whole.
    #[inline(always)]
    pub(crate) fn of(value: Value) -> Width
        ensures keeps { IsTrue (is_zero_past (fields_in result) value) }
        ensures least { (w : Widths) → IsTrue (is_zero_past (fields_in w) value) → fields_in result ≤ fields_in w }
    {
        if !has_few(value, 3) {
            Width::Eight
        } else if has_few(value, 1) {
            Width::One
        } else {
            Width::Three
        }
    }

    // The one that keeps more of a value.
    pub(crate) fn wider(self, other: Width) -> Width {
        match self {
            Width::One => other,
            Width::Three if other == Width::Eight => Width::Eight,
            _ => self,
        }
    }
}
