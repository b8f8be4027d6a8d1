//! Rust types that are components.
ghost use Rattle.std.specs.Prelude.{◌≡◌, ◌&&◌, ℕ, IsTrue, nat_le};
ghost use Rattle.eco_ids.specs.declared.value.TheConstants.{LARGEST_ARITY};
ghost use Rattle.eco_ids.specs.declared.value.Value.{Value as ValueData};
ghost use Rattle.eco_frame.specs.Fields.{is_of};

use eco_ids::Value;

/// A type whose values are those of a component with so many fields (Flecs manual, Entities and Components). Each value of the
/// type is one value of the component, and each value of the component is one of the type: the laws say so, and `rt` proves
/// them of each implementation.
pub trait Component {
    // How many fields.
    ghost ARITY: { ℕ };

    // The component's value.
    ghost value_of: { Self → ValueData };

    // The value of the type, whatever the fields past the arity.
    ghost from: { ValueData → Self };

    /// How many fields the values have: 1 to [`LARGEST_ARITY`](eco_ids::value::LARGEST_ARITY). More than four have those of
    /// components in worlds of the second edition alone.
    const ARITY: u8;

    /// The component's value: the fields, and 0 past them.
    fn to_value(&self) -> Value
        ensures { result ≡ value_of self.now };

    /// The value of the type that has these fields.
    fn from_value(value: Value) -> Self
        ensures { result ≡ from value };

    // A component may have so many.
    ghost sized: { IsTrue (nat_le 1 ARITY && nat_le ARITY LARGEST_ARITY) };

    // No field past them is used.
    ghost narrow: { (x : Self) → IsTrue (is_of ARITY (value_of x)) };

    // Nothing is lost on the way to a value and back.
    ghost back: { (x : Self) → from (value_of x) ≡ x };

    // Nor on the way from a value and back.
    ghost forth: { (v : ValueData) → IsTrue (is_of ARITY v) → value_of (from v) ≡ v };
}
