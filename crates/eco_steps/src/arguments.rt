//! The arguments of steps: which numbers, names and values a JSON value is.

ghost use Rattle.std.specs.Prelude.{◌≡◌, ◌≤◌, length, map, option_map};
ghost use Rattle.std.specs.List.{slice_get};
ghost use Rattle.serde_json.specs.View.{view};
ghost use Rattle.eco_ids.specs.declared.value.TheConstants.{FIELD_COUNT};
ghost use Rattle.eco_ids.specs.Edition.{largest_arity};
ghost use Rattle.eco_ids.specs.World.{padded};
ghost use Rattle.eco_steps.specs.Decode.{each_in, integer_in, limit_in, list_in, name_in, number_in, value_of_data, version_in, words_in};

use eco_ids::{Edition, FIELD_COUNT};
use serde_json::Value;

/// A whole number in a range.
pub fn read_number(value: &Value, low: u32, high: u32) -> Option<u32>
    ensures { result ≡ number_in low high (view value.now) }
{
    match value.as_u64() {
        Some(n) if u64::from(low) <= n && n <= u64::from(high) => Some(n as u32),
        _ => None,
    }
}

/// The edition that a script of this version runs on: the first of version 1, the second of version 2.
pub fn read_version(value: &Value) -> Option<Edition>
    ensures { result ≡ version_in (view value.now) }
{
    match read_number(value, 1, 2)? {
        1 => Some(Edition::First),
        _ => Some(Edition::Second),
    }
}

/// The limit of a world of an edition: it has room for the built-ins, and for 1,048,576 entities at most.
pub fn read_limit(edition: Edition, value: &Value) -> Option<u32>
    ensures { result ≡ limit_in edition (view value.now) }
{
    read_number(value, edition.builtin_count(), 1_048_576)
}

/// The arity of a component in a world of an edition: how many fields its values have, one at least.
pub fn read_arity(edition: Edition, value: &Value) -> Option<u8>
    ensures { result ≡ number_in 1 (largest_arity edition) (view value.now) }
{
    Some(read_number(value, 1, u32::from(edition.largest_arity()))? as u8)
}

/// A name, or no name where `null` stands.
pub fn read_name(value: &Value) -> Option<Option<&str>>
    ensures { option_map (option_map (λ s. s.now)) result ≡ name_in (view value.now) }
{
    if value.is_null() {
        Some(None)
    } else {
        Some(Some(value.as_str()?))
    }
}

/// The items of a list.
pub fn read_list(value: &Value) -> Option<&[Value]>
    ensures { option_map (λ items. map view items.now) result ≡ list_in (view value.now) }
{
    match value.as_array() {
        Some(items) => Some(items.as_slice()),
        None => None,
    }
}

/// The item of a list at a place, counted from 0, if there is one.
pub(crate) fn item_at(items: &[Value], place: usize) -> Option<&Value>
    ensures { option_map (λ item. view item.now) result ≡ slice_get (map view items.now) place }
{
    items.get(place)
}

/// A word, and what stands behind it in its list.
pub fn read_words(value: &Value) -> Option<(&str, &[Value])>
    ensures { option_map (λ p. (p.0.now, map view p.1.now)) result ≡ words_in (view value.now) }
{
    let (word, arguments) = read_list(value)?.split_first()?;
    Some((word.as_str()?, arguments))
}

// A whole number of 64 bits.
fn read_integer(value: &Value) -> Option<i64>
    ensures { result ≡ integer_in (view value.now) }
{
    value.as_number()?.as_i64()
}

// The value whose first fields are in a list of as many items. The others are 0.
fn read_fields(items: &[Value]) -> Option<eco_ids::Value>
    requires { length items.now ≤ FIELD_COUNT }
    ensures { result ≡ option_map padded (each_in integer_in (map view items.now)) }
{
    let mut fields = [0; FIELD_COUNT];
    for (i, item) in items.iter().enumerate() {
        fields[i] = read_integer(item)?;
    }
    Some(eco_ids::Value(fields))
}

/// The value of a component in a world of an edition: a list of its first fields, one at least and as many as the largest
/// arity at most, which are whole numbers of 64 bits. The others are 0.
pub fn read_value(edition: Edition, value: &Value) -> Option<eco_ids::Value>
    ensures { result ≡ value_of_data edition (view value.now) }
{
    let items = read_list(value)?;
    if items.is_empty() || items.len() > usize::from(edition.largest_arity()) {
        return None;
    }
    read_fields(items)
}
