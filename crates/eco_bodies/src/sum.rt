//! Sums of values.
ghost use Rattle.std.specs.Prelude.{◌≡◌, ◌<◌, ◌≤◌, ◌+◌, ◌++◌, ◌^◌, get_or, length, map, pos, slice_get};
ghost use Rattle.std.specs.Prelude.{option_map, option_to_list, OnErr, OnOk};
ghost use Rattle.eco_ids.specs.Run.{Set};
ghost use Rattle.eco_ids.specs.World.{padded};
ghost use Rattle.eco_bodies.specs.RowSums.{set_sums_from};
ghost use Rattle.eco_bodies.specs.Sums.{sum_of, sum_of_both, bounded_sum, field_sums};

use crate::recording::put_command;
use eco_ids::{Entity, FIELD_COUNT, Id, Value};
use eco_stages::{Command, Stage};
use std::alloc::AllocError;

// The sum of two fields, or the bound of their range that is nearest to it.
fn field_sum(a: i64, b: i64) -> i64
    ensures { result ≡ bounded_sum a b }
{
    a.saturating_add(b)
}

// The same of any two fields of a value: most are past those of their component, and 0.
fn bounded_sum(a: i64, b: i64) -> i64
    ensures { result ≡ bounded_sum a b }
{
    if b == 0 {
        return a;
    }
    field_sum(a, b)
}

// The sum of the fields at a place.
fn sum_at(a: &Value, b: &Value, k: usize) -> i64
    requires { k < FIELD_COUNT }
    ensures { result ≡ bounded_sum (get_or a.now.0 k (pos 0)) (get_or b.now.0 k (pos 0)) }
{
    bounded_sum(a.0[k], b.0[k])
}

/// The sum of two values, field by field. Each sum stops at the bounds of a field's range.
#[inline(always)]
pub fn sum_of(a: Value, b: Value) -> Value
    ensures { result ≡ sum_of a b }
{
    let mut fields = a.0;
    for k in 0..FIELD_COUNT {
        fields[k] = sum_at(&a, &b, k);
    }
    Value(fields)
}

// The sums of as many fields.
#[inline(always)]
fn sums_of<const N: usize>(a: &[i64; N], b: &[i64; N]) -> [i64; N]
    ensures sums { result ≡ field_sums a.now b.now }
    ensures long { length a.now ≡ length b.now }
{
    let mut fields = *a;
    for k in 0..N {
        fields[k] = field_sum(a[k], b[k]);
    }
    fields
}

// The sum of the values in a row of two columns of as many fields, where both have that row: zeros stand behind these in both
// values, and in their sum.
#[inline(always)]
fn sum_in_row<const N: usize>(one: &[[i64; N]], other: &[[i64; N]], row: usize) -> Option<Value>
    requires { N ≤ FIELD_COUNT }
    ensures { result ≡ sum_of_both (slice_get (map padded one.now) row)
        (slice_get (map padded other.now) row) }
{
    let a = one.get(row)?;
    let b = other.get(row)?;
    Some(Value::of(sums_of(a, b)))
}

/// Records that an id is set to the sum of the values in a row of two columns of as many fields, where both have that row. An
/// `Err` leaves the stage as it was.
#[inline(always)]
pub fn set_sum_in_row<const N: usize>(
    one: &[[i64; N]],
    other: &[[i64; N]],
    row: usize,
    entity: Entity,
    id: Id,
    stage: &mut Stage,
) -> Result<(), AllocError>
    requires { N ≤ FIELD_COUNT }
    ensures ok { OnOk result (stage.new ≡ stage.old ++ option_to_list (option_map (λ sum. Set entity id sum)
        (sum_of_both (slice_get (map padded one.now) row) (slice_get (map padded other.now) row)))) }
    ensures err { OnErr result (stage.new ≡ stage.old) }
{
    match sum_in_row(one, other, row) {
        Some(sum) => put_command(stage, Command::Set(entity, id, sum)),
        None => Ok(()),
    }
}

/// Records for each of some entities in turn that its id is set to the sum of the values in its row of two columns of as many
/// fields, where both have that row: the first entity's is the row of this number, and the others' follow. An `Err` comes where
/// there is no memory. Not inlined, since a loop keeps more in registers in a function of its own.
#[inline(never)]
pub fn set_sums_in_rows<const N: usize>(
    one: &[[i64; N]],
    other: &[[i64; N]],
    first: usize,
    entities: &[Entity],
    id: Id,
    stage: &mut Stage,
) -> Result<(), AllocError>
    requires few { N ≤ FIELD_COUNT }
    requires fit { first + length entities.now ≤ 2 ^ 64 }
    ensures { OnOk result (stage.new ≡ stage.old
        ++ set_sums_from (map padded one.now) (map padded other.now) id first entities.now) }
{
    for k in 0..entities.len() {
        set_sum_in_row(one, other, first + k, entities[k], id, stage)?;
    }
    Ok(())
}
