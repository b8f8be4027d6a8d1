//! What is done to values of one width: so many fields are kept of each, and the whole values have zeros behind them.
ghost use Rattle.std.specs.Prelude.{◌≡◌, ◌<◌, ◌≤◌, ◌+◌, ◌-◌, ◌++◌, [], length, map, take, replicate, vec_len};
ghost use Rattle.std.specs.Prelude.{vec_capacity, slice_index_or, slice_set, ◌∷◌, IfOk};
ghost use Rattle.std.specs.List.{swap_remove};
ghost use Rattle.eco_ids.specs.Data.{is_zero_past};
ghost use Rattle.eco_ids.specs.World.{padded, zeros};
ghost use Rattle.eco_ids.specs.declared.value.TheConstants.{FIELD_COUNT};
ghost use Rattle.eco_tables.specs.Column.{Fits};

use eco_ids::{Value, are_zero};
use std::alloc::AllocError;

// The same fields once more.
pub(super) fn copied<const N: usize>(rows: &Vec<[i64; N]>) -> Result<Vec<[i64; N]>, AllocError>
    ensures { IfOk result (λ v. v.items ≡ rows.now.items) }
{
    Vec::from_slice(*rows.allocator(), rows.as_slice())
}

// The first fields of a value.
fn narrowed<const N: usize>(value: Value) -> [i64; N]
    requires { N ≤ FIELD_COUNT }
    ensures { result ≡ take N value.0 }
{
    *value.0.first_chunk().unwrap()
}

// The value of these fields.
#[inline(always)]
#[tactic(auto, using(crate::proofs::Packing::fits_padded))]
fn whole<const N: usize>(fields: [i64; N]) -> Value
    requires { N ≤ FIELD_COUNT }
    ensures value { result ≡ padded fields.entry }
    ensures fits { Fits N result }
{
    Value::of(fields)
}

// The value in a row.
#[inline(always)]
pub(super) fn read<const N: usize>(rows: &Vec<[i64; N]>, row: usize) -> Value
    requires few { N ≤ FIELD_COUNT }
    requires row { row < length (map padded rows.now.items) }
    ensures value { result ≡ slice_index_or (map padded rows.now.items) row zeros }
    ensures fits { Fits N result }
{
    whole(rows[row])
}

// The value in a row, and whether it is zeros, which the fields that are kept tell.
#[inline(always)]
#[tactic(auto, using(crate::proofs::Packing::zeros_behind))]
pub(super) fn read_told<const N: usize>(rows: &Vec<[i64; N]>, row: usize) -> (Value, bool)
    requires few { N ≤ FIELD_COUNT }
    requires row { row < length (map padded rows.now.items) }
    ensures value { result.0 ≡ slice_index_or (map padded rows.now.items) row zeros }
    ensures zero { result.1 ≡ is_zero_past 0 result.0 }
{
    let fields = &rows[row];
    (whole(*fields), are_zero(fields))
}

// Writes the value in a row, which is no wider than the fields.
#[inline(always)]
#[tactic(auto, using(crate::proofs::Packing::map_put))]
pub(super) fn put<const N: usize>(rows: &mut Vec<[i64; N]>, row: usize, value: Value)
    requires few { N ≤ FIELD_COUNT }
    requires row { row < length (map padded rows.old.items) }
    requires fits { Fits N value }
    ensures values { map padded rows.new.items ≡ slice_set (map padded rows.old.items) row value }
    ensures room { vec_capacity rows.new - vec_len rows.new ≡ vec_capacity rows.old - vec_len rows.old }
{
    rows[row] = narrowed(value);
}

// The fields of a row of another column behind the own, in reserved room.
#[inline(always)]
pub(super) fn push<const N: usize>(rows: &mut Vec<[i64; N]>, source: &Vec<[i64; N]>, row: usize)
    requires room { 0 < vec_capacity rows.old - vec_len rows.old }
    requires row { row < length (map padded source.now.items) }
    ensures values { map padded rows.new.items
        ≡ map padded rows.old.items ++ slice_index_or (map padded source.now.items) row zeros ∷ [] }
    ensures room { vec_capacity rows.new - vec_len rows.new ≡ vec_capacity rows.old - vec_len rows.old - 1 }
{
    rows.push_reserved(source[row]);
}

// The fields of a row of another column go behind the own, in reserved room, and that column's last ones take their place.
#[inline(always)]
#[tactic(auto, using(crate::proofs::Packing::map_swap_remove))]
pub(super) fn move_one<const N: usize>(
    rows: &mut Vec<[i64; N]>,
    source: &mut Vec<[i64; N]>,
    row: usize,
)
    requires room { 0 < vec_capacity rows.old - vec_len rows.old }
    requires row { row < length (map padded source.old.items) }
    ensures values { map padded rows.new.items
        ≡ map padded rows.old.items ++ slice_index_or (map padded source.old.items) row zeros ∷ [] }
    ensures room { vec_capacity rows.new - vec_len rows.new ≡ vec_capacity rows.old - vec_len rows.old - 1 }
    ensures left { map padded source.new.items ≡ swap_remove (map padded source.old.items) row zeros }
    ensures won { vec_capacity source.new - vec_len source.new
        ≡ vec_capacity source.old - vec_len source.old + 1 }
{
    rows.push_reserved(source.swap_remove(row));
}

// The row's fields go, and the last ones take their place.
#[tactic(auto, using(crate::proofs::Packing::map_swap_remove))]
pub(super) fn take_out<const N: usize>(rows: &mut Vec<[i64; N]>, row: usize)
    requires { row < length (map padded rows.old.items) }
    ensures values { map padded rows.new.items ≡ swap_remove (map padded rows.old.items) row zeros }
    ensures room { vec_capacity rows.new - vec_len rows.new ≡ vec_capacity rows.old - vec_len rows.old + 1 }
{
    rows.swap_remove(row);
}

// Memory goes back, but for that of the fields that are there and of so many more.
pub(super) fn shrink<const N: usize>(rows: &mut Vec<[i64; N]>, room: usize)
    requires { room ≤ vec_capacity rows.old - vec_len rows.old }
    ensures items { rows.new.items ≡ rows.old.items }
    ensures len { vec_len rows.new ≡ vec_len rows.old }
    ensures room { room ≤ vec_capacity rows.new - vec_len rows.new }
{
    let wanted = rows.len() + room;
    rows.shrink_to(wanted);
}

// All fields go; the memory stays.
pub(super) fn empty<const N: usize>(rows: &mut Vec<[i64; N]>)
    ensures items { rows.new.items ≡ [] }
    ensures room { vec_capacity rows.new - vec_len rows.new
        ≡ vec_capacity rows.old - vec_len rows.old + length (map padded rows.old.items) }
{
    rows.clear();
}

// Zeros behind the own fields, in reserved room.
pub(super) fn push_zeros<const N: usize>(rows: &mut Vec<[i64; N]>)
    requires few { N ≤ FIELD_COUNT }
    requires room { 0 < vec_capacity rows.old - vec_len rows.old }
    ensures values { map padded rows.new.items ≡ map padded rows.old.items ++ zeros ∷ [] }
    ensures room { vec_capacity rows.new - vec_len rows.new ≡ vec_capacity rows.old - vec_len rows.old - 1 }
{
    rows.push_reserved([0; N]);
}

// The fields of all rows of another column behind the own, in reserved room.
pub(super) fn join<const N: usize>(rows: &mut Vec<[i64; N]>, source: &Vec<[i64; N]>)
    requires { length (map padded source.now.items) ≤ vec_capacity rows.old - vec_len rows.old }
    ensures values { map padded rows.new.items ≡ map padded rows.old.items ++ map padded source.now.items }
    ensures room { vec_capacity rows.old - vec_len rows.old
        ≤ vec_capacity rows.new - vec_len rows.new + length (map padded source.now.items) }
{
    let _room = rows.extend_from_slice(source.as_slice());
}

// As many zeros behind the own fields, in reserved room.
pub(super) fn join_zeros<const N: usize>(rows: &mut Vec<[i64; N]>, count: usize)
    requires few { N ≤ FIELD_COUNT }
    requires room { count ≤ vec_capacity rows.old - vec_len rows.old }
    ensures values { map padded rows.new.items ≡ map padded rows.old.items ++ replicate count zeros }
    ensures room { vec_capacity rows.old - vec_len rows.old
        ≤ vec_capacity rows.new - vec_len rows.new + count }
{
    let _room = rows.resize(rows.len() + count, [0; N]);
}
