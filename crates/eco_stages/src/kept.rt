//! What the commands of a stage speak of.
ghost use Rattle.std.specs.Prelude.{◌≡◌, ◌<◌, ◌≤◌, ◌+◌, ◌++◌, ◌∷◌, [], IfOk, IsFalse, IsTrue, OnErr, OnOk, length, map, option_map, slice_get, string_bytes, take, vec_capacity, vec_len};
ghost use Rattle.eco_ids.specs.Data.{is_zero_past};
ghost use Rattle.eco_ids.specs.World.{padded};
ghost use Rattle.eco_ids.specs.declared.value.TheConstants.{FIELD_COUNT};
ghost use Rattle.eco_stages.specs.Recorded.{EndsInSet, KeepsBoth, KeepsNothing, KeepsSame, StaysKept, fields_in, names_of, sets_of};

use crate::run_set::RunSet;
use crate::width::{Width, has_few};
use eco_ids::{Entity, Id, Value};
use std::alloc::{AllocError, Global};

/// The sets, the ids that sets have in turn, and the names that the commands of a stage speak of, each by its place in a list:
/// the sets of values of one width stand in one, so that a merge reads no more than was recorded.
#[derive(Debug)]
pub struct Kept {
    /// Sets of values of one field.
    pub ones: Vec<RunSet<1>>,
    /// Sets of values of up to three fields.
    pub threes: Vec<RunSet<3>>,
    /// Sets of wider values.
    pub eights: Vec<RunSet<8>>,
    /// The ids that sets have in turn.
    pub ids: Vec<Id>,
    /// The names that are given, or none.
    pub names: Vec<Option<String>>,
}

// By hand, so that dropping it is one call: a derived drop is proved anew at each early return of whoever holds it.
impl Drop for Kept {
    fn drop(self) {
        let Kept {
            ones: _,
            threes: _,
            eights: _,
            ids: _,
            names: _,
        } = self;
    }
}

// Whether there is room for one more. It is asked for only where there is none: to ask is a call.
#[inline(always)]
pub(crate) fn has_room<T: Drop>(list: &mut Vec<T>) -> bool
    ensures same { list.new.items ≡ list.old.items }
    ensures room { IsTrue result → vec_len list.new < vec_capacity list.new }
{
    list.len() < list.capacity() || list.reserve(1).is_ok()
}

// The first fields of a value.
#[inline(always)]
fn narrowed<const N: usize>(value: Value) -> [i64; N]
    requires { N ≤ FIELD_COUNT }
    ensures { result ≡ take N value.0 }
{
    *value.0.first_chunk().unwrap()
}

// The set comes last, at this place. The answer is whether it does: else the list has another length, its width doesn't keep the
// value whole, or no memory is left, and it is as it was.
#[inline(always)]
fn push_narrowed<const N: usize>(
    list: &mut Vec<RunSet<N>>,
    place: usize,
    entity: Entity,
    value: Value,
) -> bool
    requires { N ≤ FIELD_COUNT }
    ensures yes { IsTrue result → list.new.items ≡ list.old.items ++ (entity, take N value.0) ∷ [] }
    ensures at { IsTrue result → place ≡ length list.old.items }
    ensures whole { IsTrue result → IsTrue (is_zero_past N value) }
    ensures no { IsFalse result → list.new.items ≡ list.old.items }
{
    if list.len() != place {
        return false;
    }
    if !has_few(value, N) {
        return false;
    }
    if !has_room(list) {
        return false;
    }
    list.push_reserved((entity, narrowed(value)));
    true
}

// The set at a place of the list, with zeros behind its fields.
fn set_in<const N: usize>(list: &[RunSet<N>], place: usize) -> Option<(Entity, Value)>
    requires { N ≤ FIELD_COUNT }
    ensures { result ≡ option_map (λ s. (s.0, padded s.1)) (slice_get list.now place) }
{
    let set = list.get(place)?;
    Some((set.0, Value::of(set.1)))
}

// The name once more.
fn name_copy(alloc: Global, name: &Option<String>) -> Result<Option<String>, AllocError>
    ensures { IfOk result (λ copy. option_map string_bytes copy ≡ option_map string_bytes name.now) }
{
    match name {
        Some(name) => Ok(Some(String::from_str(alloc, name.as_str())?)),
        None => Ok(None),
    }
}

// Copies of the names. An `Err` comes where memory is refused.
fn names_copied(alloc: Global, names: &[Option<String>]) -> Result<Vec<Option<String>>, AllocError>
    ensures { IfOk result (λ copies. map (option_map string_bytes) copies.items
        ≡ map (option_map string_bytes) names.now) }
{
    let mut copies = Vec::with_capacity(alloc, names.len())?;
    for name in names {
        copies.push(name_copy(alloc, name)?)?;
    }
    Ok(copies)
}

impl Kept {
    // Nothing.
    pub(crate) fn new(alloc: Global) -> Kept
        ensures { KeepsNothing result }
    {
        Kept {
            ones: Vec::new(alloc),
            threes: Vec::new(alloc),
            eights: Vec::new(alloc),
            ids: Vec::new(alloc),
            names: Vec::new(alloc),
        }
    }

    // How many sets of this width there are.
    #[inline(always)]
    pub(crate) fn count(&self, width: Width) -> usize
        ensures { result ≡ length (sets_of width self.now) }
    {
        match width {
            Width::One => self.ones.len(),
            Width::Three => self.threes.len(),
            Width::Eight => self.eights.len(),
        }
    }

    /// The set of this width that stands at a place: whose value it sets, and the value. None, where there is none.
    pub fn set_at(&self, width: Width, place: usize) -> Option<(Entity, Value)>
        ensures { result ≡ option_map (λ s. (s.0, padded s.1)) (slice_get (sets_of width self.now) place) }
    {
        match width {
            Width::One => set_in(self.ones.as_slice(), place),
            Width::Three => set_in(self.threes.as_slice(), place),
            Width::Eight => set_in(self.eights.as_slice(), place),
        }
    }

    // Whose value the set of this width at a place sets. None, where there is none.
    pub(crate) fn holder_at(&self, width: Width, place: usize) -> Option<Entity> {
        match width {
            Width::One => self.ones.get(place).map(|set| set.0),
            Width::Three => self.threes.get(place).map(|set| set.0),
            Width::Eight => self.eights.get(place).map(|set| set.0),
        }
    }

    /// The id that stands at a place among those that sets have in turn. None, where there is none.
    pub fn id_at(&self, place: usize) -> Option<Id>
        ensures { result ≡ slice_get self.now.ids.items place }
    {
        self.ids.get(place).copied()
    }

    // The set comes last of those of this width, at this place. The answer is whether it does: else there are more or fewer of
    // them, the width doesn't keep the value whole, or no memory is left, and all is as it was.
    #[inline(always)]
    pub(crate) fn push_at(
        &mut self,
        width: Width,
        place: usize,
        entity: Entity,
        value: Value,
    ) -> bool
        ensures yes { IsTrue result → EndsInSet width entity value self.old self.new }
        ensures at { IsTrue result → place ≡ length (sets_of width self.old) }
        ensures no { IsFalse result → KeepsSame self.old self.new }
        ensures kept { StaysKept self.old self.new }
        ensures ids { self.new.ids ≡ self.old.ids }
    {
        match width {
            Width::One => push_narrowed(&mut self.ones, place, entity, value),
            Width::Three => push_narrowed(&mut self.threes, place, entity, value),
            Width::Eight => push_narrowed(&mut self.eights, place, entity, value),
        }
    }

    // The set comes last in a run of sets of this width, which has so many from this place on. The answer is whether it does:
    // else others stand behind the run, it has as many as it can, the width doesn't keep the value whole, or no memory is left,
    // and all is as it was.
    #[inline(always)]
    pub(crate) fn push_in_run(
        &mut self,
        width: Width,
        first: usize,
        count: &mut u16,
        entity: Entity,
        value: Value,
    ) -> bool
        requires { first + count.old ≤ length (sets_of width self.old) }
        ensures yes { IsTrue result → EndsInSet width entity value self.old self.new }
        ensures at { IsTrue result → first + count.old ≡ length (sets_of width self.old) }
        ensures longer { IsTrue result → count.new ≡ count.old + 1 }
        ensures no { IsFalse result → KeepsSame self.old self.new }
        ensures as_long { IsFalse result → count.new ≡ count.old }
        ensures kept { StaysKept self.old self.new }
        ensures ids { self.new.ids ≡ self.old.ids }
    {
        if *count == u16::MAX {
            return false;
        }
        let end = first + *count as usize;
        if !self.push_at(width, end, entity, value) {
            return false;
        }
        *count += 1;
        true
    }

    // What another keeps comes last, copied. An `Err` comes where memory is refused, and leaves all as it was.
    pub(crate) fn push_copies(&mut self, other: &Kept) -> Result<(), AllocError>
        ensures ok { OnOk result (KeepsBoth self.old other.now self.new) }
        ensures err { OnErr result (KeepsSame self.old self.new) }
    {
        let mut names = names_copied(*self.names.allocator(), other.names.as_slice())?;
        self.ones.reserve(other.ones.len())?;
        self.threes.reserve(other.threes.len())?;
        self.eights.reserve(other.eights.len())?;
        self.ids.reserve(other.ids.len())?;
        self.names.append(&mut names)?;
        // There is room for these.
        self.ones.extend_from_slice(other.ones.as_slice()).unwrap();
        self.threes
            .extend_from_slice(other.threes.as_slice())
            .unwrap();
        self.eights
            .extend_from_slice(other.eights.as_slice())
            .unwrap();
        self.ids.extend_from_slice(other.ids.as_slice()).unwrap();
        Ok(())
    }

    // Gives up all of it. The memory of the lists stays.
    pub(crate) fn clear(&mut self)
        ensures { KeepsNothing self.new }
    {
        self.ones.clear();
        self.threes.clear();
        self.eights.clear();
        self.ids.clear();
        self.names.clear();
    }
}
