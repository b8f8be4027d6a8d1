//! One bucket of the table of names.
ghost use Rattle.std.specs.Prelude.{◌≡◌, ◌≢◌, ℕ, ◌<◌, ◌≤◌, ◌∷◌, ◌++◌, [], false, nat_lt, length, slice_get, Some, IfSome, IfNone, IsFalse, IsTrue, MatchBool};
ghost use Rattle.std.specs.Prelude.{MatchOption};
ghost use Rattle.eco_ids.specs.Renaming.{own_name};
ghost use Rattle.eco_entities.specs.Cells.{cell_to, cells_for, mark_of, IsIn, HasMark};
ghost use Rattle.eco_entities.specs.Registry.{HasNobody};
ghost use Rattle.eco_entities.specs.Registration.{given_name};
ghost use Rattle.eco_entities.specs.declared.cell.Cell.{Cell};

use crate::cell::Cell;
use crate::slots::Slots;
use crate::tag::bucket_of;
use arrayvec::ArrayVec;
use eco_ids::Entity;
use std::alloc::AllocError;
use std::marker::Model;

/// Most names have a cell in the bucket that they pick. Those that find it full are in a tree, and the bucket says so by a mark at
/// one of eight places, which the tag picks: so few look-ups of other names go to the tree.
pub(crate) struct Bucket {
    cells: ArrayVec<Cell, 8>,
    marks: [bool; MARKS],
}

// How many marks a bucket has.
const MARKS: usize = 8;

// The mark that a tag picks.
#[inline]
fn mark_of(tag: u32) -> usize
    ensures value { result ≡ mark_of tag }
    ensures within { result < 8 }
{
    tag as usize % MARKS
}

impl Model for Bucket {
    ghost use Rattle.eco_entities.specs.Cells.{BucketState};

    ghost Value = { BucketState };

    ghost view = { λ b. (b.cells.items, b.marks) };
}

// By hand, so that dropping it is one call: a derived drop is proved anew at each early return of whoever holds it.
impl Drop for Bucket {
    fn drop(self) {
        let Bucket { cells: _, marks: _ } = self;
    }
}

impl Clone for Bucket {
    ghost is_clone = { λ b c. c ≡ b };

    fn clone(&self) -> Result<Bucket, AllocError> {
        Ok(Bucket {
            cells: self.cells.clone()?,
            marks: self.marks,
        })
    }
}

impl Bucket {
    /// No name is in use.
    pub(crate) fn new() -> Bucket
        ensures { result.0 ≡ [] }
    {
        Bucket {
            cells: ArrayVec::new(),
            marks: [false; MARKS],
        }
    }

    /// Whether a name of this tag may be in the tree.
    #[inline]
    pub(crate) fn is_marked(&self, tag: u32) -> bool
        ensures marked { IsTrue result → HasMark self.now tag }
        ensures clear { IsFalse result → HasMark self.now tag → ⊥ }
    {
        self.marks[mark_of(tag)]
    }

    /// A name of this tag may be in the tree from now on.
    pub(crate) fn mark(&mut self, tag: u32)
        ensures cells { self.new.0 ≡ self.old.0 }
        ensures here { HasMark self.new tag }
        ensures others { (other : ℕ) → HasMark self.old other → HasMark self.new other }
    {
        self.marks[mark_of(tag)] = true;
    }

    /// Who bears the name, of this tag, and has a cell here.
    #[inline]
    pub(crate) fn find(&self, slots: &Slots, name: &str, tag: u32) -> Option<Entity>
        ensures bears { IfSome result (λ e. own_name given_name slots.now e ≡ Some name.now) }
        ensures none { IfNone result (HasNobody (own_name given_name slots.now) name.now
            (λ e. IsIn (cell_to tag e) self.now.0)) }
    {
        for cell in self.cells.as_slice() {
            let bearer = cell.bearer(slots, name, tag);
            if bearer.is_some() {
                return bearer;
            }
        }
        None
    }

    /// One more cell, where one is left; the answer says whether it is so.
    #[inline]
    pub(crate) fn push(&mut self, cell: Cell) -> bool
        ensures room { result ≡ nat_lt (length self.old.0) 8 }
        ensures done { MatchBool result (self.new ≡ (self.old.0 ++ cell ∷ [], self.old.1))
            (self.new ≡ self.old) }
    {
        if self.cells.is_full() {
            return false;
        }
        self.cells.push(cell);
        true
    }

    /// No cell leads from this tag to this index.
    pub(crate) fn remove(&mut self, cell: Cell)
        ensures gone { IsIn cell self.new.0 → ⊥ }
        ensures others { (other : Cell) → other ≢ cell → IsIn other self.old.0 → IsIn other self.new.0 }
        ensures marks { self.new.1 ≡ self.old.1 }
    {
        while let Some(place) = first(self.cells.as_slice(), cell) {
            let _ = self.cells.remove(place);
        }
    }

    /// The cells for the bucket at this place among so many, without marks.
    pub(crate) fn part(&self, place: usize, count: usize) -> Bucket
        requires some { 0 < count }
        requires few { count ≤ 4294967296 }
        ensures { result.0 ≡ cells_for place count self.now.0 }
    {
        let mut part = ArrayVec::new();
        for cell in self.cells.as_slice() {
            if bucket_of(cell.tag, count) == place {
                part.push(*cell);
            }
        }
        Bucket {
            cells: part,
            marks: [false; MARKS],
        }
    }
}

// The first place of the cell among these.
fn first(cells: &[Cell], cell: Cell) -> Option<usize>
    ensures { MatchOption result (IsIn cell cells.now → ⊥)
        (λ place. slice_get cells.now place ≡ Some cell) }
{
    for (place, other) in cells.iter().enumerate() {
        if *other == cell {
            return Some(place);
        }
    }
    None
}
