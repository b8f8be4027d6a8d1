//! The cells of names in buckets.
ghost use Rattle.std.specs.Prelude.{◌≡◌, ◌≢◌, ◌<◌, ◌≤◌, ◌⊎◌, ◌*◌, [], ℕ, length, Some, IfSome, IfNone, IfOk, IsTrue, IsFalse};
ghost use Rattle.eco_ids.specs.Renaming.{own_name};
ghost use Rattle.eco_entities.specs.Cells.{cell_to, HasMarkAt, IsAt, IsFullAt, KeepsAll};
ghost use Rattle.eco_entities.specs.Registration.{given_name};
ghost use Rattle.eco_entities.specs.Registry.{HasNobody};
ghost use Rattle.eco_entities.specs.declared.cell.Cell.{Cell};

use crate::bucket::Bucket;
use crate::cell::Cell;
use crate::slots::Slots;
use crate::tag::bucket_of;
use eco_ids::Entity;
use std::alloc::{AllocError, Global};
use std::marker::Model;

/// A contract sees the buckets.
pub(crate) struct Table {
    // None at first.
    buckets: Vec<Bucket>,
}

impl Model for Table {
    ghost use Rattle.std.specs.Prelude.{length, List, ◌≤◌};
    ghost use Rattle.eco_entities.specs.Cells.{BucketState};

    ghost Value = { List BucketState };

    ghost view = { λ t. t.buckets.items };

    ghost invariant = { λ t. length t.buckets.items ≤ 4294967296 };
}

// By hand, so that dropping it is one call: a derived drop is proved anew at each early return of whoever holds it.
impl Drop for Table {
    fn drop(self) {
        let Table { buckets: _ } = self;
    }
}

// How many buckets there are at first.
const FEW_BUCKETS: usize = 8;

// How many buckets there may be before they are doubled for the last time.
const MANY_BUCKETS: usize = 1 << 31;

impl Table {
    /// No bucket.
    pub(crate) fn new(alloc: Global) -> Table
        ensures { result ≡ [] }
    {
        Table {
            buckets: Vec::new(alloc),
        }
    }

    /// The same buckets once more. An `Err` comes where memory is refused.
    pub(crate) fn try_copy(&self) -> Result<Table, AllocError>
        ensures { IfOk result (λ t. t ≡ self.now) }
    {
        let buckets = self.buckets.clone()?;
        Ok(Table { buckets })
    }

    /// How many buckets.
    #[inline]
    pub(crate) fn len(&self) -> usize
        ensures { result ≡ length self.now }
    {
        self.buckets.len()
    }

    /// Who bears the name, of this tag, and has a cell.
    #[inline]
    pub(crate) fn find(&self, slots: &Slots, name: &str, tag: u32) -> Option<Entity>
        ensures bears { IfSome result (λ e. own_name given_name slots.now e ≡ Some name.now) }
        ensures none { IfNone result (HasNobody (own_name given_name slots.now) name.now
            (λ e. IsAt self.now (cell_to tag e))) }
    {
        if self.buckets.is_empty() {
            return None;
        }
        self.buckets[bucket_of(tag, self.buckets.len())].find(slots, name, tag)
    }

    /// Whether a name of this tag may be in the tree.
    #[inline]
    pub(crate) fn is_marked(&self, tag: u32) -> bool
        ensures marked { IsTrue result → HasMarkAt self.now tag }
        ensures clear { IsFalse result → HasMarkAt self.now tag → ⊥ }
    {
        !self.buckets.is_empty() && self.buckets[bucket_of(tag, self.buckets.len())].is_marked(tag)
    }

    /// One more cell, where its bucket has room for it; the answer says whether it is so. Else nothing changes.
    #[inline]
    pub(crate) fn push(&mut self, cell: Cell) -> bool
        requires { 0 < length self.old }
        ensures here { IsTrue result → IsAt self.new cell }
        ensures full { IsFalse result → IsFullAt self.old cell.tag }
        ensures all { KeepsAll self.old self.new }
    {
        let place = bucket_of(cell.tag, self.buckets.len());
        self.buckets[place].push(cell)
    }

    /// A name of this tag may be in the tree from now on.
    pub(crate) fn mark(&mut self, tag: u32)
        requires { 0 < length self.old }
        ensures here { HasMarkAt self.new tag }
        ensures all { KeepsAll self.old self.new }
    {
        let place = bucket_of(tag, self.buckets.len());
        self.buckets[place].mark(tag);
    }

    // No cell like this one is left.
    fn remove(&mut self, cell: Cell)
        ensures gone { IsAt self.new cell → ⊥ }
        ensures cells { (other : Cell) → other ≢ cell → IsAt self.old other → IsAt self.new other }
        ensures marks { (tag : ℕ) → HasMarkAt self.old tag → HasMarkAt self.new tag }
    {
        if self.buckets.is_empty() {
            return;
        }
        let place = bucket_of(cell.tag, self.buckets.len());
        self.buckets[place].remove(cell);
    }

    /// No cell like this one is left, unless its tag is the one that is kept.
    pub(crate) fn remove_unless(&mut self, kept: Option<u32>, cell: Cell)
        ensures gone { kept ≢ Some cell.tag → IsAt self.new cell → ⊥ }
        ensures cells { (other : Cell) → (other ≢ cell) ⊎ (kept ≡ Some cell.tag) → IsAt self.old other
            → IsAt self.new other }
        ensures marks { (tag : ℕ) → HasMarkAt self.old tag → HasMarkAt self.new tag }
    {
        if kept == Some(cell.tag) {
            return;
        }
        self.remove(cell);
    }

    /// The same cells, in twice as many buckets unless there are very many; none says that a name is in the tree. An `Err` comes
    /// where memory is refused.
    pub(crate) fn widened(&self) -> Result<Table, AllocError>
        ensures more { IfOk result (λ t. (length self.now < length t) ⊎ (2147483648 < length self.now)) }
        ensures some { IfOk result (λ t. 0 < length t) }
        ensures cells { IfOk result (λ t. (c : Cell) → IsAt self.now c → IsAt t c) }
    {
        let old = self.buckets.as_slice();
        let alloc = *self.buckets.allocator();
        if old.is_empty() {
            let buckets = empty_buckets(alloc)?;
            return Ok(Table { buckets });
        }
        if old.len() > MANY_BUCKETS {
            return self.try_copy();
        }
        let buckets = parts(old, 2 * old.len(), alloc)?;
        Ok(Table { buckets })
    }
}

// The first buckets.
fn empty_buckets(alloc: Global) -> Result<Vec<Bucket>, AllocError>
    ensures { IfOk result (λ buckets. length buckets.items ≡ 8) }
{
    let mut buckets = Vec::with_capacity(alloc, FEW_BUCKETS)?;
    for _ in 0..FEW_BUCKETS {
        buckets.push_reserved(Bucket::new());
    }
    Ok(buckets)
}

// The same cells in twice as many buckets.
fn parts(old: &[Bucket], count: usize, alloc: Global) -> Result<Vec<Bucket>, AllocError>
    requires some { 0 < length old.now }
    requires twice { count ≡ 2 * length old.now }
    requires few { count ≤ 4294967296 }
    ensures count { IfOk result (λ buckets. length buckets.items ≡ count) }
    ensures cells { IfOk result (λ buckets. (c : Cell) → IsAt old.now c → IsAt buckets.items c) }
{
    let mut buckets = Vec::with_capacity(alloc, count)?;
    for place in 0..count {
        buckets.push_reserved(old[place / 2].part(place, count));
    }
    Ok(buckets)
}
