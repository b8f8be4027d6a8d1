//! The names at the indices of one page, which lie side by side.
ghost use Rattle.std.specs.Prelude.{◌≡◌, not, [], IsTrue, MatchResult, OnOk, OnErr, IfOk};
ghost use Rattle.std.specs.Option.{option_copied};
ghost use Rattle.std.specs.Ordering.{nat_cmp, eq_by_cmp};
ghost use Rattle.std.specs.FinMap.Entries.{find, is_sorted, put, where_key};
ghost use Rattle.eco_entities.specs.Pages.{IsEntry, IsGap, SameTexts};

use crate::label::Label;
use std::alloc::{AllocError, Global};
use std::cmp::Ordering;
use std::marker::Model;
use std::mem::replace;

/// How many indices a page is for: few, since a search in it may go through all.
pub(crate) const PAGE_LEN: u32 = 64;

/// A contract sees the names with their indices, which ascend.
pub(crate) struct Page {
    entries: Vec<(u32, Label)>,
}

// By hand, so that dropping it is one call: a derived drop is proved anew at each early return of whoever holds it.
impl Drop for Page {
    fn drop(self) {
        let Page { entries: _ } = self;
    }
}

impl Model for Page {
    ghost use Rattle.std.specs.Prelude.{ℕ, List, IsTrue};
    ghost use Rattle.std.specs.Ordering.{nat_cmp};
    ghost use Rattle.std.specs.FinMap.Entries.{is_sorted};
    ghost use Rattle.eco_entities.specs.declared.label.Label.{Label};

    ghost Value = { List (ℕ × Label) };

    ghost view = { λ p. p.entries.items };

    ghost invariant = { λ p. IsTrue (is_sorted nat_cmp p.entries.items) };
}

impl Clone for Page {
    ghost is_clone = { SameTexts };

    fn clone(&self) -> Result<Page, AllocError> {
        Ok(Page {
            entries: self.entries.clone()?,
        })
    }
}

impl Page {
    /// No index has a name.
    pub(crate) fn new(alloc: Global) -> Page
        ensures { result ≡ [] }
    {
        Page {
            entries: Vec::new(alloc),
        }
    }

    /// The name at the index.
    pub(crate) fn get(&self, index: u32) -> Option<&Label>
        ensures { option_copied result ≡ find nat_cmp index self.now }
    {
        match seek(self.entries.as_slice(), index) {
            Ok(place) => Some(&self.entries[place].1),
            Err(_) => None,
        }
    }

    /// The index has this name. The answer is the one that it had. An `Err` comes where a growth was refused, and changes
    /// nothing.
    pub(crate) fn insert(&mut self, index: u32, name: Label) -> Result<Option<Label>, AllocError>
        ensures ok { OnOk result (self.new ≡ put nat_cmp index name self.old) }
        ensures was { IfOk result (λ was. was ≡ find nat_cmp index self.old) }
        ensures err { OnErr result (self.new ≡ self.old) }
    {
        match seek(self.entries.as_slice(), index) {
            Ok(place) => Ok(Some(replace(&mut self.entries[place].1, name))),
            Err(place) => {
                self.entries.insert(place, (index, name))?;
                Ok(None)
            }
        }
    }

    /// The index has no name. The answer is the one that it had.
    pub(crate) fn remove(&mut self, index: u32) -> Option<Label>
        ensures removed { self.new
            ≡ where_key nat_cmp (λ other. not (eq_by_cmp nat_cmp index other)) self.old }
        ensures was { result ≡ find nat_cmp index self.old }
    {
        match seek(self.entries.as_slice(), index) {
            Ok(place) => Some(self.entries.remove(place).1),
            Err(_) => None,
        }
    }
}

// Where the index's entry is, or else where one would stand. Where all indices of a page have names, an index's entry is as far
// in the list as the index in the page.
#[inline]
fn seek(entries: &[(u32, Label)], index: u32) -> Result<usize, usize>
    requires { IsTrue (is_sorted nat_cmp entries.now) }
    ensures { MatchResult result (IsEntry index entries.now) (IsGap index entries.now) }
{
    let place = (index % PAGE_LEN) as usize;
    if place < entries.len() && entries[place].0 == index {
        return Ok(place);
    }
    seek_back(entries, index)
}

// The same, from the end, since indices are mostly named in their order.
fn seek_back(entries: &[(u32, Label)], index: u32) -> Result<usize, usize>
    requires { IsTrue (is_sorted nat_cmp entries.now) }
    ensures { MatchResult result (IsEntry index entries.now) (IsGap index entries.now) }
{
    let mut place = entries.len();
    while place > 0 {
        match entries[place - 1].0.cmp(&index) {
            Ordering::Greater => place -= 1,
            Ordering::Equal => return Ok(place - 1),
            Ordering::Less => return Err(place),
        }
    }
    Err(0)
}
