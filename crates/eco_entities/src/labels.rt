//! The names of entities by their indices.
ghost use Rattle.std.specs.Prelude.{◌≡◌, ◌/◌, ◌≤◌, length, None, Some, OnOk, OnErr, IfOk, option_map};
ghost use Rattle.std.specs.Option.{option_copied};
ghost use Rattle.eco_entities.specs.Changes.{KeepsAnswers};
ghost use Rattle.eco_entities.specs.Pages.{name_at};

use crate::label::Label;
use crate::page::{PAGE_LEN, Page};
use std::alloc::{AllocError, Global};

/// The names stand in pages of so many indices. A page has entries only for those that have a name, and there are pages
/// only up to the highest index that had one.
pub(crate) struct Labels {
    pages: Vec<Page>,
}

// By hand, so that dropping it is one call: a derived drop is proved anew at each early return of whoever holds it.
impl Drop for Labels {
    fn drop(self) {
        let Labels { pages: _ } = self;
    }
}

// The page of the index.
#[inline]
fn page_of(index: u32) -> usize
    ensures { result ≡ index / 64 }
{
    (index / PAGE_LEN) as usize
}

impl Labels {
    ghost use Rattle.eco_entities.specs.Changes.{ChangesAt, KeepsAnswers};
    ghost use Rattle.eco_entities.specs.Label.{label_text};
    ghost use Rattle.eco_entities.specs.Labels.{label_of};

    /// No index has a name.
    pub(crate) fn new(alloc: Global) -> Labels
        ensures { KeepsAnswers (λ _. None) (label_of result) }
    {
        Labels {
            pages: Vec::new(alloc),
        }
    }

    /// The same names once more. An `Err` comes where memory is refused.
    pub(crate) fn try_copy(&self) -> Result<Labels, AllocError>
        ensures { IfOk result (λ l. KeepsAnswers (label_of self.now) (label_of l)) }
    {
        let pages = self.pages.clone()?;
        Ok(Labels { pages })
    }

    /// The name at the index.
    pub(crate) fn get(&self, index: u32) -> Option<&str>
        ensures { option_copied result ≡ label_of self.now index }
    {
        match self.pages.get(page_of(index)) {
            Some(page) => match page.get(index) {
                Some(name) => Some(name.as_str()),
                None => None,
            },
            None => None,
        }
    }

    /// The index has this name. The answer is the one that it had. An `Err` comes where a growth was refused, and changes
    /// nothing.
    pub(crate) fn insert(&mut self, index: u32, name: Label) -> Result<Option<Label>, AllocError>
        ensures ok { OnOk result (ChangesAt (label_of self.old) (label_of self.new) index
            (Some (label_text name))) }
        ensures was { IfOk result (λ was. option_map label_text was ≡ label_of self.old index) }
        ensures err { OnErr result (KeepsAnswers (label_of self.old) (label_of self.new)) }
    {
        let place = page_of(index);
        cover(&mut self.pages, place + 1)?;
        self.pages[place].insert(index, name)
    }

    /// The index has no name. The answer is the one that it had.
    pub(crate) fn remove(&mut self, index: u32) -> Option<Label>
        ensures removed { ChangesAt (label_of self.old) (label_of self.new) index None }
        ensures was { option_map label_text result ≡ label_of self.old index }
    {
        let place = page_of(index);
        if place < self.pages.len() {
            self.pages[place].remove(index)
        } else {
            None
        }
    }
}

// So many pages at least. An `Err` comes where a growth was refused, and may leave some of them.
fn cover(pages: &mut Vec<Page>, len: usize) -> Result<(), AllocError>
    ensures same { KeepsAnswers (name_at pages.old.items) (name_at pages.new.items) }
    ensures enough { OnOk result (len ≤ length pages.new.items) }
{
    while pages.len() < len {
        let page = Page::new(*pages.allocator());
        pages.push(page)?;
    }
    Ok(())
}
