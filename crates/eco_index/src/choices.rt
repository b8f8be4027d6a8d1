//! Choices of entries: lists of one width, kept one behind another.
ghost use Rattle.std.specs.Prelude.{◌≡◌, ◌≢◌, ◌<◌, ◌≤◌, ◌*◌, ◌++◌, ◌∷◌, ◌+◌, [], Some, suc, length, map, flat_map};
ghost use Rattle.std.specs.Prelude.{slice_get};
ghost use Rattle.std.specs.Prelude.{IfOk, IsFalse, IsTrue, OnOk, OnErr};
ghost use Rattle.std.specs.List.{swap_remove};
ghost use Rattle.eco_ids.specs.Answer as answers;
ghost use Rattle.eco_index.specs.Answers.{asks};
ghost use Rattle.eco_index.specs.Flat.{chunks, IsEven};

use crate::single::add_only;
use eco_ids::{Id, TypeList};
use eco_query::Slot;
use std::alloc::{AllocError, Global};
use std::marker::Model;

/// Choices of entries, each of the same width. A contract sees the width and the list of them.
#[derive(Debug)]
pub struct Choices {
    width: usize,
    count: usize,
    entries: Vec<Option<Id>>,
}

// By hand, so that dropping it is one call: a derived drop is proved anew at each early return of whoever holds it.
impl Drop for Choices {
    fn drop(self) {
        let Choices {
            width: _,
            count: _,
            entries: _,
        } = self;
    }
}

impl Model for Choices {
    ghost use Rattle.std.specs.Prelude.{length, ◌*◌, ◌≡◌};
    ghost use Rattle.eco_index.specs.Flat.{ChoicesState, chunks};

    ghost Value = { ChoicesState };

    ghost view = { λ c. record { width = c.width; all = chunks c.count c.width c.entries.items } };

    ghost invariant = { λ c. length c.entries.items ≡ c.count * c.width };
}

// One of so many lists of this width.
fn chunk(entries: &[Option<Id>], count: usize, width: usize, place: usize) -> &[Option<Id>]
    requires there { place < count }
    requires within { place * width + width ≤ length entries.now }
    ensures { slice_get (chunks count width entries.now) place ≡ Some result.now }
{
    let start = place * width;
    &entries[start..start + width]
}

impl Choices {
    /// The one choice of no entries.
    pub fn one(alloc: Global) -> Choices
        ensures { result ≡ record { width = 0; all = [] ∷ [] } }
    {
        Choices {
            width: 0,
            count: 1,
            entries: Vec::new(alloc),
        }
    }

    /// Each of some entries alone.
    pub(crate) fn each(entries: Vec<Option<Id>>) -> Choices
        ensures { result ≡ record { width = 1; all = map (λ e. e ∷ []) entries.items } }
    {
        Choices {
            width: 1,
            count: entries.len(),
            entries,
        }
    }

    /// No choice, each to be of this width.
    pub fn none(alloc: Global, width: usize) -> Choices
        ensures { result ≡ record { width = width; all = [] } }
    {
        Choices {
            width,
            count: 0,
            entries: Vec::new(alloc),
        }
    }

    /// No choice, each to be of this width. The count is a hint: there is room for so many, which spares memory later. An `Err`
    /// comes where memory is refused.
    pub fn with_room(alloc: Global, width: usize, count: usize) -> Result<Choices, AllocError>
        ensures { IfOk result (λ c. c ≡ record { width = width; all = [] }) }
    {
        Ok(Choices {
            width,
            count: 0,
            entries: Vec::with_capacity(alloc, count.saturating_mul(width))?,
        })
    }

    /// Room for one choice more: a hint, which spares memory later. No choice comes or goes, whether it succeeds or not.
    pub fn reserve_one(&mut self) -> Result<(), AllocError>
        ensures { self.new ≡ self.old }
    {
        self.entries.reserve(self.width)
    }

    /// The same choices once more. An `Err` comes where memory is refused.
    pub fn try_copy(&self, alloc: Global) -> Result<Choices, AllocError>
        ensures { IfOk result (λ c. c ≡ self.now) }
    {
        let mut entries = Vec::with_capacity(alloc, self.entries.len())?;
        entries.extend_from_slice(&self.entries)?;
        Ok(Choices {
            width: self.width,
            count: self.count,
            entries,
        })
    }

    // Does nothing, and its contract says that each choice has the width.
    fn is_even(&self)
        ensures { IsEven self.now.width self.now.all }
    {
        let _entries = &self.entries;
    }

    /// How many entries each has.
    pub fn width(&self) -> usize
        ensures is { result ≡ self.now.width }
        ensures even { IsEven self.now.width self.now.all }
    {
        self.is_even();
        self.width
    }

    /// How many there are.
    #[inline]
    pub fn count(&self) -> usize
        ensures { result ≡ length self.now.all }
    {
        self.count
    }

    /// The choice at a place.
    pub fn get(&self, place: usize) -> &[Option<Id>]
        requires { place < length self.now.all }
        ensures { slice_get self.now.all place ≡ Some result.now }
    {
        chunk(&self.entries, self.count, self.width, place)
    }

    /// The choices with each of some entries in front of each.
    pub fn led_by(
        &self,
        alloc: Global,
        entries: &[Option<Id>],
        width: usize,
    ) -> Result<Choices, AllocError>
        requires { width ≡ suc self.now.width }
        ensures { IfOk result (λ c. c ≡ record {
          width = width;
          all = flat_map (λ e. map (λ x. e ∷ x) self.now.all) entries.now;
        }) }
    {
        self.is_even();
        let mut led = Vec::new(alloc);
        for entry in entries {
            self.add_led(*entry, &mut led)?;
        }
        let whole = led.as_slice();
        let count = whole.len() / width;
        Ok(Choices {
            width,
            count,
            entries: led,
        })
    }

    // Puts an entry in front of each choice, and these behind others.
    fn add_led(&self, entry: Option<Id>, led: &mut Vec<Option<Id>>) -> Result<(), AllocError>
        ensures { OnOk result (led.new.items ≡ led.old.items ++ flat_map (λ x. entry ∷ x) self.now.all) }
    {
        for place in 0..self.count() {
            led.push(entry)?;
            led.extend_from_slice(self.get(place))?;
        }
        Ok(())
    }

    /// Puts a choice of the same width behind these. An `Err` changes nothing.
    pub fn push(&mut self, choice: &[Option<Id>]) -> Result<(), AllocError>
        requires some { 0 < self.old.width }
        requires even { length choice.now ≡ self.old.width }
        ensures ok { OnOk result (self.new ≡ record self.old { all = self.old.all ++ choice.now ∷ [] }) }
        ensures err { OnErr result (self.new ≡ self.old) }
    {
        self.entries.extend_from_slice(choice)?;
        self.count += 1;
        Ok(())
    }

    /// Whether each slot may have just one entry on this type. Then their one choice stands behind these. Else there is no
    /// choice, or there are several, and none is left here, as where memory is refused.
    pub fn push_only(&mut self, slots: &[Slot], ids: &TypeList) -> Result<bool, AllocError>
        requires some { 0 < self.old.width }
        requires even { length slots.now ≡ self.old.width }
        ensures one { IfOk result (λ is. IsTrue is → length (answers.choices ids.now (asks slots.now)) ≡ 1) }
        ensures only { IfOk result (λ is. IsTrue is → self.new
            ≡ record self.old { all = self.old.all ++ answers.choices ids.now (asks slots.now) }) }
        ensures several { IfOk result (λ is. IsFalse is →
            length (answers.choices ids.now (asks slots.now)) ≢ 1) }
        ensures none { IfOk result (λ is. IsFalse is → self.new ≡ record self.old { all = [] }) }
        ensures err { OnErr result (self.new ≡ record self.old { all = [] }) }
    {
        let added = add_only(slots, ids, &mut self.entries);
        if let Ok(true) = added {
            self.count += 1;
        } else {
            self.entries.clear();
            self.count = 0;
        }
        added
    }

    /// Puts other choices of the same width behind these. An `Err` changes nothing.
    pub fn append(&mut self, others: &Choices) -> Result<(), AllocError>
        requires some { 0 < self.old.width }
        requires even { others.now.width ≡ self.old.width }
        ensures ok { OnOk result (self.new ≡ record self.old { all = self.old.all ++ others.now.all }) }
        ensures err { OnErr result (self.new ≡ self.old) }
    {
        self.entries.extend_from_slice(&others.entries)?;
        self.count += others.count;
        Ok(())
    }

    /// Takes the choice at a place out: the last one stands there from then on. It takes no memory.
    pub fn swap_remove(&mut self, place: usize)
        requires { place < length self.old.all }
        ensures { self.new ≡ record self.old { all = swap_remove self.old.all place [] } }
    {
        let last = self.count() - 1;
        move_last(&mut self.entries, last, self.width, place);
        self.count = last;
    }
}

// Writes the last of some lists of this width over the one at a place, and takes it away from the end.
fn move_last(entries: &mut Vec<Option<Id>>, last: usize, width: usize, place: usize)
    requires there { place ≤ last }
    requires long { length entries.old.items ≡ (last + 1) * width }
    ensures long { length entries.new.items ≡ last * width }
    ensures moved { chunks last width entries.new.items
        ≡ swap_remove (chunks (last + 1) width entries.old.items) place [] }
{
    let end = entries.len() - width;
    entries.copy_within(end..end + width, place * width);
    entries.truncate(end);
}
