//! Queries: what their slots ask of an entity.
ghost use Rattle.std.specs.Prelude.{◌≡◌, ◌↔◌, ◌++◌, IfOk, IsTrue, Some, codes, flat_map, map, string_bytes};
ghost use Rattle.std.specs.List.{list_all};
ghost use Rattle.eco_query.specs.Canonical.{joined_by, query_text, slot_text};
ghost use Rattle.eco_query.specs.Queries.{holds, patterns_of, slot_view, term_view};

use crate::slot::Slot;
use eco_ids::{Pattern, TypeList};
use std::alloc::{AllocError, Global};
use std::fmt;
use std::marker::Model;

/// A query: an entity answers it where each of its slots holds. It has at most 32 terms, each alternative counted, and some
/// slot asks for something that is there. A contract sees it as the list of its slots.
///
/// A query prints as its canonical text: its slots joined by `, `, entities as handles, as in `[in] #9.0, !#10.0, (#11.0, *)`.
#[derive(Debug)]
pub struct Query {
    slots: Vec<Slot>,
}

// By hand, so that dropping it is one call: a derived drop is proved anew at each early return of whoever holds it.
impl Drop for Query {
    fn drop(self) {
        let Query { slots: _ } = self;
    }
}

/// Whether each of some slots holds on an entity of this type.
fn all_hold(slots: &[Slot], ids: &TypeList) -> bool
    ensures { result ≡ list_all (λ s. holds ids.now (term_view s.term)) slots.now }
{
    slots.iter().all(|slot| slot.holds(ids))
}

/// The patterns that some slots read.
fn patterns_read(slots: &[Slot], alloc: Global) -> Result<Vec<Pattern>, AllocError>
    ensures { IfOk result (λ patterns. patterns.items
        ≡ flat_map (λ s. patterns_of (term_view s.term)) slots.now) }
{
    let mut patterns = Vec::new(alloc);
    for slot in slots {
        slot.term.add_patterns(&mut patterns)?;
    }
    Ok(patterns)
}

/// The same slots once more.
fn copies(slots: &[Slot], alloc: Global) -> Result<Vec<Slot>, AllocError>
    ensures { IfOk result (λ copies. map slot_view copies.items ≡ map slot_view slots.now) }
{
    let mut copies = Vec::with_capacity(alloc, slots.len())?;
    for slot in slots {
        copies.push(slot.try_copy(alloc)?)?;
    }
    Ok(copies)
}

impl Model for Query {
    ghost use Rattle.std.specs.Prelude.{List, map};
    ghost use Rattle.eco_query.specs.Queries.{IsQuery, QuerySlot, slot_view};

    ghost Value = { List QuerySlot };

    ghost view = { λ q. map slot_view q.slots.items };

    ghost invariant = { λ q. IsQuery (map slot_view q.slots.items) };
}

impl Query {
    ghost use Rattle.eco_query.specs.Queries.{HasPositive, IsQuery, matches_type, reads};

    /// Of its slots, which keep to what each query keeps to.
    pub fn of_slots(slots: Vec<Slot>) -> Query
        requires { IsQuery (map slot_view slots.items) }
        ensures { result ≡ map slot_view slots.items }
    {
        Query { slots }
    }

    /// Does nothing, and its contract says what each query keeps to: the numbers of its handles are in range, alternatives
    /// are two or more, it has at most 32 terms, and some slot asks for something that is there.
    pub fn is_well_made(&self)
        ensures { IsQuery self.now }
    {
        let _slots = &self.slots;
    }

    /// Does nothing, and its contract says that some slot asks for something that is there: a plain term or alternatives.
    pub fn is_positive(&self)
        ensures { HasPositive self.now }
    {
        let _slots = &self.slots;
    }

    /// Its slots, in written order.
    pub fn slots(&self) -> &[Slot]
        ensures { map slot_view result.now ≡ self.now }
    {
        &self.slots
    }

    /// Whether each of its slots holds on an entity of this type: whether such an entity answers it.
    #[tactic(auto, using(crate::proofs::Matched::list_all_map))]
    pub fn matches_type(&self, ids: &TypeList) -> bool
        ensures { result ≡ matches_type ids.now self.now }
    {
        all_hold(&self.slots, ids)
    }

    /// The patterns of its slots, in written order and whatever their access: what a system that runs on it reads.
    #[tactic(auto, using(crate::proofs::Matched::flat_map_map))]
    pub fn reads(&self, alloc: Global) -> Result<Vec<Pattern>, AllocError>
        ensures { IfOk result (λ patterns. patterns.items ≡ reads self.now) }
    {
        patterns_read(&self.slots, alloc)
    }

    /// The same query once more. `AllocError` is the want of memory for it.
    pub fn try_copy(&self, alloc: Global) -> Result<Query, AllocError>
        ensures { IfOk result (λ q. q ≡ self.now) }
    {
        Ok(Query {
            slots: copies(&self.slots, alloc)?,
        })
    }

    /// Whether it is this query: whether both have the same slots in the same order.
    pub fn is(&self, other: &Query) -> bool
        ensures { IsTrue result ↔ (self.now ≡ other.now) }
    {
        self.slots == other.slots
    }

    /// Its canonical text, as it prints. `AllocError` is the want of memory for it.
    pub fn canonical_text(&self, alloc: Global) -> Result<String, AllocError>
        ensures { IfOk result (λ text. string_bytes text ≡ query_text self.now) }
    {
        format!(in alloc; "{self}")
    }
}

/// The slots of a query, joined by `, `.
#[derive(Clone, Copy)]
struct Slots<'a>(&'a [Slot]);

impl fmt::Display for Slots<'_> {
    ghost output = { λ slots. Some (joined_by (codes ", ") (λ s. slot_text (slot_view s)) slots.0.now) };

    fn fmt<W: fmt::Write>(&self, f: &mut fmt::Formatter<W>) -> fmt::Result {
        if let Some((first, rest)) = self.0.split_first() {
            let others = Others(rest);
            return write!(f, "{first}{others}");
        }
        Ok(())
    }
}

// The slots of a query behind its first, each behind `, `.
#[derive(Drop)]
struct Others<'a>(&'a [Slot]);

impl fmt::Display for Others<'_> {
    ghost output = { λ others. Some
        (flat_map (λ s. codes ", " ++ slot_text (slot_view s)) others.0.now) };

    fn fmt<W: fmt::Write>(&self, f: &mut fmt::Formatter<W>) -> fmt::Result {
        for slot in self.0 {
            write!(f, ", {slot}")?;
        }
        Ok(())
    }
}

impl fmt::Display for Query {
    ghost output = { λ query. Some (query_text query) };

    #[tactic(auto, using(crate::proofs::Matched::joined_by_map))]
    fn fmt<W: fmt::Write>(&self, f: &mut fmt::Formatter<W>) -> fmt::Result {
        let slots = Slots(&self.slots);
        write!(f, "{slots}")
    }
}
