//! What is worked out of each system once.
ghost use Rattle.std.specs.Prelude.{◌≡◌, ◌<◌, ◌↔◌, ◌∷◌, ◌++◌, [], IfOk, IfSome, IsTrue, OnOk, length, slice_get};
ghost use Rattle.std.specs.List.{AllZip, list_any};
ghost use Rattle.eco_systems.specs.Writes as writes;
ghost use Rattle.eco_frame.specs.Outlines as spec;
ghost use Rattle.eco_frame.specs.Outlines.{IsKnown, IsOutline};

use crate::closed::{is_closed, list_closed};
use crate::declared_system::Declared;
use eco_ids::entity::CHILD_OF;
use eco_ids::{Edition, Entity, Part, Pattern};
use eco_traits::Holdings;
use std::alloc::{AllocError, Global};
use std::marker::Model;

// Where the closed writes of a system stand among those of all, whether one of them writes traits, and whether the system kills.
#[derive(Clone, Copy)]
struct Outline {
    start: usize,
    end: usize,
    writes_traits: bool,
    kills: bool,
}

/// What is worked out of some systems, by their positions of declaration: their closed writes, which all stand in one list,
/// whether one of these writes traits, and whether the system kills.
pub(crate) struct Outlines {
    closed: Vec<Pattern>,
    list: Vec<Outline>,
}

// By hand, so that dropping it is one call: a derived drop is proved anew at each early return of whoever holds it.
impl Drop for Outlines {
    fn drop(self) {
        let Outlines { closed: _, list: _ } = self;
    }
}

impl Model for Outlines {
    ghost use Rattle.std.specs.Prelude.{List, length, map};
    ghost use Rattle.std.specs.List.{AllByRecursion};
    ghost use Rattle.eco_frame.specs.OutlineModels.{OutlineModel, outline_of, IsWithin};

    ghost Value = { List OutlineModel };

    ghost view = { λ o. map (outline_of o.closed.items) o.list.items };

    ghost invariant = { λ o. AllByRecursion (IsWithin (length o.closed.items)) o.list.items };
}

impl Outlines {
    // Of no systems, with room for so many that write one pattern each.
    fn with_capacity(alloc: Global, count: usize) -> Result<Outlines, AllocError>
        ensures { IfOk result (λ o. o ≡ []) }
    {
        Ok(Outlines {
            closed: Vec::with_capacity(alloc, count)?,
            list: Vec::with_capacity(alloc, count)?,
        })
    }

    /// Whether they are those of as many systems that write and kill the same.
    pub fn is(&self, other: &Outlines) -> bool
        ensures { IsTrue result ↔ (self.now ≡ other.now) }
    {
        if self.len() != other.len() {
            return false;
        }
        for at in 0..self.len() {
            if !self.is_at(at, other) {
                return false;
            }
        }
        true
    }

    // Whether the outlines at a position are the same.
    fn is_at(&self, at: usize, other: &Outlines) -> bool
        requires own { at < length self.now }
        requires there { at < length other.now }
        ensures { IsTrue result ↔ (slice_get self.now at ≡ slice_get other.now at) }
    {
        if self.closed(at) != other.closed(at) {
            return false;
        }
        self.writes_traits(at) == other.writes_traits(at) && self.kills(at) == other.kills(at)
    }

    // One more system.
    fn push(&mut self, edition: Edition, closed: &[Pattern], kills: bool) -> Result<(), AllocError>
        ensures { OnOk result (self.new ≡ self.old ++ record {
          closed = closed.now;
          writes_traits = list_any (writes.writes_trait edition) closed.now;
          kills = kills;
        } ∷ []) }
    {
        let start = self.closed.len();
        self.closed.extend_from_slice(closed)?;
        self.list.push(Outline {
            start,
            end: self.closed.len(),
            writes_traits: writes_some_trait(edition, closed),
            kills,
        })?;
        Ok(())
    }

    /// The closed writes of the system at a position, none where there is no system.
    pub fn closed(&self, at: usize) -> &[Pattern]
        ensures { result.now ≡ spec.closed_in (slice_get self.now at) }
    {
        match self.list.get(at) {
            Some(outline) => &self.closed[outline.start..outline.end],
            None => &[],
        }
    }

    // How many systems there are.
    fn len(&self) -> usize
        ensures { result ≡ length self.now }
    {
        self.list.len()
    }

    // Whether the outline at a position is known to be that of a system.
    fn is_known<H: Holdings>(&self, at: usize, holdings: &H, system: &Declared) -> bool
        requires { at < length self.now }
        ensures { IsTrue result
            ↔ IfSome (slice_get self.now at) (IsKnown (H.world holdings.now) system.now) }
    {
        let closed = self.closed(at);
        if !is_closed(holdings, system.writes, closed) {
            return false;
        }
        let traits = writes_some_trait(holdings.edition(), closed);
        self.writes_traits(at) == traits && self.kills(at) == system.kills
    }

    /// Whether they are known to be those of these systems, as they were worked out before: each system has few writes, none of
    /// which brings others, and what is worked out of it is the same. It takes no memory, and less time than to work them out.
    pub fn are_known<H: Holdings>(&self, holdings: &H, systems: &[Declared]) -> bool
        ensures outlines { IsTrue result
            → AllZip (IsOutline (H.world holdings.now)) systems.now self.now }
        ensures known { IsTrue result
            ↔ AllZip (IsKnown (H.world holdings.now)) systems.now self.now }
    {
        if self.len() != systems.len() {
            return false;
        }
        for at in 0..systems.len() {
            if !self.is_known(at, holdings, &systems[at]) {
                return false;
            }
        }
        true
    }

    /// Whether it writes traits.
    pub fn writes_traits(&self, at: usize) -> bool
        ensures { result ≡ spec.traits_in (slice_get self.now at) }
    {
        match self.list.get(at) {
            Some(outline) => outline.writes_traits,
            None => false,
        }
    }

    /// Whether it kills.
    pub fn kills(&self, at: usize) -> bool
        ensures { result ≡ spec.kills_in (slice_get self.now at) }
    {
        match self.list.get(at) {
            Some(outline) => outline.kills,
            None => false,
        }
    }
}

// A built-in of the edition other than ChildOf.
fn is_trait(edition: Edition, entity: Entity) -> bool
    ensures { result ≡ writes.is_builtin_trait edition entity }
{
    entity.is_among_first(edition.builtin_count()) && !entity.is(CHILD_OF)
}

fn is_trait_part(edition: Edition, part: Part) -> bool
    ensures { result ≡ writes.is_trait_part edition part }
{
    match part {
        Part::Is(entity) => is_trait(edition, entity),
        Part::Each | Part::Any => false,
    }
}

// A trait is in the pattern, or the pattern is one of pairs of any relationship.
fn writes_trait(edition: Edition, pattern: Pattern) -> bool
    ensures { result ≡ writes.writes_trait edition pattern }
{
    match pattern {
        Pattern::One(entity) => is_trait(edition, entity),
        Pattern::Two(Part::Is(relationship), targets) => {
            is_trait(edition, relationship) || is_trait_part(edition, targets)
        }
        Pattern::Two(Part::Each | Part::Any, _) => true,
    }
}

// Whether one of the closed writes is of a trait.
fn writes_some_trait(edition: Edition, closed: &[Pattern]) -> bool
    ensures { result ≡ list_any (writes.writes_trait edition) closed.now }
{
    closed.iter().any(|pattern| writes_trait(edition, *pattern))
}

/// Works out each system.
pub(crate) fn work_out<H: Holdings>(
    alloc: Global,
    holdings: &H,
    systems: &[Declared],
) -> Result<Outlines, AllocError>
    ensures { IfOk result (λ os. AllZip (IsOutline (H.world holdings.now)) systems.now os) }
{
    let mut outlines = Outlines::with_capacity(alloc, systems.len())?;
    let mut closed = Vec::new(alloc);
    for system in systems {
        list_closed(alloc, holdings, system.writes, &mut closed)?;
        outlines.push(holdings.edition(), &closed, system.kills)?;
    }
    Ok(outlines)
}
