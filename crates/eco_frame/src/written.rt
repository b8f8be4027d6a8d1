//! What the systems of a batch write, by keys.
ghost use Rattle.std.specs.Prelude.{◌≡◌, ◌||◌, IfOk, OnOk};
ghost use Rattle.std.specs.List.{list_any};
ghost use Rattle.eco_ids.specs.declared.pattern.Pattern.{Pattern as PatternData};
ghost use Rattle.eco_ids.specs.Matching.{pattern_overlaps};
ghost use Rattle.eco_ids.specs.Order.{entity_cmp, has_item, id_cmp};
ghost use Rattle.eco_frame.specs.Keys as keys;
ghost use Rattle.eco_frame.specs.Keys.{IsNoted};
ghost use Rattle.eco_frame.specs.Written as spec;
ghost use Rattle.eco_frame.specs.Written.{IsNothing};

use eco_ids::{Entity, Id, Part, Pattern};
use indexmap::IndexSet;
use std::alloc::{AllocError, Global};

// Most batches write no more single ids than this.
const FEW_IDS: usize = 64;

/// Patterns that were put in, by keys: of each read one or two looks tell whether one of them overlaps it, however many there are.
pub(crate) struct Written {
    // Single ids and single pairs.
    ids: IndexSet<Id>,
    // The relationships of which all pairs are written.
    wide: IndexSet<Entity>,
    // The relationships of which any pair is.
    relationships: IndexSet<Entity>,
    // The targets of single pairs.
    targets: IndexSet<Entity>,
    // Patterns of pairs of any relationship. Systems that write such are alone in their batches, so there are hardly any.
    wild: Vec<Pattern>,
}

// By hand, so that dropping it is one call: a derived drop is proved anew at each early return of whoever holds it.
impl Drop for Written {
    fn drop(self) {
        let Written {
            ids: _,
            wide: _,
            relationships: _,
            targets: _,
            wild: _,
        } = self;
    }
}

// The entity of a part, which a wildcard has not.
pub(crate) fn named(part: Part) -> Option<Entity>
    ensures { result ≡ keys.part_entity part }
{
    match part {
        Part::Is(entity) => Some(entity),
        Part::Each | Part::Any => None,
    }
}

// Whether an entity is among those noted.
fn has_entity(noted: &IndexSet<Entity>, entity: Entity) -> bool
    ensures { result ≡ has_item entity_cmp noted.now.keys entity }
{
    noted.contains(&entity)
}

// Whether an id is.
fn has_id(noted: &IndexSet<Id>, id: Id) -> bool
    ensures { result ≡ has_item id_cmp noted.now.keys id }
{
    noted.contains(&id)
}

// Notes an entity. One that was noted before stands there once.
fn note_entity(noted: &mut IndexSet<Entity>, entity: Entity) -> Result<(), AllocError>
    ensures { OnOk result (IsNoted entity_cmp noted.old.keys entity noted.new.keys) }
{
    noted.insert(entity)?;
    Ok(())
}

// Notes an id, likewise.
fn note_id(noted: &mut IndexSet<Id>, id: Id) -> Result<(), AllocError>
    ensures { OnOk result (IsNoted id_cmp noted.old.keys id noted.new.keys) }
{
    noted.insert(id)?;
    Ok(())
}

// Whether one of some patterns overlaps a read.
fn some_overlaps(patterns: &[Pattern], read: Pattern) -> bool
    ensures { result ≡ list_any (λ p. pattern_overlaps p read) patterns.now }
{
    patterns.iter().any(|pattern| pattern.overlaps(read))
}

impl Written {
    /// No pattern.
    pub fn new(alloc: Global) -> Result<Written, AllocError>
        ensures { IfOk result IsNothing }
    {
        Ok(Written {
            ids: IndexSet::with_capacity(alloc, FEW_IDS)?,
            wide: IndexSet::new(alloc),
            relationships: IndexSet::new(alloc),
            targets: IndexSet::new(alloc),
            wild: Vec::new(alloc),
        })
    }

    /// Takes all patterns out. The memory stays, for those of the next batch.
    pub fn clear(&mut self)
        ensures { IsNothing self.new }
    {
        self.ids.clear();
        self.wide.clear();
        self.relationships.clear();
        self.targets.clear();
        self.wild.clear();
    }

    /// Puts a pattern in. `AllocError` is the want of memory for it.
    pub fn add(&mut self, pattern: Pattern) -> Result<(), AllocError>
        ensures { OnOk result ((read : PatternData) → spec.overlaps self.new read
            ≡ (spec.overlaps self.old read || pattern_overlaps pattern read)) }
    {
        match pattern {
            Pattern::One(entity) => self.add_single(entity),
            Pattern::Two(relationship, target) => match named(relationship) {
                Some(relationship) => self.add_pairs(relationship, named(target)),
                None => self.add_wild(pattern),
            },
        }
    }

    // Puts in the pattern of a single.
    fn add_single(&mut self, entity: Entity) -> Result<(), AllocError>
        ensures { OnOk result (spec.HasSingle self.old entity self.new) }
    {
        note_id(&mut self.ids, Id::One(entity))
    }

    // Puts in a pattern of pairs of any relationship. They are few, and stand in a list.
    fn add_wild(&mut self, pattern: Pattern) -> Result<(), AllocError>
        ensures { OnOk result (spec.HasWild self.old pattern self.new) }
    {
        self.wild.push(pattern)?;
        Ok(())
    }

    // Puts in the pair of a relationship with a target, or all its pairs.
    fn add_pairs(&mut self, relationship: Entity, target: Option<Entity>) -> Result<(), AllocError>
        ensures { OnOk result (spec.HasPairs self.old relationship target self.new) }
    {
        note_entity(&mut self.relationships, relationship)?;
        let Some(target) = target else {
            return note_entity(&mut self.wide, relationship);
        };
        note_entity(&mut self.targets, target)?;
        note_id(&mut self.ids, Id::Two(relationship, target))
    }

    /// Puts some patterns in. `AllocError` is the want of memory for them.
    pub fn add_all(&mut self, patterns: &[Pattern]) -> Result<(), AllocError>
        ensures { OnOk result ((read : PatternData) → spec.overlaps self.new read
            ≡ (spec.overlaps self.old read || list_any (λ p. pattern_overlaps p read) patterns.now)) }
    {
        for pattern in patterns {
            self.add(*pattern)?;
        }
        Ok(())
    }

    /// Whether one of the patterns that were put in overlaps a read.
    pub fn overlaps(&self, read: Pattern) -> bool
        ensures { result ≡ spec.overlaps self.now read }
    {
        match read {
            Pattern::One(entity) => has_id(&self.ids, Id::One(entity)),
            Pattern::Two(relationship, target) => {
                self.overlaps_pairs(named(relationship), named(target))
                    || some_overlaps(&self.wild, read)
            }
        }
    }

    // The same of pairs, for patterns of one relationship each.
    fn overlaps_pairs(&self, relationship: Option<Entity>, target: Option<Entity>) -> bool
        ensures { result ≡ spec.overlaps_pairs self.now relationship target }
    {
        match (relationship, target) {
            (Some(relationship), Some(target)) => {
                has_id(&self.ids, Id::Two(relationship, target))
                    || has_entity(&self.wide, relationship)
            }
            (Some(relationship), None) => has_entity(&self.relationships, relationship),
            (None, Some(target)) => has_entity(&self.targets, target) || !self.wide.is_empty(),
            (None, None) => !self.relationships.is_empty(),
        }
    }

    /// Whether one of them overlaps one of some reads.
    pub fn overlaps_some(&self, reads: &[Pattern]) -> bool
        ensures { result ≡ list_any (spec.overlaps self.now) reads.now }
    {
        reads.iter().any(|read| self.overlaps(*read))
    }
}
