//! The names in use, each with the living entity that bears it.
ghost use Rattle.std.specs.Prelude.{◌≡◌, ◌≢◌, ◌<◌, ◌⊎◌, [], ℕ, List, length, Some, None, IfSome, IfNone, IfOk, OnErr, OnOk, MatchOption};
ghost use Rattle.std.specs.BTreeMap.{get_by_text};
ghost use Rattle.eco_ids.specs.Renaming.{own_name};
ghost use Rattle.eco_ids.specs.declared.entity.Entity.{Entity};
ghost use Rattle.eco_entities.specs.Cells.{tag_of, HasMarkAt, KeepsAll};
ghost use Rattle.eco_entities.specs.Changes.{ChangesAt};
ghost use Rattle.eco_entities.specs.Label.{label_text};
ghost use Rattle.eco_entities.specs.Registration.{given_name};
ghost use Rattle.eco_entities.specs.Registry.{HasNobody, IsBorne, IsUnused};

use crate::cell::Cell;
use crate::label::Label;
use crate::slots::Slots;
use crate::table::Table;
use crate::tag::tag_of;
use eco_ids::Entity;
use std::alloc::{AllocError, Global};
use std::collections::BTreeMap;

/// A hash table of small cells, which lead to the entities that bear the names: the text of a name stands with its entity alone.
/// No choice of names makes a look-up slow: those that find no cell in the bucket that they pick are in an ordered tree.
pub(crate) struct Names {
    table: Table,
    spilled: BTreeMap<String, Entity>,
    // How many names are in use, which only tells when to widen the table.
    names: usize,
    alloc: Global,
}

// By hand, so that dropping it is one call: a derived drop is proved anew at each early return of whoever holds it.
impl Drop for Names {
    fn drop(self) {
        let Names {
            table: _,
            spilled: _,
            names: _,
            alloc: _,
        } = self;
    }
}

// How many names there may be for a bucket: few enough that most buckets have cells left.
const NAMES_PER_BUCKET: usize = 4;

impl Names {
    ghost use Rattle.eco_entities.specs.Listed.{IsListed};

    /// No name is in use.
    pub(crate) fn new(alloc: Global) -> Names
        ensures { result.table ≡ [] }
    {
        Names {
            table: Table::new(alloc),
            spilled: BTreeMap::new(alloc),
            names: 0,
            alloc,
        }
    }

    /// The same names once more. An `Err` comes where memory is refused.
    pub(crate) fn try_copy(&self) -> Result<Names, AllocError>
        ensures { IfOk result (λ n. (name : List ℕ) (e : Entity) → IsListed self.now name e
            → IsListed n name e) }
    {
        let table = self.table.try_copy()?;
        let spilled = self.spilled.clone()?;
        Ok(Names {
            table,
            spilled,
            names: self.names,
            alloc: self.alloc,
        })
    }

    /// Who bears the name, which has this tag.
    #[inline]
    pub(crate) fn get(&self, slots: &Slots, name: &str, tag: u32) -> Option<Entity>
        requires { tag ≡ tag_of name.now }
        ensures bears { IfSome result (λ e. own_name given_name slots.now e ≡ Some name.now) }
        ensures none { IfNone result (HasNobody (own_name given_name slots.now) name.now
            (IsListed self.now name.now)) }
    {
        let bearer = self.table.find(slots, name, tag);
        if bearer.is_none() && self.table.is_marked(tag) {
            return self.search(slots, name);
        }
        bearer
    }

    // Who bears it and is in the tree.
    #[cold]
    #[inline(never)]
    fn search(&self, slots: &Slots, name: &str) -> Option<Entity>
        ensures bears { IfSome result (λ e. own_name given_name slots.now e ≡ Some name.now) }
        ensures none { IfNone result (HasNobody (own_name given_name slots.now) name.now
            (λ e. get_by_text self.now.spilled name.now ≡ Some e)) }
    {
        let entity = *self.spilled.get(name)?;
        slots.bearer(entity.index, name)
    }

    /// The entity is listed under the name, which has this tag, where nobody bears it; the answer is then a copy of the name. An
    /// `Err` comes where a growth was refused.
    #[inline]
    pub(crate) fn claim(
        &mut self,
        slots: &Slots,
        name: &str,
        tag: u32,
        entity: Entity,
    ) -> Result<Option<Label>, AllocError>
        requires tag { tag ≡ tag_of name.now }
        requires listed { (e : Entity) → own_name given_name slots.now e ≡ Some name.now
            → IsListed self.old name.now e }
        ensures ok { IfOk result (λ own. MatchOption own
            (IsBorne (own_name given_name slots.now) name.now × (self.new ≡ self.old))
            (λ label. (label_text label ≡ name.now) × IsUnused (own_name given_name slots.now) name.now
            × IsListed self.new name.now entity)) }
        ensures err { OnErr result (IsUnused (own_name given_name slots.now) name.now) }
        ensures others { (other : List ℕ) (e : Entity) → other ≢ name.now → IsListed self.old other e
            → IsListed self.new other e }
    {
        if self.get(slots, name, tag).is_some() {
            return Ok(None);
        }
        let own = Label::new(self.alloc, name)?;
        self.insert(name, tag, entity)?;
        Ok(Some(own))
    }

    // The entity is listed under the name, which has this tag and which nobody else bears. An `Err` comes where a growth was
    // refused.
    #[inline]
    fn insert(&mut self, name: &str, tag: u32, entity: Entity) -> Result<(), AllocError>
        requires { tag ≡ tag_of name.now }
        ensures here { OnOk result (IsListed self.new name.now entity) }
        ensures others { (other : List ℕ) (e : Entity) → other ≢ name.now → IsListed self.old other e
            → IsListed self.new other e }
    {
        if self.names / NAMES_PER_BUCKET < self.table.len() {
            self.insert_in_room(name, tag, entity)
        } else {
            self.insert_anew(name, tag, entity)
        }
    }

    // What `insert` does where there are too many names for the buckets.
    #[cold]
    #[inline(never)]
    fn insert_anew(&mut self, name: &str, tag: u32, entity: Entity) -> Result<(), AllocError>
        requires { tag ≡ tag_of name.now }
        ensures here { OnOk result (IsListed self.new name.now entity) }
        ensures others { (other : List ℕ) (e : Entity) → other ≢ name.now → IsListed self.old other e
            → IsListed self.new other e }
    {
        self.widen()?;
        self.insert_in_room(name, tag, entity)
    }

    // What `insert` does with the buckets that there are.
    #[inline]
    fn insert_in_room(&mut self, name: &str, tag: u32, entity: Entity) -> Result<(), AllocError>
        requires tag { tag ≡ tag_of name.now }
        requires some { 0 < length self.old.table }
        ensures here { OnOk result (IsListed self.new name.now entity) }
        ensures others { (other : List ℕ) (e : Entity) → other ≢ name.now → IsListed self.old other e
            → IsListed self.new other e }
    {
        let index = entity.index;
        if !self.table.push(Cell { tag, index }) {
            return self.spill(name, tag, entity);
        }
        self.names = self.names.saturating_add(1);
        Ok(())
    }

    // The entity is in the tree.
    #[cold]
    #[inline(never)]
    fn spill(&mut self, name: &str, tag: u32, entity: Entity) -> Result<(), AllocError>
        requires tag { tag ≡ tag_of name.now }
        requires some { 0 < length self.old.table }
        ensures here { OnOk result (IsListed self.new name.now entity) }
        ensures others { (other : List ℕ) (e : Entity) → other ≢ name.now → IsListed self.old other e
            → IsListed self.new other e }
    {
        let own = String::from_str(self.alloc, name)?;
        self.spilled.insert(own, entity)?;
        self.table.mark(tag);
        self.names = self.names.saturating_add(1);
        Ok(())
    }

    // More buckets. An `Err` comes where a growth was refused, and changes nothing.
    #[cold]
    #[inline(never)]
    fn widen(&mut self) -> Result<(), AllocError>
        ensures some { OnOk result (0 < length self.new.table) }
        ensures same { (name : List ℕ) (e : Entity) → IsListed self.old name e → IsListed self.new name e }
    {
        let mut table = self.table.widened()?;
        mark_all(&mut table, &self.spilled);
        self.table = table;
        Ok(())
    }

    /// Nobody at the index is listed under the name, unless its tag is one that is kept: that of the name which who lives there has.
    pub(crate) fn remove(&mut self, name: &str, index: u32, kept: Option<u32>)
        ensures gone { (e : Entity) → e.index ≡ index → kept ≢ Some (tag_of name.now)
            → IsListed self.new name.now e → ⊥ }
        ensures others { (other : List ℕ) (e : Entity) → other ≢ name.now
            → (e.index ≢ index) ⊎ (kept ≡ Some (tag_of other)) → IsListed self.old other e
            → IsListed self.new other e }
    {
        let tag = tag_of(name);
        self.table.remove_unless(kept, Cell { tag, index });
        self.names = self.names.saturating_sub(1);
        if self.table.is_marked(tag) {
            self.forget(name);
        }
    }

    // The tree tells nobody under the name.
    #[cold]
    #[inline(never)]
    fn forget(&mut self, name: &str)
        ensures table { self.new.table ≡ self.old.table }
        ensures tree { ChangesAt (get_by_text self.old.spilled) (get_by_text self.new.spilled) name.now None }
    {
        let _ = self.spilled.remove(name);
    }
}

// The buckets say of each name in the tree that it may be there.
fn mark_all(table: &mut Table, spilled: &BTreeMap<String, Entity>)
    requires { 0 < length table.old }
    ensures all { KeepsAll table.old table.new }
    ensures marks { (name : List ℕ) (e : Entity) → get_by_text spilled.now name ≡ Some e
        → HasMarkAt table.new (tag_of name) }
{
    for (name, _) in spilled {
        table.mark(tag_of(name.as_str()));
    }
}
