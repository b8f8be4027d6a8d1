//! For each pattern, the slots of the tables whose types have an id that it matches.
ghost use Rattle.std.specs.Prelude.{◌≡◌, ◌<◌, ◌≤◌, ℕ, Some, None, true, false, nat_eq};
ghost use Rattle.std.specs.Prelude.{not, slice_get, take, IfOk, OnOk, OnErr, IfSome, IfNone};
ghost use Rattle.std.specs.Option.{option_copied, option_map};
ghost use Rattle.std.specs.HashMap.{get, Updates};
ghost use Rattle.indexmap.specs.IndexMap.{index_map_len};
ghost use Rattle.std.specs.List.{list_any, IsDistinct};
ghost use Rattle.eco_ids.specs.Matching.{pattern_matches};
ghost use Rattle.eco_ids.specs.declared.pattern.Pattern.{Pattern as Patterns};
ghost use Rattle.eco_ids.specs.declared.id.Id.TheVariants.{Two};
ghost use Rattle.eco_index.specs.Marks.{AreMarked};
ghost use Rattle.eco_index.specs.IdIndex.{KeepsNoEmpty, same_key, ListsNone, ListsSame, Turns, HasTurned, KeepsRest, own_count};
ghost use Rattle.eco_query.specs.Queries.{exactly};
ghost use Rattle.eco_index.specs.IdIndex.{has_key, has_one, is_listed, keys_of, matches_id, any_matches};

use crate::id_index::key::Key;
use crate::id_index::marks::Marks;
use crate::id_index::slots::Slots;
use crate::seed::Seed;
use eco_ids::{Entity, Id, Pattern, TableSlot};
use indexmap::IndexMap;
use std::alloc::{AllocError, Global};

mod copying;
mod key;
mod marks;
mod names;
mod numbers;
mod shortest;
mod slot_list;
pub(crate) mod slots;
mod sweeping;
mod turning;

/// No model: contracts see the lists, as `lists_in`. A key of which no slot is listed is not kept, so the index does not
/// grow with the ids that types had once.
#[derive(Drop)]
pub struct IdIndex {
    slots: IndexMap<Key, Slots, Seed>,
    marks: Marks,
    ghost full: { KeepsNoEmpty slots },
    ghost marked: { AreMarked marks slots },
}

impl IdIndex {
    ghost use Rattle.eco_index.specs.Contents.{lists_in};

    /// No slot is listed. Keys are hashed with this seed.
    pub fn new(alloc: Global, seed: Seed) -> IdIndex
        ensures { ListsNone (lists_in result) }
    {
        IdIndex {
            slots: IndexMap::with_hasher(alloc, seed),
            marks: Marks::new(alloc),
        }
    }

    /// The slots that are listed under the pattern, each once.
    #[inline]
    pub fn slots(&self, pattern: Pattern) -> &[TableSlot]
        ensures listed { (n : ℕ) → list_any (nat_eq n) result.now ≡ lists_in self.now pattern n }
        ensures distinct { IsDistinct nat_eq result.now }
    {
        self.listed(Key::of(pattern))
    }

    // The slots that are listed under the key, each once.
    #[inline(always)]
    fn listed(&self, key: Key) -> &[TableSlot]
        ensures listed { (n : ℕ) → list_any (nat_eq n) result.now ≡ is_listed self.now.slots key n }
        ensures distinct { IsDistinct nat_eq result.now }
    {
        match self.kept(key) {
            Some(slots) => slots.as_slice(),
            None => &[],
        }
    }

    /// Whether the slot is listed under the pattern.
    #[inline]
    pub fn lists(&self, pattern: Pattern, slot: TableSlot) -> bool
        ensures { result ≡ lists_in self.now pattern slot }
    {
        match self.kept(Key::of(pattern)) {
            Some(slots) => slots.has(slot),
            None => false,
        }
    }

    /// Some slot that is listed under the id, if there is one.
    #[inline]
    pub fn any(&self, id: Id) -> Option<TableSlot>
        ensures listed { IfSome result (λ n. lists_in self.now (exactly id) n ≡ true) }
        ensures none { IfNone result ((n : ℕ) → lists_in self.now (exactly id) n ≡ false) }
    {
        self.own(id).first().copied()
    }

    // The slots that are listed under the id, each once. The key is named by its kind, so that the look at its mark needs no
    // choice among kinds.
    #[inline(always)]
    fn own(&self, id: Id) -> &[TableSlot]
        ensures listed { (n : ℕ) → list_any (nat_eq n) result.now ≡ lists_in self.now (exactly id) n }
        ensures distinct { IsDistinct nat_eq result.now }
    {
        match id {
            Id::One(entity) => self.listed(Key::Single(entity)),
            Id::Two(relationship, target) => self.listed(Key::Pair(relationship, target)),
        }
    }

    // The slots that are listed under the key, if there are any. Most entities are in no type, so mostly the marks tell.
    #[inline(always)]
    fn kept(&self, key: Key) -> Option<&Slots>
        ensures { option_copied result ≡ get same_key self.now.slots key }
    {
        if !self.marks.may_keep(key) {
            return None;
        }
        self.value(key)
    }

    // The slots that are listed under the key, if it is kept. It is apart, so that the marks of a key that is not kept cost no
    // call.
    #[inline(never)]
    fn value(&self, key: Key) -> Option<&Slots>
        ensures { option_copied result ≡ get same_key self.now.slots key }
    {
        let (_, slots) = self.find(key)?;
        Some(slots)
    }

    // Where the key stands, with the slots that are listed under it, if it is kept. Most keys stand where they stood last.
    #[inline(always)]
    fn find(&self, key: Key) -> Option<(usize, &Slots)>
        ensures at { IfSome result (λ p. slice_get self.now.slots.entries p.0 ≡ Some (key, p.1.now)) }
        ensures value { option_map (λ p. p.1.now) result ≡ get same_key self.now.slots key }
    {
        let place = self.marks.place(key)?;
        if let Some((own, slots)) = self.slots.get_index(place)
            && *own == key
        {
            return Some((place, slots));
        }
        self.look_up(key)
    }

    // What `find` does where the key stands elsewhere, if it is kept.
    fn look_up(&self, key: Key) -> Option<(usize, &Slots)>
        ensures at { IfSome result (λ p. slice_get self.now.slots.entries p.0 ≡ Some (key, p.1.now)) }
        ensures value { option_map (λ p. p.1.now) result ≡ get same_key self.now.slots key }
    {
        let (place, _, slots) = self.slots.get_full(&key)?;
        Some((place, slots))
    }

    // Lists the slot under the key; the answer is whether it was not listed there. An `Err` changes nothing that is listed.
    #[inline(always)]
    fn add(&mut self, alloc: Global, key: Key, slot: TableSlot) -> Result<bool, AllocError>
        ensures ok { OnOk result
            (Turns true (has_key key) (lists_in self.old) (lists_in self.new) slot) }
        ensures is_new { IfOk result (λ came. came ≡ not (is_listed self.old.slots key slot)) }
        ensures err { OnErr result (ListsSame (lists_in self.old) (lists_in self.new)) }
    {
        let Some((place, _)) = self.find(key) else {
            self.add_key(key, slot)?;
            return Ok(true);
        };
        let (_, own) = self.slots.pair_mut(place);
        own.add(alloc, slot)
    }

    // Lists the slot under a key that is not kept, which stands last then. An `Err` changes nothing that is listed.
    #[inline(never)]
    fn add_key(&mut self, key: Key, slot: TableSlot) -> Result<(), AllocError>
        requires { get same_key self.old.slots key ≡ None }
        ensures ok { OnOk result
            (Turns true (has_key key) (lists_in self.old) (lists_in self.new) slot) }
        ensures err { OnErr result (ListsSame (lists_in self.old) (lists_in self.new)) }
    {
        self.marks.note(key, self.slots.len())?;
        let _ = self.slots.insert(key, Slots::One(slot))?;
        Ok(())
    }

    // Takes the slot off the key's list, and with the last one the list. It takes no memory.
    #[inline(always)]
    fn take(&mut self, key: Key, slot: TableSlot)
        ensures { Turns false (has_key key) (lists_in self.old) (lists_in self.new) slot }
    {
        let Some((place, slots)) = self.find(key) else {
            return;
        };
        if slots.is_only(slot) {
            self.drop_key(place);
        } else {
            let (_, own) = self.slots.pair_mut(place);
            own.take(slot);
        }
    }

    // The key at the place goes. The last one comes in its place, which is noted where that takes no memory.
    fn drop_key(&mut self, place: usize)
        requires { place < index_map_len self.old.slots }
        ensures { IfSome (slice_get self.old.slots.entries place)
            (λ e. Updates same_key self.old.slots self.new.slots e.0 None) }
    {
        let _ = self.slots.swap_remove_index(place);
        if let Some((moved, _)) = self.slots.get_index(place) {
            let _ = self.marks.note(*moved, place);
        }
    }

    // Lists the slot under these keys. An `Err` may leave it listed under some of them.
    fn add_keys(&mut self, alloc: Global, keys: &[Key], slot: TableSlot) -> Result<(), AllocError>
        ensures ok { OnOk result
            (Turns true (has_one keys.now) (lists_in self.old) (lists_in self.new) slot) }
        ensures err { OnErr result
            (KeepsRest (has_one keys.now) (lists_in self.old) (lists_in self.new) slot) }
    {
        for key in keys {
            self.add(alloc, *key, slot)?;
        }
        Ok(())
    }

    // Lists the slot under the first so many keys of a pair, each of which is named by its kind, as in `take_pair`.
    fn add_pair(
        &mut self,
        alloc: Global,
        relationship: Entity,
        target: Entity,
        own: usize,
        slot: TableSlot,
    ) -> Result<(), AllocError>
        requires least { 2 ≤ own }
        requires most { own ≤ 4 }
        ensures ok { OnOk result (Turns true (has_one (take own (keys_of (Two relationship target))))
            (lists_in self.old) (lists_in self.new) slot) }
        ensures err { OnErr result (KeepsRest (has_one (keys_of (Two relationship target)))
            (lists_in self.old) (lists_in self.new) slot) }
    {
        self.add(alloc, Key::Pair(relationship, target), slot)?;
        self.add(alloc, Key::Target(target), slot)?;
        if own == 2 {
            return Ok(());
        }
        self.add(alloc, Key::Relationship(relationship), slot)?;
        if own == 3 {
            return Ok(());
        }
        self.add(alloc, Key::AnyPair, slot)?;
        Ok(())
    }

    // Takes the slot off the lists of the first so many keys of a pair. Each key is named by its kind, so that the look at its
    // mark and the one at what stands in its place need no choice among kinds.
    fn take_pair(&mut self, relationship: Entity, target: Entity, own: usize, slot: TableSlot)
        requires least { 2 ≤ own }
        requires most { own ≤ 4 }
        ensures { Turns false (has_one (take own (keys_of (Two relationship target))))
            (lists_in self.old) (lists_in self.new) slot }
    {
        self.take(Key::Pair(relationship, target), slot);
        self.take(Key::Target(target), slot);
        if own == 2 {
            return;
        }
        self.take(Key::Relationship(relationship), slot);
        if own == 3 {
            return;
        }
        self.take(Key::AnyPair, slot);
    }

    // Lists the slot under the keys of an id. Those that the id before it has too list the slot already.
    fn add_id(
        &mut self,
        alloc: Global,
        id: Id,
        before: Option<Id>,
        slot: TableSlot,
    ) -> Result<(), AllocError>
        requires { HasTurned true before (lists_in self.old) slot }
        ensures ok { OnOk result
            (Turns true (matches_id id) (lists_in self.old) (lists_in self.new) slot) }
        ensures err { OnErr result
            (KeepsRest (matches_id id) (lists_in self.old) (lists_in self.new) slot) }
    {
        match id {
            Id::One(entity) => self.add_keys(alloc, &[Key::Single(entity)], slot),
            Id::Two(relationship, target) => {
                let own = own_count(before, relationship);
                self.add_pair(alloc, relationship, target, own, slot)
            }
        }
    }

    // Takes the slot off the lists of an id. Those that the id before it has too list the slot no more.
    fn take_id(&mut self, id: Id, before: Option<Id>, slot: TableSlot)
        requires { HasTurned false before (lists_in self.old) slot }
        ensures { Turns false (matches_id id) (lists_in self.old) (lists_in self.new) slot }
    {
        match id {
            Id::One(entity) => self.take(Key::Single(entity), slot),
            Id::Two(relationship, target) => {
                let own = own_count(before, relationship);
                self.take_pair(relationship, target, own, slot);
            }
        }
    }

    // Lists the slot under the keys of these ids. An `Err` may leave it listed under some of them.
    fn add_each(&mut self, alloc: Global, ids: &[Id], slot: TableSlot) -> Result<(), AllocError>
        ensures ok { OnOk result
            (Turns true (any_matches ids.now) (lists_in self.old) (lists_in self.new) slot) }
        ensures err { OnErr result
            (KeepsRest (any_matches ids.now) (lists_in self.old) (lists_in self.new) slot) }
    {
        let mut before = None;
        for id in ids {
            self.add_id(alloc, *id, before, slot)?;
            before = Some(*id);
        }
        Ok(())
    }

    /// Lists a new table's slot under all patterns that match one of these ids. An `Err` changes nothing that is listed.
    pub fn add_all(&mut self, alloc: Global, ids: &[Id], slot: TableSlot) -> Result<(), AllocError>
        requires { (p : Patterns) → lists_in self.old p slot ≡ false }
        ensures ok { OnOk result
            (Turns true (any_matches ids.now) (lists_in self.old) (lists_in self.new) slot) }
        ensures err { OnErr result (ListsSame (lists_in self.old) (lists_in self.new)) }
    {
        let added = self.add_each(alloc, ids, slot);
        if added.is_err() {
            self.take_all(ids, slot);
        }
        added
    }

    /// Takes a table's slot off the lists of all patterns that match one of these ids. It takes no memory.
    pub fn take_all(&mut self, ids: &[Id], slot: TableSlot)
        ensures { Turns false (any_matches ids.now) (lists_in self.old) (lists_in self.new) slot }
    {
        let mut before = None;
        for id in ids {
            self.take_id(*id, before, slot);
            before = Some(*id);
        }
    }
}

// The keys of the patterns that match a pair.
fn keys_of_pair(relationship: Entity, target: Entity) -> [Key; 4]
    ensures { result ≡ keys_of (Two relationship target) }
{
    [
        Key::Pair(relationship, target),
        Key::Target(target),
        Key::Relationship(relationship),
        Key::AnyPair,
    ]
}

// How many of the keys of a pair the id before it lacks: the pairs of a relationship stand beside each other in a type.
fn own_count(before: Option<Id>, relationship: Entity) -> usize
    ensures { result ≡ own_count before relationship }
{
    match before {
        None | Some(Id::One(_)) => 4,
        Some(Id::Two(own, _)) => { if own.is(relationship) { 2 } else { 3 } }
    }
}
