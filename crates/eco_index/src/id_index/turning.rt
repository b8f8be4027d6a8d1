//! A table's slot comes to the lists of an id that its type gains, or goes from those of one that it loses.
ghost use Rattle.std.specs.Prelude.{◌≡◌, true, false, OnOk, OnErr};
ghost use Rattle.eco_ids.specs.declared.id.Id.TheVariants.{One, Two};
ghost use Rattle.eco_index.specs.IdIndex.{ListsSame, Turns, has_one, has_own, is_own};
ghost use Rattle.eco_index.specs.IdIndex.{any_matches, keys_of, matches_id, pattern_of};

use crate::id_index::key::Key;
use crate::id_index::{IdIndex, keys_of_pair};
use crate::type_names::is_named_in;
use eco_ids::{Entity, Id, Pattern, TableSlot, TypeList};
use std::alloc::{AllocError, Global};

impl IdIndex {
    ghost use Rattle.eco_index.specs.Contents.{lists_in};

    /// Lists a table's slot under all patterns that match the id. An `Err` changes nothing that is listed.
    pub fn join(&mut self, alloc: Global, id: Id, slot: TableSlot) -> Result<(), AllocError>
        ensures ok { OnOk result
            (Turns true (matches_id id) (lists_in self.old) (lists_in self.new) slot) }
        ensures err { OnErr result (ListsSame (lists_in self.old) (lists_in self.new)) }
    {
        match id {
            Id::One(entity) => self.join_keys(alloc, &[Key::Single(entity)], slot),
            Id::Two(relationship, target) => {
                self.join_keys(alloc, &keys_of_pair(relationship, target), slot)
            }
        }
    }

    // Lists the slot under these keys. What was listed before stays so where memory is refused for one of the others.
    fn join_keys(&mut self, alloc: Global, keys: &[Key], slot: TableSlot) -> Result<(), AllocError>
        ensures ok { OnOk result
            (Turns true (has_one keys.now) (lists_in self.old) (lists_in self.new) slot) }
        ensures err { OnErr result (ListsSame (lists_in self.old) (lists_in self.new)) }
    {
        let Some((key, others)) = keys.split_first() else {
            return Ok(());
        };
        let is_new = self.add(alloc, *key, slot)?;
        if let Err(refused) = self.join_keys(alloc, others, slot) {
            if is_new {
                self.take(*key, slot);
            }
            return Err(refused);
        }
        Ok(())
    }

    /// Takes a table's slot off the lists of all patterns that match the id and none of these others, which its type keeps.
    /// It takes no memory.
    pub fn leave(&mut self, id: Id, others: &TypeList, slot: TableSlot)
        ensures { Turns false (is_own id others.now)
            (lists_in self.old) (lists_in self.new) slot }
    {
        match id {
            Id::One(entity) => self.leave_single(entity, others, slot),
            Id::Two(relationship, target) => {
                self.leave_pair(relationship, target, others, slot);
            }
        }
    }

    // Takes the slot off the list of a single.
    fn leave_single(&mut self, entity: Entity, others: &TypeList, slot: TableSlot)
        ensures { Turns false (has_own (keys_of (One entity)) others.now)
            (lists_in self.old) (lists_in self.new) slot }
    {
        if is_named_in(others, entity) {
            self.leave_keys(&[Key::Single(entity)], others.as_slice(), slot);
        } else {
            self.take(Key::Single(entity), slot);
        }
    }

    // Takes the slot off the lists of a pair. Where no other id names its target, none is the pair or has the target, so mostly
    // the others are gone over for neither.
    fn leave_pair(
        &mut self,
        relationship: Entity,
        target: Entity,
        others: &TypeList,
        slot: TableSlot,
    )
        ensures { Turns false (has_own (keys_of (Two relationship target)) others.now)
            (lists_in self.old) (lists_in self.new) slot }
    {
        if is_named_in(others, target) {
            let keys = keys_of_pair(relationship, target);
            self.leave_keys(&keys, others.as_slice(), slot);
            return;
        }
        self.take(Key::Pair(relationship, target), slot);
        self.take(Key::Target(target), slot);
        let keys = [Key::Relationship(relationship), Key::AnyPair];
        self.leave_keys(&keys, others.as_slice(), slot);
    }

    fn leave_keys(&mut self, keys: &[Key], others: &[Id], slot: TableSlot)
        ensures { Turns false (has_own keys.now others.now)
            (lists_in self.old) (lists_in self.new) slot }
    {
        for key in keys {
            if !is_matched(others, key.pattern()) {
                self.take(*key, slot);
            }
        }
    }
}

// Whether the pattern matches one of the ids.
fn is_matched(ids: &[Id], pattern: Pattern) -> bool
    ensures { result ≡ any_matches ids.now pattern }
{
    ids.iter().any(|id| pattern.matches(*id))
}
