//! Which keys may be kept, and where they may stand, told without a look into the map.
ghost use Rattle.std.specs.Prelude.{◌≡◌, ◌+◌, ◌-◌, ◌^◌, ◌<◌, min, ℕ, true, false, OnOk, IfSome, IfNone};
ghost use Rattle.eco_index.specs.declared.id_index.key.Key.{Key as Keys};
ghost use Rattle.eco_index.specs.Marks.{key_mark, may_be_kept, KeepsMarks};

use crate::id_index::key::Key;
use crate::id_index::numbers::Numbers;
use std::alloc::{AllocError, Global};

/// Marks for the indices of the entities that a key was ever kept of, by what they are in the key. A mark is one more than the place
/// of the last key that it was made for. It stays when the keys go, and for all entities that use the index later: that may cost a
/// look into the map, and never an answer.
pub struct Marks {
    singles: Numbers,
    pairs: Numbers,
    relationships: Numbers,
    targets: Numbers,
    any_pair: u32,
}

// By hand, so that dropping it is one call: a derived drop is proved anew at each early return of whoever holds it.
impl Drop for Marks {
    fn drop(self) {
        let Marks {
            singles: _,
            pairs: _,
            relationships: _,
            targets: _,
            any_pair: _,
        } = self;
    }
}

// Places from here on have one mark.
const LAST_PLACE: usize = 0xFFFF_FFFE;

impl Marks {
    /// No entity is marked.
    pub fn new(alloc: Global) -> Marks
        ensures { (k : Keys) → key_mark result k ≡ 0 }
    {
        Marks {
            singles: Numbers::new(alloc),
            pairs: Numbers::new(alloc),
            relationships: Numbers::new(alloc),
            targets: Numbers::new(alloc),
            any_pair: 0,
        }
    }

    // The key's mark, 0 where it has none.
    #[inline(always)]
    fn mark(&self, key: Key) -> u32
        ensures { result ≡ key_mark self.now key }
    {
        match key {
            Key::Single(entity) => self.singles.get(entity.index),
            Key::Pair(_, entity) => self.pairs.get(entity.index),
            Key::Relationship(entity) => self.relationships.get(entity.index),
            Key::Target(entity) => self.targets.get(entity.index),
            Key::AnyPair => self.any_pair,
        }
    }

    /// Whether the key may be kept.
    #[inline(always)]
    pub fn may_keep(&self, key: Key) -> bool
        ensures { result ≡ may_be_kept self.now key }
    {
        0 < self.mark(key)
    }

    /// Where the key may stand, if it may be kept.
    #[inline]
    pub fn place(&self, key: Key) -> Option<usize>
        ensures place { IfSome result (λ place. place + 1 ≡ key_mark self.now key) }
        ensures none { IfNone result (may_be_kept self.now key ≡ false) }
    {
        let mark = self.mark(key) as usize;
        mark.checked_sub(1)
    }

    /// The key stands at this place. It may be kept from now on, and what might before still may. An `Err` comes where memory
    /// is refused.
    #[inline]
    pub fn note(&mut self, key: Key, place: usize) -> Result<(), AllocError>
        ensures kept { KeepsMarks self.old self.new }
        ensures ok { OnOk result (key_mark self.new key ≡ min place (2 ^ 32 - 2) + 1) }
    {
        let mark = place.min(LAST_PLACE) as u32 + 1;
        match key {
            Key::Single(entity) => self.singles.set(entity.index, mark),
            Key::Pair(_, entity) => self.pairs.set(entity.index, mark),
            Key::Relationship(entity) => self.relationships.set(entity.index, mark),
            Key::Target(entity) => self.targets.set(entity.index, mark),
            Key::AnyPair => {
                self.any_pair = mark;
                Ok(())
            }
        }
    }
}
