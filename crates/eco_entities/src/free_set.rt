//! The set of free indices, as a bitmap of three levels.
ghost use Rattle.std.specs.Prelude.{◌≡◌, ◌+◌, ◌-◌, ◌^◌, ◌<◌, ◌≤◌, true, false, IsTrue, IsFalse, List, [], ◌∷◌, ◌++◌};
ghost use Rattle.std.specs.Prelude.{length, take, replicate, slice_set, IfOk, OnOk, OnErr};
ghost use Rattle.std.specs.List.{position_from};

use crate::level::{Level, WORD_BITS};
use std::alloc::{AllocError, Global};
use std::marker::Model;

/// Which indices are free, as one flag for each index. The lowest free index is found in a few words.
pub(crate) struct FreeSet {
    len: usize,
    // The bit of an index is set where it is free.
    indices: Level,
    // The bit of a word of `indices` is set where that word has one.
    words: Level,
    // The bit of a word of `words` is set where that word has one.
    groups: Level,
}

// By hand, so that dropping it is one call: a derived drop is proved anew at each early return of whoever holds it.
impl Drop for FreeSet {
    fn drop(self) {
        let FreeSet {
            len: _,
            indices: _,
            words: _,
            groups: _,
        } = self;
    }
}

impl Model for FreeSet {
    ghost use Rattle.std.specs.Prelude.{Bool, List};
    ghost use Rattle.eco_entities.specs.FreeBits.{bits_below, IsLevelled};

    ghost Value = { List Bool };

    ghost view = { λ s. bits_below s.len s.indices };

    ghost invariant = { λ s. IsLevelled s.len s.indices s.words s.groups };
}

impl FreeSet {
    /// Knows no index.
    pub(crate) fn new(alloc: Global) -> FreeSet
        ensures { result ≡ [] }
    {
        FreeSet {
            len: 0,
            indices: Level::new(alloc),
            words: Level::new(alloc),
            groups: Level::new(alloc),
        }
    }

    /// The same indices once more. An `Err` comes where memory is refused.
    pub(crate) fn try_copy(&self) -> Result<FreeSet, AllocError>
        ensures { IfOk result (λ s. s ≡ self.now) }
    {
        Ok(FreeSet {
            len: self.len,
            indices: self.indices.try_copy()?,
            words: self.words.try_copy()?,
            groups: self.groups.try_copy()?,
        })
    }

    /// The lowest free index.
    pub(crate) fn lowest(&self) -> Option<usize>
        ensures { result ≡ position_from (λ b. b) 0 self.now }
    {
        let group = self.groups.lowest_bit(self.groups.first_word()?);
        let word = self.words.lowest_bit(group);
        Some(self.indices.lowest_bit(word))
    }

    /// The index is free from now on.
    pub(crate) fn insert(&mut self, index: usize)
        requires { index < length self.old }
        ensures { self.new ≡ slice_set self.old index true }
    {
        let word = index / WORD_BITS;
        self.indices.set(index);
        self.words.set(word);
        self.groups.set(word / WORD_BITS);
    }

    /// The index isn't free any more.
    pub(crate) fn remove(&mut self, index: usize)
        requires { index < length self.old }
        ensures { self.new ≡ slice_set self.old index false }
    {
        let word = index / WORD_BITS;
        if self.indices.clear(index) && self.words.clear(word) {
            let _ = self.groups.clear(word / WORD_BITS);
        }
    }

    /// All indices from `from` on are free from now on.
    pub(crate) fn insert_from(&mut self, from: usize)
        requires { from ≤ length self.old }
        ensures { self.new ≡ take from self.old ++ replicate (length self.old - from) true }
    {
        if from < self.len {
            let word = from / WORD_BITS;
            let words = self.len.div_ceil(WORD_BITS);
            self.indices.set_range(from, self.len);
            self.words.set_range(word, words);
            self.groups
                .set_range(word / WORD_BITS, words.div_ceil(WORD_BITS));
        }
    }

    /// Knows `count` more indices, which aren't free. An `Err` comes where a growth was refused, and leaves the set.
    #[inline]
    pub(crate) fn grow(&mut self, count: usize) -> Result<(), AllocError>
        requires { length self.old + count < 2 ^ 32 }
        ensures ok { OnOk result (self.new ≡ self.old ++ replicate count false) }
        ensures err { OnErr result (self.new ≡ self.old) }
    {
        let len = self.len + count;
        // Mostly the last word has bits left.
        if len.div_ceil(WORD_BITS) <= self.indices.len() {
            self.len = len;
            return Ok(());
        }
        self.grow_levels(count)
    }

    /// Knows one more index, which isn't free, where its words reach that far; else it stays as it is. The answer says
    /// whether they do.
    #[inline]
    pub(crate) fn push_in_room(&mut self) -> bool
        requires { length self.old + 1 < 2 ^ 32 }
        ensures pushed { IsTrue result → self.new ≡ self.old ++ false ∷ [] }
        ensures same { IsFalse result → self.new ≡ self.old }
    {
        if self.len == self.indices.len() * WORD_BITS {
            return false;
        }
        self.len += 1;
        true
    }

    // What `grow` does where the words that there are don't reach. Rare beside calls that do.
    #[cold]
    #[inline(never)]
    fn grow_levels(&mut self, count: usize) -> Result<(), AllocError>
        requires { length self.old + count < 2 ^ 32 }
        ensures ok { OnOk result (self.new ≡ self.old ++ replicate count false) }
        ensures err { OnErr result (self.new ≡ self.old) }
    {
        let len = self.len + count;
        // Words for twice as many indices, if so many aren't needed: a list that grows takes memory for as many.
        let indices = len.max(2 * self.len).div_ceil(WORD_BITS);
        let words = indices.div_ceil(WORD_BITS);
        self.groups.grow_to(words.div_ceil(WORD_BITS))?;
        self.words.grow_to(words)?;
        self.indices.grow_to(indices)?;
        self.len = len;
        Ok(())
    }
}
