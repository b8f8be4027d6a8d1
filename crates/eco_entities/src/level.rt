//! One level of a bitmap: bits in words of 64, the lowest bit of a word first.
ghost use Rattle.std.specs.Prelude.{◌≡◌, ℕ, ◌+◌, ◌-◌, ◌*◌, ◌/◌, ◌^◌, ◌<◌, ◌≤◌, ◌==◌, nat_lt, [], ◌++◌, replicate};
ghost use Rattle.std.specs.Prelude.{length, slice_index, IfOk, OnOk, OnErr, List};
ghost use Rattle.std.specs.List.{position_from};
ghost use Rattle.eco_entities.specs.Words.{with_bit, without_bit, range_mask, FillsBits, IsFirstWord, IsLowestBit};

use std::alloc::{AllocError, Global};
use std::marker::Model;

/// How many bits a word has.
pub(crate) const WORD_BITS: usize = 64;

/// A contract sees a level as the list of its words.
pub(crate) struct Level {
    words: Vec<u64>,
}

// By hand, so that dropping it is one call: a derived drop is proved anew at each early return of whoever holds it.
impl Drop for Level {
    fn drop(self) {
        let Level { words: _ } = self;
    }
}

impl Model for Level {
    ghost use Rattle.std.specs.Prelude.{List, ℕ};

    ghost Value = { List ℕ };

    ghost view = { λ l. l.words.items };
}

impl Level {
    /// Has no word.
    pub(crate) fn new(alloc: Global) -> Level
        ensures { result ≡ [] }
    {
        Level {
            words: Vec::new(alloc),
        }
    }

    /// How many words it has.
    #[inline]
    pub(crate) fn len(&self) -> usize
        ensures { result ≡ length self.now }
    {
        self.words.len()
    }

    /// Sets the bit at `place`.
    pub(crate) fn set(&mut self, place: usize)
        requires { place / 64 < length self.old }
        ensures { self.new ≡ with_bit self.old place }
    {
        self.words[place / WORD_BITS] |= 1 << (place % WORD_BITS);
    }

    /// Clears the bit at `place`, and says whether its word has no bit left.
    pub(crate) fn clear(&mut self, place: usize) -> bool
        requires { place / 64 < length self.old }
        ensures words { self.new ≡ without_bit self.old place }
        ensures empty { result ≡ (slice_index self.new (place / 64) == 0) }
    {
        let word = &mut self.words[place / WORD_BITS];
        *word &= !(1 << (place % WORD_BITS));
        *word == 0
    }

    /// Sets the bits from `from` up to `to`, a word at a time.
    pub(crate) fn set_range(&mut self, from: usize, to: usize)
        requires order { from < to }
        requires within { to ≤ 64 * length self.old }
        requires fits { to < 2 ^ 40 }
        ensures { FillsBits from to self.old self.new }
    {
        for at in from / WORD_BITS..to.div_ceil(WORD_BITS) {
            self.words[at] |= mask_of(from, to, at);
        }
    }

    /// The first word that has a bit.
    pub(crate) fn first_word(&self) -> Option<usize>
        ensures { result ≡ position_from (λ w. nat_lt 0 w) 0 self.now }
    {
        self.words.iter().position(|word| *word > 0)
    }

    /// The lowest bit that is set, where the word at `at` is the first that has any.
    pub(crate) fn lowest_bit(&self, at: usize) -> usize
        requires first { IsFirstWord self.now at }
        requires fits { at < 2 ^ 40 }
        ensures { IsLowestBit self.now result }
    {
        at * WORD_BITS + self.words[at].trailing_zeros() as usize
    }

    /// The same words once more. An `Err` comes where memory is refused.
    pub(crate) fn try_copy(&self) -> Result<Level, AllocError>
        ensures { IfOk result (λ l. l ≡ self.now) }
    {
        let words = Vec::from_slice(*self.words.allocator(), self.words.as_slice())?;
        Ok(Level { words })
    }

    /// Appends words without bits, until there are `len`. An `Err` leaves the level.
    pub(crate) fn grow_to(&mut self, len: usize) -> Result<(), AllocError>
        ensures ok { OnOk result (self.new ≡ self.old ++ replicate (len - length self.old) 0) }
        ensures err { OnErr result (self.new ≡ self.old) }
    {
        if self.words.len() < len {
            self.words.resize(len, 0)?;
        }
        Ok(())
    }
}

// The lowest `count` bits of a word.
fn low_bits(count: usize) -> u64
    requires { count ≤ 64 }
    ensures { result ≡ 2 ^ count - 1 }
{
    if count == 0 {
        0
    } else {
        u64::MAX >> (WORD_BITS - count)
    }
}

// The bits of the word at `at` whose places lie in the range.
fn mask_of(from: usize, to: usize, at: usize) -> u64
    requires order { from ≤ to }
    requires fits { at < 2 ^ 57 }
    ensures { result ≡ range_mask from to at }
{
    let start = at * WORD_BITS;
    let low = from.saturating_sub(start).min(WORD_BITS);
    let high = to.saturating_sub(start).min(WORD_BITS);
    low_bits(high) - low_bits(low)
}
