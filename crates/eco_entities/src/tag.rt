//! The tags of names, and the buckets that they pick.
ghost use Rattle.std.specs.Prelude.{◌≡◌, ◌<◌, ◌≤◌};
ghost use Rattle.eco_entities.specs.Cells.{bucket_of, tag_of};

use std::hash::{FoldHasher, Hasher};

// How many tags there are: half a hash.
const TAGS: u64 = 1 << 32;

/// The lower half of the name's hash.
#[inline]
pub(crate) fn tag_of(name: &str) -> u32
    ensures { result ≡ tag_of name.now }
{
    let mut hasher = FoldHasher::default();
    hasher.write(name.as_bytes());
    (hasher.finish() % TAGS) as u32
}

/// The bucket that the tag picks, of so many: at most 4,294,967,296.
#[inline]
pub(crate) fn bucket_of(tag: u32, count: usize) -> usize
    requires some { 0 < count }
    requires few { count ≤ 4294967296 }
    ensures value { result ≡ bucket_of tag count }
    ensures within { result < count }
{
    (u64::from(tag) * count as u64 / TAGS) as usize
}
