//! What the keys of the indices are hashed with.
use std::hash::{BuildHasher, FoldHasher, Hasher};

/// A number that is hashed before each key. Whoever lets others choose ids, as a server does, takes it from a source which
/// these don't know: then they can't choose ids whose keys collide. No answer depends on it.
#[derive(Clone, Copy)]
pub struct Seed {
    // What has read the number.
    hasher: FoldHasher,
}

impl Seed {
    /// The seed of a number.
    pub fn new(number: u64) -> Seed {
        let mut hasher = FoldHasher::default();
        hasher.write_u64(number);
        Seed { hasher }
    }
}

impl BuildHasher for Seed {
    type Hasher = FoldHasher;

    ghost build_hasher = { λ seed. seed.hasher };

    #[inline]
    fn build_hasher(&self) -> FoldHasher {
        self.hasher
    }
}
