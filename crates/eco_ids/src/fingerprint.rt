//! A number for a set of ids, which changes with each id that joins or leaves, whatever the order. So the type of an entity
//! that gets one id more is hashed without reading its other ids.
ghost use Rattle.std.specs.Prelude.{◌≡◌, ℕ, List, Some, slice_get};
ghost use Rattle.std.specs.List.{insert, remove};
ghost use Rattle.eco_ids.specs.declared.id.Id.{Id as Ids};
ghost use Rattle.eco_ids.specs.Fingerprint.{fingerprint, id_share};

use crate::id::Id;
use std::hash::{FoldHasher, Hash, Hasher};

// What one id adds.
fn share(id: Id) -> u64
    ensures { result ≡ id_share id }
{
    let mut hasher = FoldHasher::default();
    id.hash(&mut hasher);
    hasher.finish()
}

/// The fingerprint once the id joined.
pub(crate) fn joined_by(mark: u64, id: Id) -> u64
    ensures { (ids : List Ids) (place : ℕ) → mark ≡ fingerprint ids
        → result ≡ fingerprint (insert ids place id) }
{
    mark.wrapping_add(share(id))
}

/// The fingerprint once the id left.
pub(crate) fn left_by(mark: u64, id: Id) -> u64
    ensures { (ids : List Ids) (place : ℕ) → slice_get ids place ≡ Some id → mark ≡ fingerprint ids
        → result ≡ fingerprint (remove ids place) }
{
    mark.wrapping_sub(share(id))
}
