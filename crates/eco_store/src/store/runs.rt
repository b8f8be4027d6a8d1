//! Values of many entities at one id.
ghost use Rattle.std.specs.Prelude.{◌≡◌, ◌<◌, ◌≤◌, ℤ, List, IsTrue, Some, length, slice_get, take};
ghost use Rattle.std.specs.List.{All};
ghost use Rattle.eco_ids.specs.Data.{is_zero_past};
ghost use Rattle.eco_ids.specs.declared.entity.Entity.{Entity as Entities};
ghost use Rattle.eco_ids.specs.declared.value.TheConstants.{FIELD_COUNT};
ghost use Rattle.eco_ids.specs.declared.value.Value.{Value as Values};
ghost use Rattle.eco_store.specs.Runs.{IsRewrite, store_with_run};
ghost use Rattle.eco_store.specs.Store.{fits_in_store};

use crate::store::Store;
use eco_ids::{Entity, Id};

impl Store {
    /// Writes values of an id that entities have, and takes no memory: of the sets, each of an entity and the first fields of its
    /// value, as many, from the first on, as are of living entities that stand in rows one behind the other in one table, at
    /// indices no lower than the least, with zeros past so many fields. The answer is how many are written; none where no fields of
    /// the id are kept.
    pub fn set_rows<const N: usize>(
        &mut self,
        id: Id,
        sets: &[(Entity, [i64; N])],
        arity: u8,
        least: u32,
    ) -> usize
        requires few { N ≤ FIELD_COUNT }
        requires fits { (v : Values) → length v.0 ≡ FIELD_COUNT → IsTrue (is_zero_past arity v)
            → IsTrue (fits_in_store self.old.entities id v) }
        ensures written { self.new.entities
            ≡ store_with_run self.old.entities id (take result sets.now) }
        ensures within { result ≤ length sets.now }
        ensures long { All (λ s. length s.1 ≡ N) (take result sets.now) }
        ensures rewrites { All (IsRewrite self.old.entities id arity least) (take result sets.now) }
        ensures some { (s : Entities × List ℤ) → slice_get sets.now 0 ≡ Some s → 1 ≤ arity
            → IsRewrite self.old.entities id arity least s → 0 < result }
    {
        let Some(set) = sets.first() else {
            return 0;
        };
        if !self.layout.entities.is_alive(set.0) {
            return 0;
        }
        let place = self.layout.place_of(set.0);
        self.layout.archetypes.tables().rows_have_ids();
        self.layout
            .archetypes
            .set_rows(place.table, place.row, id, sets, arity, least)
    }
}
