//! What a relationship's ids say of its pairs.
ghost use Rattle.std.specs.Prelude.{◌≡◌, ◌||◌};
ghost use Rattle.std.specs.List.{list_any};
ghost use Rattle.eco_ids.specs.Mirrors.{is_with};
ghost use Rattle.eco_ids.specs.Order.{has_item, id_cmp, id_eq};
ghost use Rattle.eco_ids.specs.declared.entity.TheConstants.{ACYCLIC as ACYCLIC_DATA, EXCLUSIVE as EXCLUSIVE_DATA};
ghost use Rattle.eco_ids.specs.declared.id.Id.TheVariants.{One};

use eco_ids::Id;
use eco_ids::entity::{ACYCLIC, EXCLUSIVE, WITH};

// Which traits that count for one more pair are among the ids of a relationship.
#[derive(Clone, Copy)]
pub(crate) struct PairTraits {
    // A pair of With: others come along.
    pub(crate) brings: bool,
    pub(crate) is_acyclic: bool,
    pub(crate) is_exclusive: bool,
}

impl PairTraits {
    // Those of these ids, by one pass: they are mostly few, and a search for each would take longer.
    #[inline(always)]
    pub(crate) fn of(ids: &[Id]) -> PairTraits
        ensures brings { result.brings ≡ list_any is_with ids.now }
        ensures acyclic { result.is_acyclic ≡ has_item id_cmp ids.now (One ACYCLIC_DATA) }
        ensures exclusive { result.is_exclusive ≡ has_item id_cmp ids.now (One EXCLUSIVE_DATA) }
    {
        let mut told = PairTraits {
            brings: false,
            is_acyclic: false,
            is_exclusive: false,
        };
        for id in ids {
            told = told.with(*id);
        }
        told
    }

    // Those of the same ids and one more.
    #[inline(always)]
    fn with(self, id: Id) -> PairTraits
        ensures brings { result.brings ≡ (self.brings || is_with id) }
        ensures acyclic { result.is_acyclic ≡ (self.is_acyclic || id_eq id (One ACYCLIC_DATA)) }
        ensures exclusive { result.is_exclusive ≡ (self.is_exclusive || id_eq id (One EXCLUSIVE_DATA)) }
    {
        // Each by itself, since a jump for each would take longer.
        match id {
            Id::One(single) => PairTraits {
                brings: self.brings,
                is_acyclic: self.is_acyclic | single.is(ACYCLIC),
                is_exclusive: self.is_exclusive | single.is(EXCLUSIVE),
            },
            Id::Two(relationship, _) => PairTraits {
                brings: self.brings | relationship.is(WITH),
                is_acyclic: self.is_acyclic,
                is_exclusive: self.is_exclusive,
            },
        }
    }
}
