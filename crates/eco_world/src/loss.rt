//! What a call takes away.
ghost use Rattle.std.specs.Prelude.{◌≡◌};
ghost use Rattle.eco_world.specs.Losses.{takes};

use eco_ids::{Entity, Id};

/// What a call takes away by itself: mirrors of these ids go too.
#[derive(Clone, Copy)]
pub enum Loss {
    /// All ids of an entity.
    All(Entity),
    /// An id of all entities.
    Everywhere(Id),
}

impl Loss {
    /// Whether the id of the entity goes.
    pub(crate) fn takes(self, entity: Entity, id: Id) -> bool
        ensures { result ≡ takes self entity id }
    {
        match self {
            Loss::All(loser) => entity.is(loser),
            Loss::Everywhere(lost) => id.is(lost),
        }
    }
}
