//! The entities of a store, and the tables in which they stand.
use crate::staying::Staying;
use eco_archetypes::Archetypes;
use eco_entities::EntityIndex;

mod carrying;
mod planning;
mod releasing;

/// The entities, their tables, and which of these stay though they may be without rows. In the midst of a change its parts
/// need not agree: each call says what holds before it and after it.
pub(crate) struct Layout {
    pub(crate) entities: EntityIndex,
    pub(crate) archetypes: Archetypes,
    pub(crate) staying: Staying,
}

// By hand, so that dropping it is one call: a derived drop is proved anew at each early return of whoever holds it.
impl Drop for Layout {
    fn drop(self) {
        let Layout {
            entities: _,
            archetypes: _,
            staying: _,
        } = self;
    }
}
