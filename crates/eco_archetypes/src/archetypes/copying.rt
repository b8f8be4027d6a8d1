//! The tables once more, with all that they are found by.
ghost use Rattle.std.specs.Prelude.{IfOk};
ghost use Rattle.eco_tables.specs.Tables.{AreCopies};

use crate::archetypes::Archetypes;
use eco_index::Edges;
use std::alloc::AllocError;

impl Archetypes {
    /// The same tables once more, each in the slot that it has, and none of them with room. An `Err` comes where memory is
    /// refused.
    pub fn try_copy(&self) -> Result<Archetypes, AllocError>
        ensures { IfOk result (λ a. AreCopies self.now a) }
    {
        // Edges are left out: each that is asked for is found again.
        let tables = self.tables.try_copy()?;
        let caches = self.caches.try_copy(self.alloc)?;
        let by_type = self.by_type.try_copy()?;
        let by_id = self.by_id.try_copy(self.alloc)?;
        Ok(Archetypes {
            alloc: self.alloc,
            seed: self.seed,
            tables,
            by_type,
            last: self.last,
            by_id,
            edges: Edges::new(self.alloc, self.seed),
            caches,
        })
    }
}
