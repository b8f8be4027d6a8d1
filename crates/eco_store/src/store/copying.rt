//! The store once more.
ghost use Rattle.std.specs.Prelude.{◌≡◌, IfOk};

use crate::layout::Layout;
use crate::store::Store;
use std::alloc::AllocError;

impl Store {
    /// The same store once more: the same indices and entities, with their names, arities, ids and values. An `Err` comes where
    /// memory is refused.
    pub fn try_copy(&self) -> Result<Store, AllocError>
        ensures { IfOk result (λ s. s ≡ self.now) }
    {
        let entities = self.layout.entities.try_copy()?;
        let archetypes = self.layout.archetypes.try_copy()?;
        Ok(Store {
            alloc: self.alloc,
            layout: Layout {
                entities,
                archetypes,
                staying: self.layout.staying.emptied(),
            },
        })
    }
}
