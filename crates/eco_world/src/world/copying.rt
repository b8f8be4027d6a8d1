//! The world once more.
ghost use Rattle.std.specs.Prelude.{◌≡◌, IfOk};
ghost use Rattle.eco_world.specs.Worlds.{asked_by};

use crate::kept_query::KeptQuery;
use crate::world::World;
use std::alloc::{AllocError, Global};

// The same queries once more.
fn copies_of(queries: &[KeptQuery], alloc: Global) -> Result<Vec<KeptQuery>, AllocError>
    ensures { IfOk result (λ copies. asked_by copies.items ≡ asked_by queries.now) }
{
    let mut copies = Vec::with_capacity(alloc, queries.len())?;
    for kept in queries {
        let query = kept.query.try_copy(alloc)?;
        copies.push(KeptQuery {
            query,
            cache: kept.cache,
        })?;
    }
    Ok(copies)
}

impl World {
    /// The same world once more: the same indices and entities, with their names, arities, ids and values, and the same
    /// queries. Neither of the two sees what is done to the other from then on. It costs what the world is large, and takes
    /// its memory from where the world does. An `Err` comes where memory is refused.
    pub fn try_copy(&self) -> Result<World, AllocError>
        ensures { IfOk result (λ world. world ≡ self.now) }
    {
        let queries = copies_of(&self.queries, self.alloc)?;
        let store = self.store.try_copy()?;
        Ok(World {
            alloc: self.alloc,
            edition: self.edition,
            store,
            queries,
        })
    }
}
