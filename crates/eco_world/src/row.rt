//! A result of a query with entries of its own.
ghost use Rattle.std.specs.Prelude.{◌≡◌, IfOk};

use eco_ids::{Entity, Id};
use std::alloc::{AllocError, Global};

/// One result of a query: an entity, and for each slot of the query the id that it found there, or none (Flecs manual,
/// Queries).
#[derive(Debug, Drop)]
pub struct Row {
    pub entity: Entity,
    pub entries: Vec<Option<Id>>,
}

impl Row {
    ghost use Rattle.eco_world.specs.Queries.{result_of};

    // The entity with these entries once more.
    pub(crate) fn of(
        alloc: Global,
        entity: Entity,
        entries: &[Option<Id>],
    ) -> Result<Row, AllocError>
        ensures { IfOk result (λ row. result_of row ≡ record { entity = entity; entries = entries.now }) }
    {
        let entries = Vec::from_slice(alloc, entries)?;
        Ok(Row { entity, entries })
    }
}
