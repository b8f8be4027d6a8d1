//! Handles by their indices.
use eco_ids::Entity;

/// The entity of generation 0 at the index.
pub fn at(index: u32) -> Entity {
    Entity {
        index,
        generation: 0,
    }
}
