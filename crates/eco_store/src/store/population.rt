//! The store as deletes ask it.
use crate::store::Store;
use eco_archetypes::{Places, Population, TypeChange};
use eco_ids::{Entity, Id};
use std::alloc::AllocError;

impl Population for Store {
    ghost entities = { λ s. s.entities };

    #[inline]
    fn places(&self) -> Places<'_> {
        Store::places(self)
    }

    #[inline]
    fn step(&mut self, entity: Entity, id: Id) -> Result<(), AllocError> {
        Store::step(self, entity, id)
    }

    #[inline]
    fn take_out(&mut self, entity: Entity) {
        Store::take_out(self, entity);
    }

    #[inline]
    fn delete_all(&mut self, dead: &[Entity], changes: &[TypeChange]) -> Result<(), AllocError> {
        Store::delete_all(self, dead, changes)
    }
}
