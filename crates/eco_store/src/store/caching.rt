//! The tables that fulfil a query are kept at hand.
ghost use Rattle.std.specs.Prelude.{◌≡◌};

use crate::store::Store;
use eco_query::Query;
use std::alloc::AllocError;

impl Store {
    /// Keeps the tables whose types fulfil the query at hand, from now on, and is told of each that comes or goes (Flecs manual,
    /// Queries, cached queries). The answer is the number by which a [`TypeTest`](crate::TypeTest) names them. It goes over
    /// all tables once. Nothing else changes, whether it succeeds or not; an `Err` comes where memory is refused.
    pub fn keep(&mut self, query: Query) -> Result<usize, AllocError>
        ensures same { self.new ≡ self.old }
    {
        self.layout.archetypes.keep(query)
    }
}
