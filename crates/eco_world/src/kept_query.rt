//! A query that a world keeps.
use eco_query::Query;

/// A query that was added to a world, and the number of the store's cache for it. The number only makes answers quicker: a
/// contract speaks of the query alone.
#[derive(Drop)]
pub(crate) struct KeptQuery {
    pub(crate) query: Query,
    pub(crate) cache: usize,
}
