//! Which of a world's queries.

/// The number of a query that was added to a world: its place among them, from 0 (Flecs manual, Queries, cached queries).
#[derive(Clone, Copy, Debug, PartialEq, Eq)]
pub struct QueryId(pub usize);
