//! One work list for all least sets: the closure of an added id, the walks of a relationship, and the doomed of a delete.
#![tactic(auto)]

mod least;

pub use least::{Graph, is_in_least_set, least_set};
