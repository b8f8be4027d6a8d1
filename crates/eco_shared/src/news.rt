//! What a merger tells viewers.
use crate::merge::Merge;
use eco_histories::news;

/// A history of the shared world of its title.
pub type News<J> = news::News<Merge, J>;
