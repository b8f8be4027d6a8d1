//! A world that one thread changes and others read.
#![tactic(auto)]

mod keeper;
pub mod laws;
mod merge;
mod merger;
mod news;
mod opening;
mod publishing;
mod rule;
mod shown;
mod spare;
mod viewer;

pub use eco_histories::registry::{Blank, Naming, Registry};
pub use merger::Merger;
pub use news::News;
pub use opening::open;
pub use viewer::{View, Viewer};
