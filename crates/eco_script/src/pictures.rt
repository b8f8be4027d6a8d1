//! Pictures of a world: its tables, the pairs between its named entities, and the batches of systems on it.
//!
//! That a picture is drawn safely and comes to an end is proved; how it looks was looked at.

mod batches;
mod graph;
mod names;
mod pen;
mod plan;
mod reason;
mod tables;

pub use batches::{NamedSystems, batches_svg};
pub use graph::graph_svg;
pub use tables::tables_svg;
