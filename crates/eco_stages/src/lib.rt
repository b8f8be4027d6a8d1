//! Stages: commands that are recorded now and done later by the world into which they are merged, what they answered then, and
//! where who records draws fresh handles. `eco_merges` does them.
#![tactic(auto)]

mod command;
mod draws;
mod iter;
mod kept;
pub mod laws;
mod outcomes;
mod recorded;
mod report;
mod run_set;
mod stage;
mod width;

pub use command::Command;
pub use draws::Draws;
pub use iter::Iter;
pub use kept::Kept;
pub use outcomes::Outcomes;
pub use recorded::{MOST_IN_TURN, Recorded};
pub use report::Report;
pub use run_set::RunSet;
pub use stage::Stage;
pub use width::Width;
