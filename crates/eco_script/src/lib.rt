//! Scripts: read whole, and run step by step on a world of their own, whose lines are written in the order of the steps;
//! and what the texts of a step name in a world, and the lines that show its values, entities and results.
//!
//! A whole world for people, too. As a text ([`printed`]): who lives, by names where there are any, with all ids and values, and the
//! tables. As pictures: its tables, the pairs between its named entities, and the batches of systems on it.
#![tactic(auto)]

mod changes;
mod entities;
mod fault;
pub mod laws;
mod lines;
mod making;
mod named;
pub mod perform;
mod pictures;
mod recording;
mod references;
pub mod reply;
pub mod run;
mod shown_value;
pub mod status;
mod svg;
mod tables;
mod text;

pub use changes::{Change, read_change};
pub use eco_steps::{Counted, DeviceFailed, MOST_READS, ScriptReader, ScriptWriter};
pub use lines::{EntityLine, RowLine};
pub use pictures::{NamedSystems, batches_svg, graph_svg, tables_svg};
pub use recording::{read_actions, record_stages};
pub use references::{read_entity, read_id, read_query};
pub use run::{run_script, run_world};
pub use shown_value::ShownValue;
pub use status::Status;
pub use text::printed;
