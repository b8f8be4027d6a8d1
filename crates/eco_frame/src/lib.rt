//! Frames: the batches of a list of systems, and their runs (Flecs manual, Systems). Who runs frames finds here what systems and
//! bodies are, too, and which systems of a frame are recorded on one world ([`sync_points_of`]; Flecs manual, Systems, "Sync points").
//!
//! Components that are Rust types ([`Component`]): a type whose fields are those of a component's values, ids that keep to such a type
//! ([`TypedId`]), and columns as its values (Flecs manual, Entities and Components).
#![tactic(auto)]

mod batch;
mod brought;
mod chunk;
mod closed;
mod column;
mod column_row;
mod column_rows;
mod component;
mod declared_system;
mod frame;
mod key;
mod open_batch;
mod order;
mod outline;
mod part;
mod piece;
mod pipeline;
mod plan;
mod points;
mod pool;
mod progress;
mod report;
mod row;
mod row_columns;
mod stop;
mod sync;
mod system_rows;
mod typed_column;
mod typed_id;
mod written;

pub use component::Component;
pub use declared_system::Declared;
pub use eco_bodies::{
    Action, BodyRow, BodyRows, Draws, LentRow, NotAdded, Script, System, SystemBody, Systems,
    record_command,
};
pub use eco_systems::{PHASES, Phase};
pub use frame::{run_frame, run_frame_with};
pub use pipeline::Pipeline;
pub use plan::Plan;
pub use points::{declaration, sync_points};
pub use pool::StagePool;
pub use report::FrameReport;
pub use stop::FrameStop;
pub use sync::sync_points_of;
pub use typed_column::TypedColumn;
pub use typed_id::TypedId;
