//! What a system does with each row of its query: bodies, what they draw from, and bodies written as lists of actions
//! (Flecs manual, Systems).
#![tactic(auto)]

mod action;
mod body;
mod change;
mod lawful;
mod recording;
mod row;
mod rows;
mod script;
mod sum;
mod systems;
mod writes;

pub use action::{Action, shows_values};
pub use body::SystemBody;
pub use eco_stages::Draws;
pub use lawful::{
    rows_are_recorded_one_by_one, scripts_set_their_own_entries, scripts_take_one_beginning,
    systems_are_lawful,
};
pub use recording::record_command;
pub use row::{BodyRow, LentRow};
pub use rows::BodyRows;
pub use script::Script;
pub use sum::{set_sum_in_row, set_sums_in_rows, sum_of};
pub use systems::{NotAdded, System, Systems};
