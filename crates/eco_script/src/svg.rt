//! Pictures as SVG: lines of text of known width, frames round them, and ties between places.

mod ink;
mod marks;
mod sheet;
mod ties;

pub use ink::Ink;
pub use sheet::{Sheet, width_of};
