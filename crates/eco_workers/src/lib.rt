//! Workers: rounds of pieces and of fresh handles that threads claim and draw side by side, each exactly once; the pieces of a
//! batch, recorded by some threads, and their stages put in order (Flecs manual, Systems, multithreading).
#![tactic(auto)]

mod alone;
mod batch;
mod collected;
mod counter;
mod drawer;
mod end;
mod job;
mod order;
mod piece;
mod round;
mod seat;
mod worked;
mod worker;

pub use alone::run_alone;
pub use batch::{count_pieces, run_batch};
pub use piece::Piece;
pub use round::Round;
pub use seat::Seat;
