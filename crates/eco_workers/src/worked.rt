//! What a worker gives back.
use crate::collected::Collected;
use crate::end::End;
use crate::seat::Seat;

// Its seat, what it has recorded, and how it ended.
#[derive(Drop)]
pub(crate) struct Worked {
    pub(crate) seat: Seat,
    pub(crate) pieces: Vec<Collected>,
    pub(crate) end: End,
}
