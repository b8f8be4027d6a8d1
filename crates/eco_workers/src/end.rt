//! How a worker ended.
use eco_ids::Refusal;

// There was no further piece, no memory for one, or a piece was refused.
#[derive(Clone, Copy)]
pub(crate) enum End {
    Done,
    NoMemory,
    Refused(u32, Refusal),
}
