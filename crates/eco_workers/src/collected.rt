//! What a worker has recorded.
use eco_stages::Stage;

// A piece's number, and its stage.
#[derive(Drop)]
pub(crate) struct Collected {
    pub(crate) number: u32,
    pub(crate) stage: Stage,
}
