//! Where a frame stopped.
use eco_ids::Refusal;

/// A frame that stopped: the batches before the one that stopped are merged, and of that one nothing is (Flecs manual, Systems).
#[derive(Clone, Copy, Debug)]
pub struct FrameStop {
    /// How many batches were merged.
    pub batches: usize,
    /// Why it stopped: `NoMoreIds`, where a draw was refused, or `OutOfMemory`.
    pub refusal: Refusal,
}
