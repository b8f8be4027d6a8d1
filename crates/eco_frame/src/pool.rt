//! Memory that serves from frame to frame.

use eco_stages::Stage;
use std::alloc::Global;

/// The memory of stages that were merged, for those of the next batch or frame (Flecs manual, Systems, staging). No contract
/// speaks of what it holds: a stage is empty before it is recorded into.
pub struct StagePool {
    pub(crate) stages: Vec<Stage>,
}

// By hand, so that dropping it is one call: a derived drop is proved anew at each early return of whoever holds it.
impl Drop for StagePool {
    fn drop(self) {
        let StagePool { stages: _ } = self;
    }
}

impl StagePool {
    /// Nothing yet. The list of the stages takes its memory from `alloc`.
    pub fn new(alloc: Global) -> StagePool {
        StagePool {
            stages: Vec::new(alloc),
        }
    }
}
