//! What a system declares.
use eco_ids::Pattern;
use eco_systems::Phase;

/// What a system declares of itself (Flecs manual, Systems, "Sync points"): when it runs, all patterns that it reads, those that it
/// writes, and whether it deletes or clears entities. It borrows them, so a frame that asks anew each time copies nothing.
#[derive(Clone, Copy, Debug)]
pub struct Declared<'a> {
    /// When it runs.
    pub phase: Phase,
    /// The patterns of its query, whatever their access.
    pub query_reads: &'a [Pattern],
    /// The patterns that its body reads besides.
    pub body_reads: &'a [Pattern],
    /// The patterns that match what it adds, sets and removes.
    pub writes: &'a [Pattern],
    /// Whether it deletes or clears entities.
    pub kills: bool,
}
