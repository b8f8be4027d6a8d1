//! The batches of listed systems.
ghost use Rattle.std.specs.Prelude.{◌≡◌, IfOk, map};
ghost use Rattle.std.specs.List.{AllZip};
ghost use Rattle.eco_frame.specs.Models.{AreOneByOne, ArePlaced, Declares, model_of};

use crate::Declared;
use crate::frame::are_lawful;
use eco_bodies::{System, SystemBody, Systems};
use eco_traits::Holdings;
use std::alloc::{AllocError, Global};

/// What a system declares, which decides into which batch it goes (Flecs manual, Systems, staging).
pub fn declaration<B: SystemBody>(system: &System<B>) -> Declared<'_>
    ensures { Declares
        (model_of B.reads_of B.writes_of B.kills_of B.taken B.commands system.now) result }
{
    Declared {
        phase: system.phase,
        query_reads: &system.query_reads,
        body_reads: system.body.reads(),
        writes: system.body.writes(),
        kills: system.body.kills(),
    }
}

// What each of some systems declares.
pub(crate) fn declarations<B: SystemBody>(
    alloc: Global,
    systems: &[System<B>],
) -> Result<Vec<Declared<'_>>, AllocError>
    ensures { IfOk result (λ ds. AllZip (λ s d. Declares
        (model_of B.reads_of B.writes_of B.kills_of B.taken B.commands s) d) systems.now ds.items) }
{
    let mut declarations = Vec::with_capacity(alloc, systems.len())?;
    for system in systems {
        declarations.push(declaration(system))?;
    }
    Ok(declarations)
}

/// The batches between sync points (Flecs manual, Systems, "Sync points"), as lists of positions of declaration in the order
/// in which the systems run; see [`sync_points_of`]. `AllocError` comes where memory for them, or for what the
/// systems declare, is refused.
pub fn sync_points<H: Holdings, B: SystemBody + Drop>(
    alloc: Global,
    holdings: &H,
    systems: &Systems<B>,
) -> Result<Vec<Vec<usize>>, AllocError>
    ensures batches { IfOk result (λ batches. ArePlaced (H.world holdings.now)
        (map (model_of B.reads_of B.writes_of B.kills_of B.taken B.commands) systems.now)
        (map (λ b. b.items) batches.items)) }
    ensures one_by_one { AreOneByOne (H.world holdings.now)
        (map (model_of B.reads_of B.writes_of B.kills_of B.taken B.commands) systems.now) }
{
    eco_systems::laws::systems_are_ordered();
    eco_systems::laws::frames_are_one_by_one();
    are_lawful(systems.as_slice());
    let declared = declarations(alloc, systems.as_slice())?;
    crate::sync_points_of(alloc, holdings, &declared)
}
