//! The order in which systems run.
ghost use Rattle.std.specs.Prelude.{◌≡◌, ◌++◌, flat_map, IfOk, OnOk};
ghost use Rattle.eco_systems.specs.Phases.{order_of, positions_from};
ghost use Rattle.eco_frame.specs.Outlines.{systems_of};

use crate::declared_system::Declared;
use eco_systems::{PHASES, Phase};
use std::alloc::{AllocError, Global};

// Puts the positions of the systems of a phase behind others.
fn add_positions(
    systems: &[Declared],
    phase: Phase,
    order: &mut Vec<usize>,
) -> Result<(), AllocError>
    ensures { OnOk result (order.new.items
        ≡ order.old.items ++ positions_from phase 0 (systems_of systems.now)) }
{
    for position in 0..systems.len() {
        if systems[position].phase.rank() == phase.rank() {
            order.push(position)?;
        }
    }
    Ok(())
}

// The same of some phases, one after another.
fn add_phases(
    systems: &[Declared],
    phases: &[Phase],
    order: &mut Vec<usize>,
) -> Result<(), AllocError>
    ensures { OnOk result (order.new.items ≡ order.old.items
        ++ flat_map (λ phase. positions_from phase 0 (systems_of systems.now)) phases.now) }
{
    for phase in phases {
        add_positions(systems, *phase, order)?;
    }
    Ok(())
}

/// The positions of declaration, by phase, and within a phase as declared.
pub(crate) fn running_order(alloc: Global, systems: &[Declared]) -> Result<Vec<usize>, AllocError>
    ensures { IfOk result (λ order. order.items ≡ order_of (systems_of systems.now)) }
{
    let mut order = Vec::with_capacity(alloc, systems.len())?;
    add_phases(systems, &PHASES, &mut order)?;
    Ok(order)
}
