//! Sync points: systems joined one by one into batches.
ghost use Rattle.std.specs.Prelude.{◌≡◌, [], map, slice_get, IfOk, List, OnOk, option_copied, ℕ};
ghost use Rattle.std.specs.List.{list_any};
ghost use Rattle.eco_frame.specs.Open.{IsOpen, JoinsNext};
ghost use Rattle.eco_frame.specs.Outlines as spec;
ghost use Rattle.eco_frame.specs.Outlines.{ArePlacedBatches, clash_at, cut_of, late_at};
ghost use Rattle.eco_systems.specs.Joining.{batched};

use crate::declared_system::Declared;
use crate::open_batch::Batch;
use crate::order::running_order;
use crate::outline::{Outlines, work_out};
use eco_traits::Holdings;
use std::alloc::{AllocError, Global};

// Whether the system at a position or one before it writes traits, where it is known of those before it.
fn is_late(outlines: &Outlines, before: bool, at: usize) -> bool
    ensures { (done : List ℕ) → before ≡ list_any (λ k. spec.traits_in (slice_get outlines.now k)) done
        → result ≡ late_at outlines.now done at }
{
    let own = outlines.writes_traits(at);
    before || own
}

// What the system at a position declares.
fn declared_at<'a, 'b>(systems: &'b [Declared<'a>], at: usize) -> Option<&'b Declared<'a>>
    ensures { option_copied result ≡ slice_get systems.now at }
{
    systems.get(at)
}

// The system at a position joins the open batch, or opens the next.
fn join_next(
    alloc: Global,
    outlines: &Outlines,
    systems: &[Declared],
    at: usize,
    late: bool,
    done: &mut Vec<Vec<usize>>,
    batch: &mut Batch,
) -> Result<(), AllocError>
    ensures { OnOk result ((before rest : List ℕ) → late ≡ late_at outlines.now before at
        → IsOpen outlines.now batch.old → JoinsNext outlines.now systems.now before at rest
        (map (λ b. b.items) done.old.items) batch.old (map (λ b. b.items) done.new.items) batch.new) }
{
    if batch.clashes(declared_at(systems, at), late) {
        done.push(batch.take(alloc)?)?;
        return batch.add(outlines, at);
    }
    batch.add(outlines, at)
}

// Joins the systems one by one, in the order in which they run.
fn join(
    alloc: Global,
    outlines: &Outlines,
    systems: &[Declared],
    order: &[usize],
) -> Result<Vec<Vec<usize>>, AllocError>
    ensures { IfOk result (λ batches. map (λ b. b.items) batches.items
        ≡ batched (clash_at outlines.now systems.now) [] [] order.now) }
{
    let mut done = Vec::new(alloc);
    let mut batch = Batch::with_capacity(alloc, order.len())?;
    let mut late = false;
    for at in order {
        late = is_late(outlines, late, *at);
        join_next(alloc, outlines, systems, *at, late, &mut done, &mut batch)?;
    }
    done.push(batch.take(alloc)?)?;
    Ok(done)
}

// The batches of all systems, whose positions are listed as they run.
pub(crate) fn cut(
    alloc: Global,
    outlines: &Outlines,
    systems: &[Declared],
    order: &[usize],
) -> Result<Vec<Vec<usize>>, AllocError>
    ensures { IfOk result (λ batches. map (λ b. b.items) batches.items
        ≡ cut_of outlines.now systems.now order.now) }
{
    if order.is_empty() {
        return Ok(Vec::new(alloc));
    }
    join(alloc, outlines, systems, order)
}

/// The batches between sync points (Flecs manual, Systems, "Sync points"), as lists of positions of declaration in the order
/// in which the systems run. A sync point stands behind the last system of each batch: what is recorded for a batch on one
/// world is what one system after another would record.
///
/// A system joins the open batch unless a closed write of a system of that batch overlaps one of its reads; one that kills
/// stands alone, and so does one that writes traits and every one after it. `AllocError` comes where memory for the closed
/// writes or the batches is refused.
pub fn sync_points_of<H: Holdings>(
    alloc: Global,
    holdings: &H,
    systems: &[Declared],
) -> Result<Vec<Vec<usize>>, AllocError>
    ensures { IfOk result (λ batches. ArePlacedBatches (H.world holdings.now) systems.now
        (map (λ b. b.items) batches.items)) }
{
    eco_systems::laws::systems_are_ordered();
    eco_systems::laws::batches_are_unique();
    let order = running_order(alloc, systems)?;
    let outlines = work_out(alloc, holdings, systems)?;
    cut(alloc, &outlines, systems, &order)
}
