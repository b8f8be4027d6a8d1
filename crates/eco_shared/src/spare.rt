//! The merger's own world, which nobody is to enter while it is changed.
ghost use Rattle.std.specs.Prelude.{◌≡◌, Ok, Some, IfSome, IfNone};
ghost use Rattle.std.specs.Arc.{arc_value};
ghost use Rattle.eco_stages.specs.Merging.{all_commands};
ghost use Rattle.eco_world.specs.Merging.{Merges};
ghost use Rattle.eco_shared.specs.Repeating.{Leads};

use crossbeam_utils::Backoff;
use eco_stages::{Report, Stage};
use eco_world::World;
use std::slice;
use std::sync::Arc;

// How often the merger looks whether the world before the last merge is left by all. With the pauses between two looks this takes
// some tens of milliseconds, about as long as the copy that is made then.
const MOST_LOOKS: u32 = 65_536;

/// A merge that was made on the world that is shown, with all that it takes to make it once more.
pub struct Last {
    pub admitted: u32,
    pub commands: Stage,
    pub report: Report,
}

// By hand, so that dropping it is one call: a derived drop is proved anew at each early return of whoever holds it.
impl Drop for Last {
    fn drop(self) {
        let Last {
            admitted: _,
            commands: _,
            report: _,
        } = self;
    }
}

/// A world that comes to the one that is shown by one merge, or is the same.
pub struct Spare {
    pub world: Arc<World>,
    pub last: Option<Last>,
}

// By hand, as above.
impl Drop for Spare {
    fn drop(self) {
        let Spare { world: _, last: _ } = self;
    }
}

impl Spare {
    /// Its parts.
    pub fn into_parts(self) -> (Arc<World>, Option<Last>)
        ensures { (result.0 ≡ self.world) × (result.1 ≡ self.last) }
    {
        let Spare { world, last } = self;
        (world, last)
    }
}

// Waits until nobody else owns the world, but not for ever: a viewer may hold a view as long as it likes.
fn wait_alone(world: &Arc<World>) {
    let backoff = Backoff::new();
    for _ in 0..MOST_LOOKS {
        if Arc::strong_count(world) == 1 {
            return;
        }
        backoff.snooze();
    }
}

/// Merges in place. There is no report where the world has another owner or memory was refused, and then the world is as before.
pub fn merge_in(world: &mut Arc<World>, admitted: u32, stages: &[Stage]) -> Option<Report>
    ensures some { IfSome result (λ report. Merges (arc_value world.old) admitted (all_commands stages.now)
        (Ok report) (arc_value world.new)) }
    ensures none { IfNone result (arc_value world.new ≡ arc_value world.old) }
{
    Arc::get_mut(world)?.merge(admitted, stages).ok()
}

/// The merge once more, on the world before it. There is none where somebody stays in that world, or where memory was refused to
/// the one merge and not to the other.
pub fn again(world: Arc<World>, last: &Last) -> Option<Arc<World>>
    ensures { IfSome result (λ after. Leads (arc_value world) (Some last.now) (arc_value after)) }
{
    wait_alone(&world);
    let mut world = world;
    let report = merge_in(&mut world, last.admitted, slice::from_ref(&last.commands))?;
    if report.is_alike(&last.report) {
        Some(world)
    } else {
        None
    }
}
