//! Frames: as many workers as pieces are each inside of one at the same time.
ghost use Rattle.std.specs.Prelude.{◌≤◌, false, refl, []};

use crate::frame_runs::runs_alone;
use eco_bodies::{BodyRow, Draws, SystemBody};
use eco_ids::{Entity, Id, Pattern, Refusal};
use eco_stages::Stage;
use eco_world::World;
use std::alloc::Global;
use std::sync::atomic::{AtomicU64, Ordering};
use std::thread::Threads;

const ROWS_OF_A_PIECE: u32 = 64;

// Each piece but the last waits at its first row until the last one has begun, for so many turns. It notes how many have passed.
#[derive(Drop)]
struct Gate<'a> {
    // The index of the first row's entity; each other row has the next one.
    first: u32,
    // How many pieces there are.
    pieces: u32,
    turns: u64,
    opened: &'a AtomicU64,
    passed: &'a AtomicU64,
}

impl Gate<'_> {
    // Waits until the last piece has begun, or in vain.
    fn wait(&self) -> bool {
        for _ in 0..self.turns {
            if self.opened.load(Ordering::SeqCst) == 1 {
                return true;
            }
        }
        false
    }

    // Opens or waits, where a piece begins.
    fn pass(&self, entity: Entity) {
        let row = entity.index.wrapping_sub(self.first);
        if row % ROWS_OF_A_PIECE != 0 {
            return;
        }
        if row / ROWS_OF_A_PIECE + 1 == self.pieces {
            self.opened.store(1, Ordering::SeqCst);
        }
        if self.wait() {
            self.passed.fetch_add(1, Ordering::SeqCst);
        }
    }
}

impl SystemBody for Gate<'_> {
    ghost reads_of = { λ s. [] };

    ghost writes_of = { λ s. [] };

    ghost kills_of = { λ s. false };

    ghost commands = { λ s row draws. [] };

    ghost taken = { λ s row draws. 0 };

    fn reads(&self) -> &[Pattern] {
        &[]
    }

    fn writes(&self) -> &[Pattern] {
        &[]
    }

    fn kills(&self) -> bool {
        false
    }

    fn record<R: BodyRow, D: Draws>(
        &self,
        row: &R,
        _draws: &mut D,
        _stage: &mut Stage,
    ) -> Result<(), Refusal> {
        self.pass(row.entity());
        Ok(())
    }

    ghost declared = { λ s row draws h. tt };

    ghost settled = { λ s row mine later h. (h, refl) };
}

// The tag `T`, and so many entities that have it: the index of the first of them.
fn prepare(world: &mut World, rows: u32) -> Result<u32, Refusal> {
    let tag = Id::One(world.create(Some("T"))?);
    let first = world.high();
    for _ in 0..rows {
        let entity = world.create(None)?;
        world.add(entity, tag)?;
    }
    Ok(first)
}

// Whether as many workers as so many rows have pieces are inside of one each at the same time: each piece but the last waits at
// its first row for the first row of the last.
fn overlap_in<R: Threads + Sync>(
    rt: &R,
    alloc: Global,
    world: &mut World,
    rows: u32,
    pieces: u32,
) -> bool
    requires { (1 ≤ pieces) × (pieces ≤ 64) }
{
    let opened = AtomicU64::new(0);
    let passed = AtomicU64::new(0);
    let Ok(first) = prepare(world, rows) else {
        return false;
    };
    let Ok(query) = world.read_query("T") else {
        return false;
    };
    let gate = Gate {
        first,
        pieces,
        turns: 2_000_000_000,
        opened: &opened,
        passed: &passed,
    };
    runs_alone(rt, alloc, world, query, gate, pieces)
        && passed.load(Ordering::SeqCst) == u64::from(pieces)
}

// Whether they are so in a new world.
fn overlap<R: Threads + Sync>(rt: &R, alloc: Global, rows: u32, pieces: u32) -> bool
    requires { (1 ≤ pieces) × (pieces ≤ 64) }
{
    match World::new(alloc, 1024) {
        Ok(mut world) => overlap_in(rt, alloc, &mut world, rows, pieces),
        Err(_) => false,
    }
}

#[test]
fn workers_of_a_frame_overlap(rt: HostRuntime) {
    assert!(rt; overlap(&rt, rt.alloc(), 65, 2));
    assert!(rt; overlap(&rt, rt.alloc(), 512, 8));
}
