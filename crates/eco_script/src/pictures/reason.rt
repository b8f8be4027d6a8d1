//! Why a system does not join the batch before it.

use eco_frame::{Declared, sync_points_of};
use eco_ids::Pattern;
use eco_systems::Phase;
use eco_world::World;
use std::alloc::{AllocError, Global};

/// Why a system does not join the batch before it. Systems are meant by their positions of declaration.
#[derive(Clone, Copy)]
pub(crate) enum Reason {
    /// This system, which is it or one of the batch, deletes or clears entities.
    Kills(usize),
    /// This system, which is it or one that runs before it, writes traits.
    Traits(usize),
    /// This system of the batch writes what it reads.
    Writes {
        writer: usize,
        write: Pattern,
        read: Pattern,
    },
}

// A system that reads and writes this, and does nothing else.
fn lone_system<'a>(query_reads: &'a [Pattern], writes: &'a [Pattern]) -> Declared<'a> {
    Declared {
        phase: Phase::OnUpdate,
        query_reads,
        body_reads: &[],
        writes,
        kills: false,
    }
}

// Whether writes part their system from a later one that reads this and does nothing else. Of no reads, whether they write traits.
fn parts(
    alloc: Global,
    world: &World,
    writes: &[Pattern],
    reads: &[Pattern],
) -> Result<bool, AllocError> {
    let systems = [lone_system(&[], writes), lone_system(reads, &[])];
    let batches = sync_points_of(alloc, world, &systems)?;
    Ok(batches.len() > 1)
}

// The first of some systems that writes traits.
fn first_of_traits(
    alloc: Global,
    world: &World,
    systems: &[Declared],
    places: &[usize],
) -> Result<Option<Reason>, AllocError> {
    for place in places {
        if let Some(system) = systems.get(*place)
            && parts(alloc, world, system.writes, &[])?
        {
            return Ok(Some(Reason::Traits(*place)));
        }
    }
    Ok(None)
}

// The first of some systems that deletes or clears entities.
fn first_that_kills(systems: &[Declared], batch: &[usize]) -> Option<Reason> {
    for place in batch {
        if let Some(system) = systems.get(*place)
            && system.kills
        {
            return Some(Reason::Kills(*place));
        }
    }
    None
}

// The first of some reads that a write touches.
fn first_touched(
    alloc: Global,
    world: &World,
    write: Pattern,
    reads: &[Pattern],
) -> Result<Option<Pattern>, AllocError> {
    for read in reads {
        if parts(alloc, world, &[write], &[*read])? {
            return Ok(Some(*read));
        }
    }
    Ok(None)
}

// The first write of a system that touches one of some reads, with the read.
fn first_write(
    alloc: Global,
    world: &World,
    writes: &[Pattern],
    reads: &[Pattern],
) -> Result<Option<(Pattern, Pattern)>, AllocError> {
    for write in writes {
        if let Some(read) = first_touched(alloc, world, *write, reads)? {
            return Ok(Some((*write, read)));
        }
    }
    Ok(None)
}

// The first system of a batch that writes one of some reads.
fn first_that_writes(
    alloc: Global,
    world: &World,
    systems: &[Declared],
    batch: &[usize],
    reads: &[Pattern],
) -> Result<Option<Reason>, AllocError> {
    for writer in batch {
        if let Some(system) = systems.get(*writer)
            && let Some((write, read)) = first_write(alloc, world, system.writes, reads)?
        {
            return Ok(Some(Reason::Writes {
                writer: *writer,
                write,
                read,
            }));
        }
    }
    Ok(None)
}

impl Reason {
    /// Why the system at a position does not join a batch. `order` lists systems as they run, to this one at least; those behind it
    /// are in its own batch.
    pub fn find(
        alloc: Global,
        world: &World,
        systems: &[Declared],
        order: &[usize],
        batch: &[usize],
        at: usize,
    ) -> Result<Option<Reason>, AllocError> {
        let Some(system) = systems.get(at) else {
            return Ok(None);
        };
        if system.kills {
            return Ok(Some(Reason::Kills(at)));
        }
        if let Some(reason) = first_that_kills(systems, batch) {
            return Ok(Some(reason));
        }
        if let Some(reason) = first_of_traits(alloc, world, systems, order)? {
            return Ok(Some(reason));
        }
        if let Some(reason) = first_that_writes(alloc, world, systems, batch, system.query_reads)? {
            return Ok(Some(reason));
        }
        first_that_writes(alloc, world, systems, batch, system.body_reads)
    }
}
