//! Chunks of a batch: pieces that follow one another.
ghost use Rattle.std.specs.Prelude.{◌≡◌, ◌+◌, ◌*◌, ◌<◌, ◌≤◌, drop, flat_map, false, length, take, IfErr, IfOk};
ghost use Rattle.eco_stages.specs.Taking.{Broke, Took, stopped_by};
ghost use Rattle.eco_frame.specs.Chunks.{chunk_commands, chunk_pieces, chunk_taken};

use eco_ids::Refusal;
use eco_stages::{Draws, Stage};
use eco_workers::Piece;
use std::alloc::{AllocError, Global};

// How many chunks there are for each worker at least, where there are pieces enough: so whoever is last lets the others wait for
// little.
const EACH: usize = 32;

// How many pieces a chunk has at most. Stages of more would save a merge little.
const MOST: usize = 8;

// Pieces that follow one another, which one worker records into one stage: a merge then has fewer stages to look into, and
// finds longer runs of sets in each.
pub(crate) struct Chunk<'a, P> {
    pub(crate) pieces: &'a [P],
}

// By hand, so that dropping it is one call: a derived drop is proved anew at each early return of whoever holds it.
impl<P> Drop for Chunk<'_, P> {
    fn drop(self) {
        let Chunk { pieces: _ } = self;
    }
}

impl<'a, P> Chunk<'a, P> {
    // So many pieces, from one on.
    fn of(pieces: &'a [P], first: usize, count: usize) -> Chunk<'a, P>
        requires { first + count ≤ length pieces.now }
        ensures { chunk_pieces result ≡ take count (drop first pieces.now) }
    {
        Chunk {
            pieces: &pieces[first..first + count],
        }
    }
}

// Records the pieces, one after another, until one is refused.
fn record_all<P: Piece, D: Draws>(
    pieces: &[P],
    draws: &mut D,
    stage: &mut Stage,
) -> Result<(), Refusal>
    requires { D.is_dry draws.old ≡ false }
    ensures rest { D.rest draws.new ≡ D.rest draws.old }
    ensures wet { IfOk result (λ _. D.is_dry draws.new ≡ false) }
    ensures ok { IfOk result (λ _. Took (chunk_commands P.taken P.commands pieces.now)
        (chunk_taken P.taken pieces.now) (D.so_far draws.old) (D.so_far draws.new) stage.old stage.new) }
    ensures why { IfErr result (λ why. why ≡ stopped_by (D.is_dry draws.new)) }
    ensures err { IfErr result (λ _. Broke (chunk_taken P.taken pieces.now)
        (D.so_far draws.old) (D.so_far draws.new) (D.is_dry draws.new)) }
{
    for piece in pieces {
        piece.record(draws, stage)?;
    }
    Ok(())
}

impl<P: Piece> Piece for Chunk<'_, P> {
    ghost commands = { λ s. chunk_commands P.taken P.commands s.pieces.now };

    ghost taken = { λ s. chunk_taken P.taken s.pieces.now };

    fn record<D: Draws>(&self, draws: &mut D, stage: &mut Stage) -> Result<(), Refusal> {
        record_all(self.pieces, draws, stage)
    }
}

// How many pieces a chunk has, where there are so many for so many workers: one, unless there are 64 and more for each.
fn chunk_size(pieces: usize, workers: u32) -> usize
    requires { 1 ≤ workers }
    ensures few { pieces < 64 * workers → result ≡ 1 }
    ensures many { 64 * workers ≤ pieces → 1 < result }
    ensures most { (1 ≤ result) × (result ≤ 8) }
{
    let least = EACH * workers as usize;
    (pieces / least).clamp(1, MOST)
}

// The pieces in their order, as chunks for so many workers: each a chunk, unless there are 64 and more for each worker.
pub(crate) fn chunks<'a, P>(
    alloc: Global,
    pieces: &'a [P],
    workers: u32,
) -> Result<Vec<Chunk<'a, P>>, AllocError>
    requires { 1 ≤ workers }
    ensures whole { IfOk result (λ v. flat_map chunk_pieces v.items ≡ pieces.now) }
    ensures few { IfOk result (λ v. length pieces.now < 64 * workers → length v.items ≡ length pieces.now) }
    ensures many { IfOk result (λ v. 64 * workers ≤ length pieces.now
        → 2 * length v.items ≤ length pieces.now + 1) }
    ensures most { IfOk result (λ v. length pieces.now ≤ 8 * length v.items) }
{
    let size = chunk_size(pieces.len(), workers);
    let mut chunks = Vec::with_capacity(alloc, pieces.len().div_ceil(size))?;
    let mut first = 0;
    while first < pieces.len() {
        let count = size.min(pieces.len() - first);
        chunks.push(Chunk::of(pieces, first, count))?;
        first += count;
    }
    Ok(chunks)
}
