//! The systems of a batch with their rows, and the pieces of these.
ghost use Rattle.std.specs.Prelude.{◌≡◌, ◌++◌, ◌<◌, flat_map, length, map, IfErr, IfOk, OnOk};
ghost use Rattle.std.specs.List.{All};
ghost use Rattle.eco_ids.specs.declared.refusal.Refusal.TheVariants.{OutOfMemory};
ghost use Rattle.eco_frame.specs.Pieces.{part_at, body_with_rows, pieces_in, seen_part, seen_piece};

use crate::piece::RowsPiece;
use crate::system_rows::SystemRows;
use eco_bodies::{System, SystemBody};
use eco_ids::Refusal;
use eco_world::World;
use std::alloc::{AllocError, Global};

// How many rows a piece has; the last of a system may have fewer.
const PIECE: usize = 64;

// A system's body, with the rows of its query.
pub(crate) struct Part<'a, B> {
    pub(crate) body: &'a B,
    pub(crate) rows: SystemRows<'a>,
}

impl<B> Drop for Part<'_, B> {
    fn drop(self) {
        let Part { body: _, rows: _ } = self;
    }
}

// Asks a world for the rows of a system.
fn ask<'a, B: SystemBody>(
    alloc: Global,
    world: &'a World,
    system: &'a System<B>,
) -> Result<Part<'a, B>, Refusal>
    ensures ok { IfOk result (λ p. seen_part p ≡ body_with_rows world.now system.now) }
    ensures err { IfErr result (λ why. why ≡ OutOfMemory) }
{
    let rows = SystemRows::of(alloc, world, &system.query)?;
    Ok(Part {
        body: &system.body,
        rows,
    })
}

// The systems at some positions of declaration, on a world.
pub(crate) fn parts<'a, B: SystemBody>(
    alloc: Global,
    world: &'a World,
    systems: &'a [System<B>],
    places: &[usize],
) -> Result<Vec<Part<'a, B>>, Refusal>
    requires { All (λ k. k < length systems.now) places.now }
    ensures ok { IfOk result (λ ps. map seen_part ps.items
        ≡ flat_map (part_at world.now systems.now) places.now) }
    ensures err { IfErr result (λ why. why ≡ OutOfMemory) }
{
    let mut parts = Vec::with_capacity(alloc, places.len())?;
    for place in places {
        parts.push(ask(alloc, world, &systems[*place])?)?;
    }
    Ok(parts)
}

// Puts the pieces of a part behind others.
fn add_pieces<'a, B: SystemBody>(
    part: &'a Part<'a, B>,
    pieces: &mut Vec<RowsPiece<'a, B>>,
) -> Result<(), AllocError>
    ensures { OnOk result (map seen_piece pieces.new.items
        ≡ map seen_piece pieces.old.items ++ pieces_in (seen_part part.now)) }
{
    let mut first = 0;
    while first < part.rows.len() {
        let end = first + PIECE.min(part.rows.len() - first);
        pieces.push(RowsPiece {
            body: part.body,
            rows: &part.rows,
            first,
            end,
        })?;
        first = end;
    }
    Ok(())
}

// The pieces of all parts, by part.
pub(crate) fn pieces<'a, B: SystemBody>(
    alloc: Global,
    parts: &'a [Part<'a, B>],
) -> Result<Vec<RowsPiece<'a, B>>, AllocError>
    ensures { IfOk result (λ ps. map seen_piece ps.items ≡ flat_map pieces_in (map seen_part parts.now)) }
{
    // Most parts have one piece.
    let mut pieces = Vec::with_capacity(alloc, parts.len())?;
    for part in parts {
        add_pieces(part, &mut pieces)?;
    }
    Ok(pieces)
}
