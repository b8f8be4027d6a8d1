//! Stages in the order of their pieces.
ghost use Rattle.std.specs.Prelude.{◌≡◌, ◌<◌, [], replicate, IfOk};
ghost use Rattle.std.specs.List.{All};
ghost use Rattle.eco_workers.specs.Batches.{placed_stages};

use crate::collected::Collected;
use eco_stages::Stage;
use std::alloc::{AllocError, Global};

// So many stages, with nothing recorded.
fn empty_stages(alloc: Global, count: u32) -> Result<Vec<Stage>, AllocError>
    ensures { IfOk result (λ v. v.items ≡ replicate count []) }
{
    let mut stages = Vec::with_capacity(alloc, count as usize)?;
    for _ in 0..count {
        stages.push_reserved(Stage::new(alloc));
    }
    Ok(stages)
}

// The stages in the order of their pieces' numbers.
pub(crate) fn place(
    alloc: Global,
    count: u32,
    pieces: Vec<Collected>,
) -> Result<Vec<Stage>, AllocError>
    requires { All (λ p. p.number < count) pieces.items }
    ensures { IfOk result (λ v. v.items ≡ placed_stages pieces.items (replicate count [])) }
{
    let mut stages = empty_stages(alloc, count)?;
    for piece in pieces {
        let Collected { number, stage } = piece;
        stages[number as usize] = stage;
    }
    Ok(stages)
}
