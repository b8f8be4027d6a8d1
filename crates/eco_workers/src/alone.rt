//! A batch of one worker: its pieces are recorded one after another, into one stage.
ghost use Rattle.std.specs.Prelude.{◌≡◌, ◌+◌, ◌-◌, ◌≤◌, false, [], IfOk, IfErr};
ghost use Rattle.eco_ids.specs.declared.refusal.Refusal.TheVariants.{NoMoreIds};
ghost use Rattle.eco_workers.specs.Alone.{IsInTurn, IsOutInTurn};
ghost use Rattle.eco_stages.specs.Taking.{by_index, IsStopped};

use crate::counter::Counter;
use crate::piece::Piece;
use eco_ids::Refusal;
use eco_stages::Stage;

// Records the pieces, one after another, until one is refused.
fn record_all<P: Piece>(
    pieces: &[P],
    counter: &mut Counter,
    stage: &mut Stage,
) -> Result<(), Refusal>
    requires new { (counter.old.next ≡ counter.old.base) × (counter.old.dry ≡ false) }
    requires none { stage.old ≡ [] }
    ensures rest { (counter.new.base ≡ counter.old.base) × (counter.new.limit ≡ counter.old.limit) }
    ensures ok { IfOk result (λ _. IsInTurn (by_index P.commands) (by_index P.taken) pieces.now
        counter.new.base (counter.new.next - counter.new.base) stage.new) }
    ensures why { IfErr result (λ e. IsStopped e) }
    ensures out { IfErr result (λ e. e ≡ NoMoreIds → IsOutInTurn (by_index P.commands) (by_index P.taken)
        pieces.now counter.old.base counter.old.limit) }
{
    for piece in pieces {
        piece.record(counter, stage)?;
    }
    Ok(())
}

/// Records the pieces of a batch on the calling thread alone, one after another, all into one stage, whose memory serves again:
/// what it held before goes. Fresh handles are drawn in turn from `base` on, to below `limit`. Answers the stage, and how many
/// handles were drawn.
///
/// Refused with `NoMoreIds` where pieces take more handles than there are, and with `OutOfMemory` where memory is refused: with
/// the refusal of the first piece that was refused.
pub fn run_alone<P: Piece>(
    mut stage: Stage,
    pieces: &[P],
    base: u32,
    limit: u32,
) -> Result<(Stage, u32), Refusal>
    requires { base ≤ limit }
    ensures batch { IfOk result (λ r. IsInTurn (by_index P.commands) (by_index P.taken) pieces.now
        base r.1 r.0) }
    ensures most { IfOk result (λ r. base + r.1 ≤ limit) }
    ensures why { IfErr result (λ e. IsStopped e) }
    ensures out { IfErr result (λ e. e ≡ NoMoreIds
        → IsOutInTurn (by_index P.commands) (by_index P.taken) pieces.now base limit) }
{
    let mut counter = Counter {
        base,
        next: base,
        limit,
        dry: false,
    };
    stage.clear();
    record_all(pieces, &mut counter, &mut stage)?;
    Ok((stage, counter.next - base))
}
