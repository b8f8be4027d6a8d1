//! One worker: it claims pieces and records each, until there is none.
ghost use Rattle.std.specs.Prelude.{◌≡◌, ℕ, ◌+◌, ◌<◌, ◌≤◌, List, true, false, [], ◌∷◌, ◌++◌, IfOk, IfErr, IfNone};
ghost use Rattle.std.specs.Prelude.{MatchOption, length};
ghost use Rattle.eco_ids.specs.declared.refusal.Refusal.TheVariants.{NoMoreIds};
ghost use Rattle.eco_workers.specs.Rounds.{claimed, drawn, is_dry, piece_count};
ghost use Rattle.eco_stages.specs.Taking.{by_index, IsStopped};
ghost use Rattle.eco_workers.specs.Entries.{entry_of, share_of, IsEntry, IsShare, IsShort, IsStage};
ghost use Rattle.eco_workers.specs.Workers.{IsGoing, HasEnded, IsNewJobOf, IsWorked};

use crate::collected::Collected;
use crate::drawer::Drawer;
use crate::end::End;
use crate::job::Job;
use crate::piece::Piece;
use crate::round::Round;
use crate::worked::Worked;
use eco_ids::Refusal;
use eco_stages::Stage;
use std::alloc::Global;

// A stage whose memory serves again, or else a new one.
fn next_stage(alloc: Global, spare: &mut Vec<Stage>) -> Stage {
    match spare.pop() {
        Some(stage) => stage,
        None => Stage::new(alloc),
    }
}

// Records a piece, with what the seat draws, into a stage whose memory serves again: what it held before goes.
fn record<P: Piece>(mut stage: Stage, piece: &P, drawer: &mut Drawer<'_>) -> Result<Stage, Refusal>
    requires wet { is_dry drawer.old.seat ≡ false }
    ensures claim { drawer.new.seat.claim ≡ drawer.old.seat.claim }
    ensures round { drawer.new.round.now ≡ drawer.old.round.now }
    ensures wet { IfOk result (λ _. is_dry drawer.new.seat ≡ false) }
    ensures why { IfErr result (λ e. IsStopped e) }
    ensures ok { IfOk result (λ stage. (mine : List ℕ)
        × (drawn drawer.new.seat ≡ drawn drawer.old.seat ++ mine)
        × IsStage (by_index P.commands) (by_index P.taken) piece.now mine stage) }
    ensures err { IfErr result (λ e. (mine : List ℕ) × (drawn drawer.new.seat ≡ drawn drawer.old.seat ++ mine)
        × (length mine ≤ by_index P.taken piece.now mine)
        × (e ≡ NoMoreIds → (is_dry drawer.new.seat ≡ true)
        × (length mine < by_index P.taken piece.now mine))) }
{
    stage.clear();
    piece.record(drawer, &mut stage)?;
    Ok(stage)
}

// Records the piece of this number.
fn one_piece<P: Piece>(
    stage: Stage,
    pieces: &[P],
    number: u32,
    drawer: &mut Drawer<'_>,
) -> Result<Collected, Refusal>
    requires number { number < length pieces.now }
    requires wet { is_dry drawer.old.seat ≡ false }
    ensures claim { drawer.new.seat.claim ≡ drawer.old.seat.claim }
    ensures round { drawer.new.round.now ≡ drawer.old.round.now }
    ensures why { IfErr result (λ e. IsStopped e) }
    ensures piece { IfOk result (λ p. (p.number ≡ number) × (is_dry drawer.new.seat ≡ false)
        × ((mine : List ℕ) × (drawn drawer.new.seat ≡ drawn drawer.old.seat ++ mine)
        × IsEntry (by_index P.commands) (by_index P.taken) pieces.now (entry_of p mine))) }
    ensures err { IfErr result (λ e. (mine : List ℕ) × (drawn drawer.new.seat ≡ drawn drawer.old.seat ++ mine)
        × IsShare (by_index P.commands) (by_index P.taken) pieces.now (share_of number mine)
        × (e ≡ NoMoreIds → (is_dry drawer.new.seat ≡ true)
        × IsShort (by_index P.commands) (by_index P.taken) pieces.now (share_of number mine))) }
{
    let stage = record(stage, &pieces[number as usize], drawer)?;
    Ok(Collected { number, stage })
}

// Claims a piece, and records it. Answers how the worker ended, unless it goes on.
fn take_turn<P: Piece>(
    alloc: Global,
    spare: &mut Vec<Stage>,
    pieces: &[P],
    drawer: &mut Drawer<'_>,
    collected: &mut Vec<Collected>,
) -> Option<End>
    requires count { piece_count drawer.old.round.now ≡ length pieces.now }
    requires going { IsGoing (by_index P.commands) (by_index P.taken) pieces.now drawer.old.seat
        collected.old.items }
    ensures round { drawer.new.round.now ≡ drawer.old.round.now }
    ensures one_more { IfNone result (length (claimed drawer.new.seat)
        ≡ length (claimed drawer.old.seat) + 1) }
    ensures turned { MatchOption result
        (IsGoing (by_index P.commands) (by_index P.taken) pieces.now drawer.new.seat collected.new.items)
        (λ end. HasEnded (by_index P.commands) (by_index P.taken) pieces.now end drawer.new.seat
        collected.new.items) }
{
    let Ok(()) = collected.reserve(1) else {
        return Some(End::NoMemory);
    };
    let Some(number) = drawer.round.claim(&mut drawer.seat) else {
        return Some(End::Done);
    };
    match one_piece(next_stage(alloc, spare), pieces, number, drawer) {
        Ok(piece) => {
            collected.push_reserved(piece);
            None
        }
        Err(refusal) => Some(End::Refused(number, refusal)),
    }
}

// Turns until the worker ends.
fn turns<P: Piece>(
    alloc: Global,
    spare: &mut Vec<Stage>,
    pieces: &[P],
    drawer: &mut Drawer<'_>,
    collected: &mut Vec<Collected>,
) -> End
    requires new { claimed drawer.old.seat ≡ [] }
    requires count { piece_count drawer.old.round.now ≡ length pieces.now }
    requires going { IsGoing (by_index P.commands) (by_index P.taken) pieces.now drawer.old.seat
        collected.old.items }
    ensures round { drawer.new.round.now ≡ drawer.old.round.now }
    ensures ended { HasEnded (by_index P.commands) (by_index P.taken) pieces.now result drawer.new.seat
        collected.new.items }
{
    let most = u64::from(drawer.round.pieces()) + 1;
    for _ in 0..most {
        if let Some(end) = take_turn(alloc, spare, pieces, drawer, collected) {
            return end;
        }
    }
    unreachable!()
}

// Claims pieces and records each, until there is none.
pub(crate) fn work<P: Piece>(alloc: Global, round: &Round, pieces: &[P], job: Job) -> Worked
    requires seat { IsNewJobOf round.now job }
    requires count { piece_count round.now ≡ length pieces.now }
    ensures { IsWorked (by_index P.commands) (by_index P.taken) pieces.now round.now result }
{
    let Job { seat, mut spare } = job;
    let mut collected = Vec::new(alloc);
    let mut drawer = Drawer { round, seat };
    let end = turns(alloc, &mut spare, pieces, &mut drawer, &mut collected);
    let Drawer { round: _, seat } = drawer;
    Worked {
        seat,
        pieces: collected,
        end,
    }
}
