//! Laws of sets of ids in turn: a function does nothing, and its contract are the laws.
ghost use Rattle.eco_stages.specs.Recorded.{InTurnAreCounted, InTurnGoOn, InTurnOneMore};

/// Sets of ids in turn are as many commands; some of them are such sets, and so are the others behind them; and so many and one
/// more are those and a set of the id whose turn it is.
pub fn sets_come_in_turn()
    ensures counted { InTurnAreCounted }
    ensures on { InTurnGoOn }
    ensures more { InTurnOneMore }
{}
