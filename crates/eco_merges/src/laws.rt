//! Laws of commands that are done: a function does nothing, and its contract are the laws.
ghost use Rattle.eco_stages.specs.Merging.{BothAreDone, DoneAreCounted, NoneAreDone, OneIsDone};

/// Commands are done in turn: none at first, one by its outcome, some and others after them; and each has an outcome.
pub fn commands_are_done_in_turn()
    ensures none { NoneAreDone }
    ensures one { OneIsDone }
    ensures both { BothAreDone }
    ensures counted { DoneAreCounted }
{
    eco_ids::laws::runs_keep_lawful();
}
