//! The laws of the texts that scripts have: a function that does nothing, and its contract is the laws.
ghost use Rattle.eco_script.specs.Laws.{HaveOneText, MayBeText};

/// The text of a run is determined, but for want of memory and for the draws of several workers.
pub fn runs_have_one_text()
    ensures one { HaveOneText }
    ensures may_be { MayBeText }
{
    eco_bodies::scripts_take_one_beginning();
    eco_ids::laws::steps_have_one_end();
    eco_systems::laws::draws_decide_frames();
    eco_grammar::laws::texts_read_once();
}
