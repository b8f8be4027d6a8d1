//! Laws of merges: each function does nothing, and its contract is the law.
ghost use Rattle.eco_shared.specs.Repeating.{MergesHaveOneEnd};

/// From one world the same merge, with memory wanting for the same commands, has one report and leads to one world.
pub fn merges_have_one_end()
    ensures { MergesHaveOneEnd }
{}
