//! Laws of frames: each function does nothing, and its contract is the law.
ghost use Rattle.std.specs.Prelude.{◌≡◌};
ghost use Rattle.eco_systems.specs.Laws.{AscendingAreFresh, BatchesAreUnique, BatchesExist, DrawsDecide, EntriesAreRead, FramesAreSolo};
ghost use Rattle.eco_systems.specs.Laws.{FramesExist, FramesKeepLawful, HeadlessAreAmong, HeadsAreAmong, HeadsBring};
ghost use Rattle.eco_systems.specs.Laws.{JoiningMakesBatches};
ghost use Rattle.eco_systems.specs.Laws.{NoneAreListed, OneMoreIsListed, OneWorkerDecides, OrderHasSystems};
ghost use Rattle.eco_systems.specs.Laws.{RefusedCommandsChangeNothing, StoppedAreSolo, StoppedAtOnceChangesNothing, StoppedHaveMore};
ghost use Rattle.eco_systems.specs.Phases.{phases};
ghost use Rattle.eco_systems.specs.declared.phase.TheConstants.{PHASES};

/// Every frame is the run of its systems one by one, and so is what was done of a frame that stopped.
pub fn frames_are_one_by_one()
    ensures whole { FramesAreSolo }
    ensures stopped { StoppedAreSolo }
{}

/// A frame that stopped has batches left: to merge all and then answer a refusal is no frame.
pub fn stopped_frames_have_batches_left()
    ensures { StoppedHaveMore }
{}

/// Each lawful world has a frame, or one that stops where no indices are left, and it stays lawful.
pub fn frames_exist()
    ensures exist { FramesExist }
    ensures lawful { FramesKeepLawful }
{}

/// The draws of a frame decide its outcomes and its last world, where memory was ample, and one worker's draws are decided too.
pub fn draws_decide_frames()
    ensures given { DrawsDecide }
    ensures alone { OneWorkerDecides }
{}

/// What is refused changes nothing: a command, and the first batch of a frame.
pub fn refused_changes_nothing()
    ensures command { RefusedCommandsChangeNothing }
    ensures batch { StoppedAtOnceChangesNothing }
{}

/// There is one way to cut systems into batches, a lawful world has it, and joining them one by one finds it.
pub fn batches_are_unique()
    ensures exist { BatchesExist }
    ensures unique { BatchesAreUnique }
    ensures joining { JoiningMakesBatches }
{}

/// An entry of a row is an id that its slot reads, and a `!` slot has none.
pub fn entries_are_read()
    ensures { EntriesAreRead }
{}

/// By With a pattern brings what has another head: the target of such a pair of its own head, be it a single or the relationship
/// of its pairs.
pub fn heads_bring_patterns()
    ensures { HeadsBring }
{}

/// Closed writes are listed pattern by pattern: no patterns have none, one more pattern adds its own, a pattern with a head has
/// those with the heads that With leads to, and one without a head is closed by itself.
pub fn closed_writes_are_listed()
    ensures none { NoneAreListed }
    ensures more { OneMoreIsListed }
    ensures heads { HeadsAreAmong }
    ensures headless { HeadlessAreAmong }
{}

/// Draws that ascend over all pieces are fresh.
pub fn ascending_draws_are_fresh()
    ensures { AscendingAreFresh }
{}

/// Systems run by phase, and within a phase as they were declared.
pub fn systems_are_ordered()
    ensures order { OrderHasSystems }
    ensures phases { PHASES ≡ phases }
{}
