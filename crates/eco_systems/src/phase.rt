//! When a system runs.
ghost use Rattle.std.specs.Prelude.{◌≡◌};
ghost use Rattle.eco_systems.specs.Phases.{phase_rank};

/// The phases of a frame, in the order in which they run (Flecs manual, Systems, "Builtin pipelines"). Within a phase systems
/// run as they were declared. A change of phase alone makes no sync point.
#[derive(Clone, Copy, Debug, PartialEq, Eq)]
pub enum Phase {
    /// The first phase.
    OnLoad,
    /// After `OnLoad`.
    PostLoad,
    /// Before `OnUpdate`.
    PreUpdate,
    /// Where most systems run.
    OnUpdate,
    /// After `OnUpdate`.
    OnValidate,
    /// After `OnValidate`.
    PostUpdate,
    /// Before `OnStore`.
    PreStore,
    /// The last phase.
    OnStore,
}

/// All phases, in their order.
pub const PHASES: [Phase; 8] = [
    Phase::OnLoad,
    Phase::PostLoad,
    Phase::PreUpdate,
    Phase::OnUpdate,
    Phase::OnValidate,
    Phase::PostUpdate,
    Phase::PreStore,
    Phase::OnStore,
];

impl Phase {
    /// Its place among the phases, from 0.
    pub fn rank(self) -> u8
        ensures { result ≡ phase_rank self }
    {
        match self {
            Phase::OnLoad => 0,
            Phase::PostLoad => 1,
            Phase::PreUpdate => 2,
            Phase::OnUpdate => 3,
            Phase::OnValidate => 4,
            Phase::PostUpdate => 5,
            Phase::PreStore => 6,
            Phase::OnStore => 7,
        }
    }
}
