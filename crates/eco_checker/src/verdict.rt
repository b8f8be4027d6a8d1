//! How a check ended.

ghost use Rattle.std.specs.Prelude.{◌≡◌};
ghost use Rattle.eco_checker.specs.Verdicts.{verdict_code};

/// How a check ended, and with it the number that the program ends with.
#[derive(Clone, Copy, Debug, PartialEq, Eq)]
pub enum Verdict {
    /// The input is a script: 0.
    Script,
    /// A device failed, the input had no end, or memory was wanting: 1.
    Stopped,
    /// The input is no script, and its faults were written: 2.
    NotAScript,
}

impl Verdict {
    /// The number that the program ends with.
    pub fn code(self) -> u8
        ensures { result ≡ verdict_code self }
    {
        match self {
            Verdict::Script => 0,
            Verdict::Stopped => 1,
            Verdict::NotAScript => 2,
        }
    }
}
