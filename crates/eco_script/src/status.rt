//! How a run ended.

ghost use Rattle.std.specs.Prelude.{◌≡◌};
ghost use Rattle.std.specs.Option.{option_copied};
ghost use Rattle.eco_script.specs.Statuses.{code_of, message_of};

/// How the program ended, and with it the number that it ends with.
#[derive(Clone, Copy, Debug, PartialEq, Eq)]
pub enum Status {
    /// The script was run, whatever its steps answered: 0.
    Ran,
    /// A device failed, the input had no end, or memory was wanting outside a step: 1.
    Stopped,
    /// The input is no script, and nothing was written: 2.
    NotRead,
    /// The command line asks for nothing that there is: 64.
    BadArguments,
}

impl Status {
    /// The number that the program ends with.
    pub fn code(self) -> u8
        ensures { result ≡ code_of self }
    {
        match self {
            Status::Ran => 0,
            Status::Stopped => 1,
            Status::NotRead => 2,
            Status::BadArguments => 64,
        }
    }

    /// What the program says on standard error, if anything.
    pub fn message(self) -> Option<&'static str>
        ensures { option_copied result ≡ message_of self }
    {
        match self {
            Status::Ran => None,
            Status::Stopped => Some("flecsrun: stopped"),
            Status::NotRead => Some("flecsrun: script not read"),
            Status::BadArguments => Some("flecsrun: bad arguments"),
        }
    }
}
