//! Why the program stopped.
use eco_ids::Refusal;
use std::alloc::AllocError;
use std::{fmt, io};

/// Why there are no more lines.
#[derive(Clone, Copy)]
pub enum Failure {
    /// The command line asks for nothing that there is.
    BadArguments,
    /// A call of the world was refused, or memory was wanting elsewhere.
    Refused(Refusal),
    /// The clock or a stream failed.
    Device(io::Error),
    /// A measured call answered something else than what was put in.
    WrongAnswer,
}

impl Failure {
    /// The number that the program ends with.
    pub fn code(&self) -> u8 {
        match self {
            Failure::BadArguments => 64,
            Failure::Refused(_) | Failure::Device(_) | Failure::WrongAnswer => 1,
        }
    }
}

impl fmt::Display for Failure {
    fn fmt<W: fmt::Write>(&self, f: &mut fmt::Formatter<W>) -> fmt::Result {
        match self {
            Failure::BadArguments => write!(f, "bad arguments"),
            Failure::Refused(refusal) => write!(f, "refused {refusal}"),
            Failure::Device(error) => write!(f, "stopped: {error}"),
            Failure::WrongAnswer => write!(
                f,
                "a call answered something else than what was put in"
            ),
        }
    }
}

impl From<Refusal> for Failure {
    fn from(refusal: Refusal) -> Failure {
        Failure::Refused(refusal)
    }
}

impl From<AllocError> for Failure {
    fn from(_error: AllocError) -> Failure {
        Failure::Refused(Refusal::OutOfMemory)
    }
}

impl From<io::Error> for Failure {
    fn from(error: io::Error) -> Failure {
        Failure::Device(error)
    }
}
