//! What ends the program early.

use std::alloc::AllocError;
use std::io;

/// A device failed, or memory was wanting.
#[derive(Clone, Copy)]
pub struct Stopped;

impl From<AllocError> for Stopped {
    fn from(_error: AllocError) -> Stopped {
        Stopped
    }
}

impl From<io::Error> for Stopped {
    fn from(_error: io::Error) -> Stopped {
        Stopped
    }
}
