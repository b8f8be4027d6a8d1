//! Why an input was not read to its end.

/// Why an input was not read to its end.
#[derive(Clone, Copy, Debug, PartialEq, Eq)]
pub enum ReadFault {
    /// A call failed, or the calls met no end.
    Device,
    /// The bytes found no memory.
    Memory,
}
