//! Devices over the readers and writers of std.

ghost use Rattle.std.specs.Prelude.{◌≡◌, ◌+◌, ◌<◌, ◌≤◌, length, take, IfOk, OnErr};
ghost use Rattle.std.specs.Io.KnownBytes.{Appends, Consumes, IsAtEnd, Keeps};

use crate::device::{DeviceFailed, ScriptReader, ScriptWriter};
use std::io::{ErrorKind, Read, Write};

// A read that is made again where a signal came before any byte.
fn read_again<R: Read>(reader: &mut R, buffer: &mut [u8]) -> Result<usize, DeviceFailed>
    ensures within { IfOk result (λ n. n ≤ length buffer.new) }
    ensures consumed { IfOk result (λ n. Consumes (R.remaining reader.old) (R.remaining reader.new)
        (take n buffer.new)) }
    ensures ended { IfOk result (λ n. n ≡ 0 → 0 < length buffer.new → IsAtEnd (R.remaining reader.new)) }
{
    for _ in 0..u64::MAX {
        match reader.read(buffer) {
            Ok(n) => return Ok(n),
            Err(e) if e.kind() == ErrorKind::Interrupted => {}
            Err(_) => break,
        }
    }
    Err(DeviceFailed)
}

// A write that is made again where a signal came before any byte. The error is a call that failed, or took
// none.
fn write_again<W: Write>(writer: &mut W, rest: &[u8]) -> Result<usize, DeviceFailed>
    ensures within { IfOk result (λ n. n ≤ length rest.now) }
    ensures takes { IfOk result (λ n. 0 < n) }
    ensures appends { IfOk result (λ n. Appends (W.contents writer.old) (W.contents writer.new)
        (take n rest.now)) }
    ensures keeps { OnErr result (Keeps (W.contents writer.old) (W.contents writer.new)) }
{
    for _ in 0..u64::MAX {
        match writer.write(rest) {
            Ok(n) if n > 0 => return Ok(n),
            Err(e) if e.kind() == ErrorKind::Interrupted => {}
            _ => break,
        }
    }
    Err(DeviceFailed)
}

/// A reader or writer of std, with the counts of its calls. A call that a signal interrupts is made again, and
/// counts once. A write that takes no byte of a rest counts as failed.
#[derive(Drop)]
pub struct Counted<R> {
    inner: R,
    calls: u64,
    failures: u64,
}

impl<R> Counted<R> {
    /// None of its calls is counted yet.
    pub fn new(inner: R) -> Self
        ensures inner { result.inner ≡ inner }
        ensures calls { result.calls ≡ 0 }
        ensures failures { result.failures ≡ 0 }
    {
        Counted {
            inner,
            calls: 0,
            failures: 0,
        }
    }

    /// The reader or writer.
    pub fn inner(&self) -> &R
        ensures { result.now ≡ self.now.inner }
    {
        &self.inner
    }
}

impl<R: Read> ScriptReader for Counted<R> {
    ghost remaining = { λ s. R.remaining s.inner };

    ghost calls = { λ s. s.calls };

    ghost failures = { λ s. s.failures };

    fn read(&mut self, buffer: &mut [u8]) -> Result<usize, DeviceFailed> {
        self.calls += 1;
        let read = read_again(&mut self.inner, buffer);
        if read.is_err() {
            self.failures += 1;
        }
        read
    }
}

impl<W: Write> ScriptWriter for Counted<W> {
    ghost held = { λ s. W.contents s.inner };

    ghost failures = { λ s. s.failures };

    fn write(&mut self, rest: &[u8]) -> Result<usize, DeviceFailed> {
        let written = write_again(&mut self.inner, rest);
        if written.is_err() {
            self.failures += 1;
        }
        written
    }
}
