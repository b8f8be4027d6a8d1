//! A whole input read, and a whole text written.

ghost use Rattle.std.specs.Prelude.{◌≡◌, ◌⊎◌, ℕ, ◌+◌, ◌^◌, ◌<◌, ◌≤◌, List, IfOk, OnOk, OnErr, IsErrOf};
ghost use Rattle.std.specs.Io.KnownBytes.{Appends, Consumes, IsAtEnd};
ghost use Rattle.eco_steps.specs.Beginning.{IsBeginning};

use crate::device::{DeviceFailed, ScriptReader, ScriptWriter};
use crate::read_fault::ReadFault;
use std::alloc::Global;

/// How many calls of a reader are made for one input at most.
pub const MOST_READS: u32 = 16_777_216;

/// The bytes that a reader has, all of them.
///
/// The error is `Device` where a call failed, or where 16,777,216 calls met no end; and `Memory` where the bytes found none.
pub fn read_all<R: ScriptReader>(alloc: Global, reader: &mut R) -> Result<Vec<u8>, ReadFault>
    requires callable { R.calls reader.old + 16777216 < 2 ^ 64 }
    requires countable { R.failures reader.old + 1 < 2 ^ 64 }
    ensures whole { IfOk result (λ v. Consumes (R.remaining reader.old) (R.remaining reader.new) v.items) }
    ensures ended { OnOk result (IsAtEnd (R.remaining reader.new)) }
    ensures device { IsErrOf result ReadFault.Device → (R.failures reader.new ≡ R.failures reader.old + 1)
        ⊎ (R.calls reader.new ≡ R.calls reader.old + 16777216) }
    ensures memory { IsErrOf result ReadFault.Memory → R.failures reader.new ≡ R.failures reader.old }
    ensures counts_none { OnOk result (R.failures reader.new ≡ R.failures reader.old) }
    ensures bounded { R.calls reader.new ≤ R.calls reader.old + 16777216 }
{
    let mut bytes = Vec::new(alloc);
    let mut chunk = [0u8; 4096];
    for _made in 0..MOST_READS {
        match reader.read(&mut chunk) {
            Ok(0) => return Ok(bytes),
            Ok(n) => {
                let Ok(()) = bytes.extend_from_slice(&chunk[..n]) else {
                    return Err(ReadFault::Memory);
                };
            }
            Err(_) => return Err(ReadFault::Device),
        }
    }
    Err(ReadFault::Device)
}

/// Writes all of the bytes. The error is a call that failed, and then a beginning of them was written.
pub fn write_all<W: ScriptWriter>(writer: &mut W, bytes: &[u8]) -> Result<(), DeviceFailed>
    requires countable { W.failures writer.old + 1 < 2 ^ 64 }
    ensures ok { OnOk result (Appends (W.held writer.old) (W.held writer.new) bytes.now) }
    ensures counts_none { OnOk result (W.failures writer.new ≡ W.failures writer.old) }
    ensures err { OnErr result ((part : List ℕ) × IsBeginning part bytes.now
        × Appends (W.held writer.old) (W.held writer.new) part) }
    ensures counts_one { OnErr result (W.failures writer.new ≡ W.failures writer.old + 1) }
{
    let mut done = 0;
    while done < bytes.len() {
        let n = writer.write(&bytes[done..])?;
        done += n;
    }
    Ok(())
}
