//! What a run reads its script from and writes its lines to: devices that count their calls that failed.

ghost use Rattle.std.specs.Prelude.{◌≡◌, ℕ, ◌+◌, ◌^◌, ◌<◌, ◌≤◌, List, length, take, Option, IfOk, OnOk, OnErr};
ghost use Rattle.std.specs.Io.KnownBytes.{Appends, Consumes, IsAtEnd, Keeps};

/// A call of a device that failed.
#[derive(Clone, Copy, Debug, PartialEq, Eq)]
pub struct DeviceFailed;

/// Where a script comes from. Its calls, and those of them that failed, are fewer than 2^64.
pub trait ScriptReader {
    /// The bytes that are left, where that is known.
    ghost remaining: { Self → Option (List ℕ) };

    /// How many calls there were.
    ghost calls: { Self → ℕ };

    /// How many calls have failed.
    ghost failures: { Self → ℕ };

    /// Reads bytes into the front of a buffer, and says how many. None come only at the end. The error is a call that failed.
    fn read(&mut self, buffer: &mut [u8]) -> Result<usize, DeviceFailed>
        requires callable { calls self.old + 1 < 2 ^ 64 }
        requires countable { failures self.old + 1 < 2 ^ 64 }
        ensures called { calls self.new ≡ calls self.old + 1 }
        ensures within { IfOk result (λ n. n ≤ length buffer.new) }
        ensures consumes { IfOk result (λ n.
            Consumes (remaining self.old) (remaining self.new) (take n buffer.new)) }
        ensures ended { IfOk result (λ n. n ≡ 0 → 0 < length buffer.new → IsAtEnd (remaining self.new)) }
        ensures ok { OnOk result (failures self.new ≡ failures self.old) }
        ensures err { OnErr result (failures self.new ≡ failures self.old + 1) };
}

/// Where lines go. Its calls that failed are fewer than 2^64.
pub trait ScriptWriter {
    /// The bytes that are held, where that is known.
    ghost held: { Self → Option (List ℕ) };

    /// How many calls have failed, those that took no byte of a rest included.
    ghost failures: { Self → ℕ };

    /// Writes some bytes of the front of a rest, one at least, and says how many. The error is a call that failed, or that
    /// took none; then the device holds what it held.
    fn write(&mut self, rest: &[u8]) -> Result<usize, DeviceFailed>
        requires some { 0 < length rest.now }
        requires countable { failures self.old + 1 < 2 ^ 64 }
        ensures within { IfOk result (λ n. n ≤ length rest.now) }
        ensures takes { IfOk result (λ n. 0 < n) }
        ensures appends { IfOk result (λ n. Appends (held self.old) (held self.new) (take n rest.now)) }
        ensures keeps { OnErr result (Keeps (held self.old) (held self.new)) }
        ensures ok { OnOk result (failures self.new ≡ failures self.old) }
        ensures err { OnErr result (failures self.new ≡ failures self.old + 1) };
}
