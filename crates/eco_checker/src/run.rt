//! A whole input that is checked.

ghost use Rattle.std.specs.Prelude.{◌≡◌, ℕ, List, ◌+◌, ◌^◌, ◌<◌, ◌≤◌};
ghost use Rattle.std.specs.Io.KnownBytes.{Appends};
ghost use Rattle.eco_checker.specs.Told.{AreScript, AreNoScript, IsReportOf, WasCutShort, script_line};

use crate::check::check_bytes;
use crate::verdict::Verdict;
use eco_steps::{ScriptReader, ScriptWriter};
use std::alloc::Global;

/// Reads an input to its end, and writes whether it is a script: `is a script`, or a line for each of its faults and
/// their number.
///
/// It says `is a script` only where the input is one, and names faults only where it is none. A head that is none has a
/// line then, and each step that is none has one at least; each of these begins with its place. The words behind are
/// tested, and not proved.
/// Where it stops, nothing was written, or a beginning of such a text.
pub fn check_script<R: ScriptReader, W: ScriptWriter>(
    alloc: Global,
    reader: &mut R,
    writer: &mut W,
) -> Verdict
    requires reads { R.calls reader.old + 16777216 < 2 ^ 64 }
    requires failed_reads { R.failures reader.old + 1 < 2 ^ 64 }
    requires failed_writes { W.failures writer.old + 1 < 2 ^ 64 }
    ensures script { result ≡ Verdict.Script → AreScript (R.remaining reader.old) }
    ensures line { result ≡ Verdict.Script → Appends (W.held writer.old) (W.held writer.new) script_line }
    ensures none { result ≡ Verdict.NotAScript → AreNoScript (R.remaining reader.old) }
    ensures faults { result ≡ Verdict.NotAScript
        → (told : List ℕ) × IsReportOf (R.remaining reader.old) told
        × Appends (W.held writer.old) (W.held writer.new) told }
    // Nothing was written, or a beginning of the line or of such a report.
    ensures stopped { result ≡ Verdict.Stopped
        → WasCutShort (R.remaining reader.old) (W.held writer.old) (W.held writer.new) }
    ensures reads { R.calls reader.new ≤ R.calls reader.old + 16777216 }
{
    let Ok(bytes) = eco_steps::read_all(alloc, reader) else {
        return Verdict::Stopped;
    };
    let mut text = String::new(alloc);
    let Ok(is_script) = check_bytes(alloc, bytes.as_slice(), &mut text) else {
        return Verdict::Stopped;
    };
    match eco_steps::write_all(writer, text.as_str().as_bytes()) {
        Ok(()) if is_script => Verdict::Script,
        Ok(()) => Verdict::NotAScript,
        Err(_) => Verdict::Stopped,
    }
}
