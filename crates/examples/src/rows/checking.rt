//! What the checker says of a script.
use crate::rows::outcome::write_end;
use eco_checker::check_script;
use eco_steps::Counted;
use std::alloc::Global;
use std::io::{self, Write};

/// Writes what the check of a script writes, and the status that it ends with.
pub fn show_check<W: Write>(alloc: Global, out: &mut W, script: &str) -> io::Result<()> {
    let mut reader = Counted::new(script.as_bytes());
    let mut writer = Counted::new(Vec::new(alloc));
    let verdict = check_script(alloc, &mut reader, &mut writer);
    write_end(out, writer.inner().as_slice(), verdict.code())
}
