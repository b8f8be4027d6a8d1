//! How a script ends.
ghost use Rattle.std.specs.Prelude.{◌≤◌};

use eco_script::{Counted, Status, run_script};
use std::alloc::Global;
use std::io::{self, Write};
use std::thread::Threads;

// The status of a run, and what it wrote.
pub(crate) struct Outcome {
    status: Status,
    text: Counted<Vec<u8>>,
}

// By hand, so that dropping it is one call: a derived drop is proved anew at each early return of whoever holds it.
impl Drop for Outcome {
    fn drop(self) {
        let Outcome { status: _, text: _ } = self;
    }
}

impl Outcome {
    // That of a run of a script with so many workers.
    pub(crate) fn of<T: Threads + Sync>(
        rt: &T,
        alloc: Global,
        script: &str,
        workers: u32,
    ) -> Outcome
        requires { (1 ≤ workers) × (workers ≤ 64) }
    {
        let mut reader = Counted::new(script.as_bytes());
        let mut text = Counted::new(Vec::new(alloc));
        let status = run_script(rt, alloc, &mut reader, &mut text, workers);
        Outcome { status, text }
    }

    // Whether two runs ended alike, byte by byte.
    pub(crate) fn is(&self, other: &Outcome) -> bool {
        self.status == other.status && self.text.inner() == other.text.inner()
    }

    // Writes what the run wrote, and its status.
    pub(crate) fn write<W: Write>(&self, out: &mut W) -> io::Result<()> {
        write_end(out, self.text.inner().as_slice(), self.status.code())
    }

    // The same below a line that says with how many workers it ended otherwise.
    pub(crate) fn write_apart<W: Write>(&self, out: &mut W, workers: u32) -> io::Result<()> {
        writeln!(out, "with {workers} workers otherwise:")?;
        self.write(out)
    }
}

// Writes what a run or a check wrote, and the status that it ended with.
pub(crate) fn write_end<W: Write>(out: &mut W, text: &[u8], status: u8) -> io::Result<()> {
    out.write_all(text)?;
    writeln!(out, "status {status}")
}
