//! Devices that give or take little at a time, fail at some call, are full, or never end.
use eco_script::{Counted, DeviceFailed, ScriptReader, ScriptWriter, Status, run_script};
use std::alloc::Global;
use std::io;
use std::thread::Threads;

const SCRIPT: &str =
    r#"[1, 16, [["create", "a"], ["component", "P", 2], ["add", "a", "(a, a)"], ["set", "a", "P", [3, -4]], ["get", "a", "P"], ["query", "(a, a)"], ["show", "a"], ["clear", "a"], ["has", "a", "b"]]]"#;

const TEXT: &str = "ok #9.0\n\
    ok #10.0\n\
    ok\n\
    ok\n\
    ok 3 -4\n\
    ok 1\n\
    row #9.0 [(#9.0, #9.0)]\n\
    ok #9.0 a - [#10.0=3 -4, (#9.0, #9.0)]\n\
    ok\n\
    refused 21 UnknownName 0\n";

// A reader that gives seven bytes at most a call, and fails at its k-th.
#[derive(Drop)]
struct Slow<'a> {
    rest: &'a [u8],
    calls: u64,
    fails_at: u64,
    failures: u64,
}

impl ScriptReader for Slow<'_> {
    ghost use Rattle.std.specs.Prelude.{Some};

    ghost remaining = { λ s. Some s.rest.now };

    ghost calls = { λ s. s.calls };

    ghost failures = { λ s. s.failures };

    fn read(&mut self, buffer: &mut [u8]) -> Result<usize, DeviceFailed> {
        let call = self.calls;
        self.calls += 1;
        if call == self.fails_at {
            self.failures += 1;
            return Err(DeviceFailed);
        }
        let n = self.rest.len().min(buffer.len()).min(7);
        let rest = self.rest;
        buffer[..n].copy_from_slice(&rest[..n]);
        self.rest = &rest[n..];
        Ok(n)
    }
}

// A writer that takes three bytes at most a call, and fails at its k-th.
#[derive(Drop)]
struct Narrow {
    bytes: Vec<u8>,
    calls: u32,
    fails_at: u32,
    failures: u64,
}

impl ScriptWriter for Narrow {
    ghost use Rattle.std.specs.Prelude.{Some};

    ghost held = { λ s. Some s.bytes.items };

    ghost failures = { λ s. s.failures };

    fn write(&mut self, rest: &[u8]) -> Result<usize, DeviceFailed> {
        let n = rest.len().min(3);
        if self.calls == self.fails_at || self.bytes.extend_from_slice(&rest[..n]).is_err() {
            self.failures += 1;
            return Err(DeviceFailed);
        }
        self.calls = self.calls.saturating_add(1);
        Ok(n)
    }
}

// A writer of std that takes three bytes at most a call, and none once it is full.
#[derive(Drop)]
struct Full {
    bytes: Vec<u8>,
    room: usize,
}

impl io::Write for Full {
    ghost use Rattle.std.specs.Prelude.{Some};

    ghost contents = { λ s. Some s.bytes.items };

    fn write(&mut self, rest: &[u8]) -> io::Result<usize> {
        let n = rest.len().min(self.room).min(3);
        self.bytes.extend_from_slice(&rest[..n])?;
        self.room -= n;
        Ok(n)
    }

    fn flush(&mut self) -> io::Result<()> {
        Ok(())
    }
}

// Whether a run of the script over a writer with room for so many bytes ends with the status, and writes so many bytes of the front
// of the text.
fn fills<R: Threads + Sync>(rt: &R, alloc: Global, room: usize, expected: Status) -> bool {
    let mut reader = Counted::new(SCRIPT.as_bytes());
    let mut writer = Counted::new(Full {
        bytes: Vec::new(alloc),
        room,
    });
    let status = run_script(rt, alloc, &mut reader, &mut writer, 1);
    let written = writer.inner().bytes.as_slice();
    status == expected && written.len() == room && TEXT.as_bytes().starts_with(written)
}

// Whether a run stops at a full writer wherever it is full, and not where there is just room for the text.
fn stops_where_full<R: Threads + Sync>(rt: &R, alloc: Global) -> bool {
    let mut are_stopped = true;
    for room in 0..TEXT.len() {
        are_stopped &= fills(rt, alloc, room, Status::Stopped);
    }
    are_stopped && fills(rt, alloc, TEXT.len(), Status::Ran)
}

// Runs the script over devices that fail at these calls. It gives the status, and how many bytes were written, if they are a front of
// the text.
fn run_over<R: Threads + Sync>(
    rt: &R,
    alloc: Global,
    read_fails_at: u64,
    write_fails_at: u32,
) -> (Status, Option<usize>) {
    let mut reader = Slow {
        rest: SCRIPT.as_bytes(),
        calls: 0,
        fails_at: read_fails_at,
        failures: 0,
    };
    let mut writer = Narrow {
        bytes: Vec::new(alloc),
        calls: 0,
        fails_at: write_fails_at,
        failures: 0,
    };
    let status = run_script(rt, alloc, &mut reader, &mut writer, 1);
    let written = writer.bytes.as_slice();
    let is_front = TEXT.as_bytes().starts_with(written);
    (status, is_front.then_some(written.len()))
}

// Whether a run stops wherever a read fails, and writes nothing.
fn stops_at_reads<R: Threads + Sync>(rt: &R, alloc: Global) -> bool {
    let mut are_stopped = true;
    for call in 0..29u64 {
        are_stopped &= run_over(rt, alloc, call, u32::MAX) == (Status::Stopped, Some(0));
    }
    are_stopped
}

// Whether a run stops wherever a write fails, and has written a front of the text.
fn stops_at_writes<R: Threads + Sync>(rt: &R, alloc: Global) -> bool {
    let mut are_stopped = true;
    for call in 0..43u32 {
        let (status, written) = run_over(rt, alloc, u64::MAX, call);
        are_stopped &= status == Status::Stopped && written.is_some();
    }
    are_stopped
}

#[test]
fn writes_in_small_parts(rt: HostRuntime) {
    let run = run_over(&rt, rt.alloc(), u64::MAX, u32::MAX);
    assert!(rt; run == (Status::Ran, Some(TEXT.len())));
}

#[test]
fn stops_where_a_device_fails(rt: HostRuntime) {
    assert!(rt; stops_at_reads(&rt, rt.alloc()));
    assert!(rt; stops_at_writes(&rt, rt.alloc()));
}

#[test]
fn stops_where_a_writer_is_full(rt: HostRuntime) {
    assert!(rt; stops_where_full(&rt, rt.alloc()));
}

// Whether a run of these bytes finds no script, and writes nothing.
fn is_not_read<R: Threads + Sync>(rt: &R, alloc: Global, bytes: &[u8]) -> bool {
    let mut reader = Counted::new(bytes);
    let mut writer = Counted::new(Vec::new(alloc));
    run_script(rt, alloc, &mut reader, &mut writer, 1) == Status::NotRead
        && writer.inner().as_slice().is_empty()
}

#[test]
fn other_bytes_than_a_text_are_not_read(rt: HostRuntime) {
    assert!(rt; is_not_read(&rt, rt.alloc(), b"[1, 64, [[\"create\", \"\xff\"]]]"));
}

// A reader that gives one space at every call, without end.
#[derive(Drop)]
struct Spaces(u64);

impl ScriptReader for Spaces {
    ghost use Rattle.std.specs.Prelude.{None};

    ghost remaining = { λ s. None };

    ghost calls = { λ s. s.0 };

    ghost failures = { λ s. 0 };

    fn read(&mut self, buffer: &mut [u8]) -> Result<usize, DeviceFailed> {
        self.0 += 1;
        let Some(first) = buffer.first_mut() else {
            return Ok(0);
        };
        *first = b' ';
        Ok(1)
    }
}

// Whether a run stops once it has read so often as a run may, and writes nothing.
fn stops_in_time<R: Threads + Sync>(rt: &R, alloc: Global) -> bool {
    let mut reader = Spaces(0);
    let mut writer = Counted::new(Vec::new(alloc));
    run_script(rt, alloc, &mut reader, &mut writer, 1) == Status::Stopped
        && reader.0 == 16_777_216
        && writer.inner().as_slice().is_empty()
}

#[test]
fn an_endless_input_stops_a_run(rt: HostRuntime) {
    assert!(rt; stops_in_time(&rt, rt.alloc()));
}
