//! The sink in memory, and the sink over a stream.

use crate::device_calls::{Put, run_sink};
use crate::expect::Expectations;
use crate::fixtures::calls;
use host_devices::StreamSink;
use memory_devices::MemorySink;
use outside::SinkFault;
use std::alloc::Global;
use std::io;
use std::io::{ErrorKind, Write};

// A writer that takes one byte at a time, and none once it has three. Each other time it is
// interrupted. It counts how often it is flushed.
#[derive(Drop)]
struct Narrow<'a> {
    taken: &'a mut Vec<u8>,
    flushes: &'a mut u32,
    interrupts: bool,
}

impl Write for Narrow<'_> {
    fn write(&mut self, buf: &[u8]) -> io::Result<usize> {
        self.interrupts = !self.interrupts;
        if self.interrupts {
            return Err(io::Error::from(ErrorKind::Interrupted));
        }
        if buf.is_empty() || self.taken.len() >= 3 {
            return Ok(0);
        }
        self.taken.push(buf[0])?;
        Ok(1)
    }

    fn flush(&mut self) -> io::Result<()> {
        *self.flushes = self.flushes.saturating_add(1);
        Ok(())
    }
}

// What a stream takes that has room for three bytes.
const STREAM: &[Put] = &[
    (b"ab", Ok(()), "two bytes, one at a time"),
    (b"", Ok(()), "none"),
    (b"cd", Err(SinkFault::Failed), "a full stream"),
];

fn run_stream(narrow: Narrow<'_>, all: &Expectations) {
    let mut sink = StreamSink::new(narrow);
    run_sink(&mut sink, STREAM, all);
    drop(sink);
}

fn expect_stream(alloc: Global, all: &Expectations) {
    let mut taken = Vec::new(alloc);
    let mut flushes = 0;
    let narrow = Narrow {
        taken: &mut taken,
        flushes: &mut flushes,
        interrupts: false,
    };
    run_stream(narrow, all);
    all.equal(taken.as_slice(), b"abc".as_slice(), "what it took");
    all.expect(flushes == 2, "each put that ends well is flushed");
    drop(taken);
}

// What a sink takes that has room for four bytes, and whose call 1 fails.
const ROOM: &[Put] = &[
    (b"ab", Ok(()), "bytes"),
    (b"c", Err(SinkFault::Failed), "call 1 fails"),
    (b"cde", Err(SinkFault::Failed), "no room"),
    (b"cd", Ok(()), "just room"),
];

pub fn sinks(alloc: Global, all: &Expectations) {
    if let Ok(mut sink) = MemorySink::with_room(alloc, 4, calls(alloc, &[1])) {
        run_sink(&mut sink, ROOM, all);
        all.equal(sink.bytes(), b"abcd".as_slice(), "what it took");
        drop(sink);
    }
    expect_stream(alloc, all);
    all.end("sinks");
}
