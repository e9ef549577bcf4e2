//! Sinks over real streams.
ghost use Rattle.std.specs.Prelude.{◌≡◌, None, OnOk, OnErr};
ghost use Rattle.std.specs.Io.KnownBytes.{Appends};
ghost use Rattle.outside.specs.Calls.{PutsBytes};
ghost use Rattle.host_devices.specs.Stream.{AppendsSome, sink_told};

use outside::{Sink, SinkFault};
use std::io;
use std::io::{ErrorKind, Write};
use std::marker::Model;

/// A sink over a stream, which it flushes after each piece. As a sink it tells nothing of what was
/// written; where the stream tells its contents, they have grown by what was put.
#[derive(Drop)]
pub struct StreamSink<W: Write + Drop> {
    stream: W,
    faults: u64,
}

impl<W: Write + Drop> Model for StreamSink<W> {
    ghost use Rattle.host_devices.specs.Stream.{Stream, stream_code};

    ghost Value = { Stream W };

    ghost coded = { stream_code W.code };

    ghost view = { λ s. record { stream = s.stream; faults = s.faults } };
}

impl<W: Write + Drop> StreamSink<W> {
    pub fn new(stream: W) -> Self
        ensures { result ≡ record { stream = stream; faults = 0 } }
    {
        StreamSink { stream, faults: 0 }
    }
}

// Writes all of the bytes and flushes, or stops at the first fault. A stream that takes nothing of
// what is left has failed.
fn write_through<W: Write>(stream: &mut W, bytes: &[u8]) -> io::Result<()>
    ensures all { OnOk result (Appends (W.contents stream.old) (W.contents stream.new) bytes.now) }
    ensures some { OnErr result
        (AppendsSome (W.contents stream.old) (W.contents stream.new) bytes.now) }
{
    let mut done = 0;
    'pieces: for _ in 0..u64::MAX {
        if done >= bytes.len() {
            return stream.flush();
        }
        match stream.write(&bytes[done..]) {
            Ok(0) => return Err(io::Error::from(ErrorKind::WriteZero)),
            Ok(n) => done += n,
            Err(e) if e.kind() == ErrorKind::Interrupted => {}
            Err(e) => return Err(e),
        }
    }
    Err(io::Error::from(ErrorKind::TimedOut))
}

impl<W: Write + Drop> Sink for StreamSink<W> {
    ghost written = { λ _. None };

    ghost faults = { λ sink. sink.faults };

    fn put(&mut self, bytes: &[u8]) -> Result<(), SinkFault>
        ensures stream { OnOk result
            (Appends (W.contents self.old.stream) (W.contents self.new.stream) bytes.now) }
        ensures stream_after_fault { OnErr result
            (AppendsSome (W.contents self.old.stream) (W.contents self.new.stream) bytes.now) }
        ensures puts { PutsBytes bytes.now result (sink_told self.old) (sink_told self.new) }
    {
        match write_through(&mut self.stream, bytes) {
            Ok(()) => Ok(()),
            Err(_) => {
                self.faults = self.faults.saturating_add(1);
                Err(SinkFault::Failed)
            }
        }
    }
}
