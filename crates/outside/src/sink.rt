//! Streams of bytes that are written.
ghost use Rattle.std.specs.Prelude.{Option, List, ℕ};
ghost use Rattle.outside.specs.Calls.{PutsBytes, heard_by};

/// Why a sink did not take all of a piece.
#[derive(Clone, Copy, Debug, PartialEq, Eq)]
pub enum SinkFault {
    /// The device failed, and its count of faults rose.
    Failed,
}

/// A stream of bytes that is written at its end. A sink may tell what was written; what it tells,
/// it goes on telling.
pub trait Sink {
    /// All that was written, where the sink tells.
    ghost written: { Self → Option (List ℕ) };

    /// How often the sink has failed.
    ghost faults: { Self → ℕ };

    /// Writes these bytes at the end. After a fault a first part of them may have been written. It
    /// takes no memory.
    fn put(&mut self, bytes: &[u8]) -> Result<(), SinkFault>
        ensures { PutsBytes bytes.now result
            (heard_by written faults self.old) (heard_by written faults self.new) };
}
