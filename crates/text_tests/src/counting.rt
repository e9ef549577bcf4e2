//! A depot in memory that counts what is read of some parts of its files, and of whose lengths
//! something false may be said.

use crate::noting::Noted;
use crate::text::{Text, string};
use crate::told::Told;
use memory_devices::MemoryDepot;
use outside::{Bytes, Depot, DepotFault, Name, NoMemory, ReadResult, Seq, Shelf, ShelfFault};
use std::alloc::Global;

/// The bytes of a file from one place up to another, and how many of them were read.
#[derive(Drop)]
pub struct Span {
    label: String,
    file: String,
    from: u64,
    to: u64,
    read: u64,
}

impl Span {
    pub fn new(alloc: Global, label: &str, file: &str, (from, to): (u64, u64)) -> Span {
        Span {
            label: string(alloc, label),
            file: string(alloc, file),
            from,
            to,
            read: 0,
        }
    }

    // A span of the same bytes, of which nothing was read.
    fn fresh(&self, alloc: Global) -> Span {
        let ends = (self.from, self.to);
        Span::new(alloc, self.label.as_str(), self.file.as_str(), ends)
    }

    // How many of its bytes were read since this was last asked, where it has that label.
    fn taken(&mut self, label: &str) -> u64 {
        if self.label.as_str() != label {
            return 0;
        }
        let read = self.read;
        self.read = 0;
        read
    }

    // Counts those of so many bytes of a file from an offset on that are in the span.
    fn count(&mut self, file: &str, offset: u64, count: u64) {
        if self.file.as_str() != file {
            return;
        }
        let end = offset.saturating_add(count).min(self.to);
        let more = end.saturating_sub(offset.max(self.from));
        self.read = self.read.saturating_add(more);
    }
}

/// Spans of the same bytes, of which nothing was read.
pub fn fresh_spans(alloc: Global, spans: &[Span]) -> Vec<Span> {
    let mut fresh = Vec::new(alloc);
    for span in spans {
        let _added = fresh.push(span.fresh(alloc));
    }
    fresh
}

/// A depot in memory, what was read of spans of its files, what is said of the lengths of those
/// whose names end so, and who is told of the names as they change.
#[derive(Drop)]
pub struct CountingDepot<'a> {
    depot: MemoryDepot,
    spans: Vec<Span>,
    told: Told,
    ending: &'static str,
    noted: &'a Noted,
}

impl<'a> CountingDepot<'a> {
    /// A depot of which the reads of these spans are counted from now on, and of whose files with
    /// names of this end something is said of the lengths.
    pub fn new(
        depot: MemoryDepot,
        spans: Vec<Span>,
        (ending, told): (&'static str, Told),
        noted: &'a Noted,
    ) -> CountingDepot<'a> {
        CountingDepot {
            depot,
            spans,
            told,
            ending,
            noted,
        }
    }

    // Tells of the names, where they are noted.
    fn note(&self, alloc: Global) {
        if self.noted.is_on() {
            let files = self.files(alloc).unwrap_or(Seq::new(alloc));
            self.noted.set(files.as_slice());
            drop(files);
        }
    }

    /// The published files.
    pub fn files(&self, alloc: Global) -> Result<Seq<(Name, Bytes)>, NoMemory> {
        self.depot.files(alloc)
    }

    /// Adds each label, and how many bytes were read of its spans since this was last asked.
    pub fn show_taken(&mut self, labels: &str, out: &Text) {
        let mut is_first = true;
        for label in labels.split(' ') {
            out.add(if is_first { "" } else { " " });
            out.add(label);
            out.add(" ");
            out.add_count(self.taken(label));
            is_first = false;
        }
    }

    // How many bytes were read of the spans of a label since this was last asked.
    fn taken(&mut self, label: &str) -> u64 {
        let mut taken: u64 = 0;
        for span in &mut self.spans {
            taken = taken.saturating_add(span.taken(label));
        }
        taken
    }
}

// Counts a read of every span.
fn count_all(spans: &mut [Span], file: &str, offset: u64, count: u64) {
    for span in spans {
        span.count(file, offset, count);
    }
}

impl<'a> Shelf for CountingDepot<'a> {
    ghost use Rattle.std.specs.Prelude.{None};

    ghost held = { λ _. None };

    ghost parts = { λ _. None };

    ghost log = { λ _. None };

    ghost read_faults = { λ counting. counting.depot.read_faults };

    ghost write_faults = { λ counting. counting.depot.write_faults };

    fn names(&mut self, alloc: Global) -> Result<Seq<Name>, ShelfFault> {
        self.depot.names(alloc)
    }

    fn length(&mut self, alloc: Global, name: &str) -> Result<u64, ShelfFault> {
        let length = self.depot.length(alloc, name)?;
        if name.ends_with(self.ending) {
            return Ok(self.told.of(length));
        }
        Ok(length)
    }

    fn read_at(&mut self, alloc: Global, name: &str, offset: u64, into: &mut [u8]) -> ReadResult {
        let n = self.depot.read_at(alloc, name, offset, into)?;
        count_all(&mut self.spans, name, offset, n as u64);
        Ok(n)
    }
}

impl<'a> Depot for CountingDepot<'a> {
    ghost use Rattle.std.specs.Prelude.{refl};

    ghost tells_both = { λ _. (λ e. e, λ e. e) };

    fn begin(&mut self, alloc: Global, part: &str) -> Result<(), DepotFault> {
        self.depot.begin(alloc, part)
    }

    fn append(&mut self, alloc: Global, part: &str, bytes: &[u8]) -> Result<(), DepotFault> {
        self.depot.append(alloc, part, bytes)
    }

    fn publish(&mut self, alloc: Global, part: &str, name: &str) -> Result<(), DepotFault> {
        self.depot.publish(alloc, part, name)?;
        self.note(alloc);
        Ok(())
    }

    fn remove(&mut self, alloc: Global, name: &str) -> Result<(), DepotFault> {
        self.depot.remove(alloc, name)?;
        self.note(alloc);
        Ok(())
    }
}
