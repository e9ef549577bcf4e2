//! The devices of a command, in memory.

use crate::counting::{CountingDepot, Span, fresh_spans};
use crate::inputs::Inputs;
use crate::noting::{Noted, NotingSink, add_names};
use crate::text::{Text, meaning, number, parted};
use crate::told::Told;
use memory_devices::{MemoryDepot, MemoryShelf, MemorySink};
use outside::{Bytes, Name, NoMemory, Seq, read_all};
use pinot_run::run_command;
use std::alloc::Global;
use table_store::open_table;

/// Files by name.
pub type Files = Seq<(Name, Bytes)>;

/// The stream of replies and that of notes.
#[derive(Drop)]
struct Streams<'a> {
    out: NotingSink<'a>,
    notes: MemorySink,
}

/// The input files, the store and the two streams, each where there was memory for it, and the
/// names of the store.
#[derive(Drop)]
pub struct Devices<'a> {
    inputs: Result<Inputs, NoMemory>,
    depot: Result<CountingDepot<'a>, NoMemory>,
    streams: Result<Streams<'a>, NoMemory>,
    noted: &'a Noted,
}

// The most bytes that a stream takes.
const ROOM: usize = 4096;

// What a stream was given after its first bytes.
fn added(bytes: &[u8], start: usize) -> &str {
    let more = bytes.get(start..).unwrap_or(b"");
    match str::from_utf8(more) {
        Ok(text) => text,
        Err(_) => "not UTF-8",
    }
}

// What is said of the lengths of input files, in the place of calls that fail.
const LENGTHS: &[(&str, Told)] = &[
    ("long", Told::Long),
    ("length 0", Told::Zero),
    ("length + 1", Told::More),
    ("length - 1", Told::Less),
];

// What is said of the lengths of stored files whose names end so, in the place of calls that fail.
const STORED_LENGTHS: &[(&str, (&str, Told))] = &[
    ("stored 0", ("", Told::Zero)),
    ("stored + 1", ("", Told::More)),
    ("stored - 1", ("", Told::Less)),
    ("segments 0", (".seg", Told::Zero)),
    ("segments + 1", (".seg", Told::More)),
    ("segments - 1", (".seg", Told::Less)),
];

// The most calls of a stream, or of the input files, in a case in which they fail from one on.
const LATER: u64 = 64;

// The numbers from 0 of the calls of a device that fail: one, or those from one on.
fn failing(alloc: Global, calls: &str, device: &str) -> Seq<u64> {
    let mut numbers = Seq::new(alloc);
    for call in calls.split(' ') {
        let (name, at) = parted(call, ':');
        if name == device {
            let first = u64::from(number(at.trim_end_matches('.')));
            let end = first + if at.ends_with("..") { LATER } else { 1 };
            for at in first..end {
                let _added = numbers.push(at);
            }
        }
    }
    numbers
}

// The number from 0 of the call from which on all calls of the depot fail.
fn stop(calls: &str) -> Option<u64> {
    let first = calls.strip_prefix("depot:")?.strip_suffix("..")?;
    Some(u64::from(number(first)))
}

fn stream(alloc: Global, calls: &str, device: &str) -> Result<MemorySink, NoMemory> {
    MemorySink::with_room(alloc, ROOM, failing(alloc, calls, device))
}

impl<'a> Streams<'a> {
    // Streams of which these calls fail.
    fn new(alloc: Global, calls: &str, noted: &'a Noted) -> Result<Streams<'a>, NoMemory> {
        let out = NotingSink::new(stream(alloc, calls, "out")?, noted);
        let notes = stream(alloc, calls, "notes")?;
        Ok(Streams { out, notes })
    }

    // How many bytes the streams were given.
    fn lengths(&self) -> (usize, usize) {
        (self.out.bytes().len(), self.notes.bytes().len())
    }

    // Adds what the streams were given after that many bytes.
    fn show_added(&self, starts: (usize, usize), out: &Text) {
        out.add(added(self.out.bytes(), starts.0));
        let notes = added(self.notes.bytes(), starts.1);
        out.add(if notes.is_empty() { "" } else { "! " });
        out.add(notes);
    }
}

fn run_over(
    alloc: Global,
    words: &[String],
    inputs: &mut Inputs,
    depot: &mut CountingDepot<'_>,
    streams: &mut Streams<'_>,
) -> u8 {
    let status = run_command(
        alloc,
        words,
        inputs,
        depot,
        &mut streams.out,
        &mut streams.notes,
    );
    status.code()
}

// A store of these files, of which these calls fail and the reads of these spans are counted.
fn store<'a>(
    alloc: Global,
    stored: Files,
    spans: &[Span],
    calls: &str,
    noted: &'a Noted,
) -> Result<CountingDepot<'a>, NoMemory> {
    let depot = match stop(calls) {
        Some(after) => MemoryDepot::stopping(alloc, stored, after)?,
        None => MemoryDepot::new(alloc, stored, failing(alloc, calls, "depot"))?,
    };
    let told = meaning(STORED_LENGTHS, calls).unwrap_or(("", Told::Truth));
    let spans = fresh_spans(alloc, spans);
    Ok(CountingDepot::new(depot, spans, told, noted))
}

// Input files, of which these calls fail.
fn inputs_of(alloc: Global, files: Files, calls: &str) -> Result<Inputs, NoMemory> {
    let files = MemoryShelf::new(alloc, files, failing(alloc, calls, "inputs"))?;
    let told = meaning(LENGTHS, calls).unwrap_or(Told::Truth);
    Ok(Inputs { files, told })
}

impl<'a> Devices<'a> {
    /// Devices with these input files and published files. The calls that fail are
    /// `DEVICE:NUMBER`, from 0 on, with blanks between them, or `DEVICE:NUMBER..` for all from one
    /// on; in their place `long`, `length 0`, `length + 1` or `length - 1` is what is said of each
    /// input file's length, and so with `stored` of each published file's, or with `segments` of
    /// each segment's.
    pub fn new(
        alloc: Global,
        (files, stored): (Files, Files),
        spans: &[Span],
        calls: &str,
        noted: &'a Noted,
    ) -> Devices<'a> {
        Devices {
            inputs: inputs_of(alloc, files, calls),
            depot: store(alloc, stored, spans, calls, noted),
            streams: Streams::new(alloc, calls, noted),
            noted,
        }
    }

    /// Runs a command, and adds its status, its reply and, after an exclamation mark, its note
    /// line.
    pub fn run(&mut self, alloc: Global, words: &[String], out: &Text) {
        let (Ok(inputs), Ok(depot), Ok(streams)) = (
            &mut self.inputs,
            &mut self.depot,
            &mut self.streams,
        ) else {
            out.add("NoMemory");
            return;
        };
        let starts = streams.lengths();
        let status = run_over(alloc, words, inputs, depot, streams);
        out.add_count(u64::from(status));
        out.add(" ");
        streams.show_added(starts, out);
    }

    /// Runs a command as `run` does, but each mark among the replies is followed by a line with the
    /// names of the files that are published then.
    pub fn run_noted(&mut self, alloc: Global, words: &[String], out: &Text) {
        let files = self.published(alloc);
        self.noted.begin(files.as_slice());
        drop(files);
        self.run(alloc, words, out);
        self.noted.end();
    }

    /// Adds the names of the published files.
    pub fn names(&self, alloc: Global, out: &Text) {
        let files = self.published(alloc);
        add_names(files.as_slice(), out);
        drop(files);
    }

    /// The published files of the store, none where there is no memory for them.
    pub fn published(&self, alloc: Global) -> Files {
        match &self.depot {
            Ok(depot) => depot.files(alloc).unwrap_or(Seq::new(alloc)),
            Err(_) => Seq::new(alloc),
        }
    }

    /// Adds how many bytes were read of the spans of each label since this was last asked.
    pub fn reads(&mut self, labels: &str, out: &Text) {
        if let Ok(depot) = &mut self.depot {
            depot.show_taken(labels, out);
        }
    }

    /// Adds the bytes of the table's file.
    pub fn table_file(&mut self, alloc: Global, out: &Text) {
        if let Ok(depot) = &mut self.depot {
            let file = read_all(alloc, depot, "table", 4096);
            match &file {
                Ok(file) => out.add(added(file.as_slice(), 0)),
                Err(fault) => out.add_debug(fault),
            }
            drop(file);
        }
    }

    /// Opens the table of the store, and adds its name, or why there is none.
    pub fn open(&mut self, alloc: Global, out: &Text) {
        if let Ok(depot) = &mut self.depot {
            let table = open_table(alloc, depot);
            match &table {
                Ok(table) => out.add(table.settings.table.as_str()),
                Err(fault) => out.add_debug(fault),
            }
            drop(table);
        }
    }
}
